ghost use Rattle.std.specs.Prelude.{None};
ghost use Rattle.statement.specs.Reading.{Reads, MayGive, MayRead, each_at, whole, member_at, config_at};
ghost use Rattle.statement.specs.Config.{id_of};

use crate::config::{KIND, MAX_MEMBERS};
use crate::ids::is_above;
use crate::member::Member;
use crate::reading::{end, read_byte, read_digest, read_u32};
use nim_base::{Cursor, FormFault};
use std::alloc::Global;

#[tactic(auto, unfolding(crate::specs::Reading::member_at))]
fn read_member(cursor: &mut Cursor, before: Option<u32>) -> Result<Member, FormFault>
    ensures { Reads result cursor.new (member_at before cursor.old) }
{
    let id = read_u32(cursor)?;
    if !is_above(before, id) {
        return Err(FormFault::Order);
    }
    let key = read_digest(cursor)?;
    Ok(Member { id, key })
}

#[tactic(auto, unfolding(crate::specs::Reading::each_at))]
fn read_members(alloc: Global, cursor: &mut Cursor, number: u8) -> Result<Vec<Member>, FormFault>
    ensures { MayRead (λ members. members.items) result cursor.new (each_at member_at id_of number None cursor.old) }
{
    let mut members = Vec::with_capacity(alloc, number as usize)?;
    let mut before = None;
    for _ in 0..number {
        let member = read_member(cursor, before)?;
        before = Some(member.id);
        members.push(member)?;
    }
    Ok(members)
}

/// The members of the config that has these bytes, all of them.
pub(crate) fn read_whole(alloc: Global, bytes: &[u8]) -> Result<Vec<Member>, FormFault>
    ensures { MayGive (λ members. members.items) result (whole (config_at bytes.now)) }
{
    let mut cursor = Cursor::new(bytes);
    let members = read_config(alloc, &mut cursor)?;
    end(&cursor)?;
    Ok(members)
}

#[tactic(auto, unfolding(crate::specs::Reading::config_at, crate::specs::Reading::list_at))]
fn read_config(alloc: Global, cursor: &mut Cursor) -> Result<Vec<Member>, FormFault>
    ensures { MayRead (λ members. members.items) result cursor.new (config_at cursor.old) }
{
    if read_byte(cursor)? != KIND {
        return Err(FormFault::Kind);
    }
    let number = read_byte(cursor)?;
    if number == 0 || number as usize > MAX_MEMBERS {
        return Err(FormFault::Value);
    }
    read_members(alloc, cursor, number)
}
