ghost use Rattle.std.specs.Prelude.{◌≡◌, ◌<◌, IfOk, IfSome, OnErr};
ghost use Rattle.port.specs.Answer.{answer_of};
ghost use Rattle.port.specs.Table.{Active};
ghost use Rattle.endorser_core.specs.Endorser.{Goes};
ghost use Rattle.endorser_core.specs.Held.{state_at, view_of};
ghost use Rattle.endorser_core.specs.Lacks.{MayLack};
ghost use Rattle.endorser_core.specs.Move.{Fits, HasPlace, cell_of, rows_after};

use crate::membership::{Membership, Stage};
use nim_base::NoMemory;
use port::{EndorserAnswer, EndorserRefusal};
use seal::Signer;
use statement::Statement;
use std::alloc::Global;
use tail_map::{TailMap, TailRow};

// What an active endorser does: it refuses, or it signs and sets a row or none.
#[derive(Debug, Drop)]
pub(crate) enum Move {
    Refuses(EndorserRefusal),
    Signs {
        statement: Statement,
        row: Option<TailRow>,
    },
}

impl Membership {
    pub(crate) fn carry_out<S: Signer>(
        &mut self,
        alloc: Global,
        signer: &mut S,
        step: Move,
    ) -> Result<EndorserAnswer, NoMemory>
        requires active { self.old.stage ≡ Stage.Active }
        requires fits { Fits self.old.map.rows step }
        ensures done { IfOk result (λ answer. Goes S.key_of S.left_of S.size_of S.signs (Active (view_of self.old)) (cell_of (view_of self.old) step)
            signer.old signer.new (Active (view_of self.new)) (answer_of answer)) }
        ensures stage { self.new.stage ≡ self.old.stage }
        ensures same_signer { OnErr result (signer.new ≡ signer.old) }
        ensures same_view { OnErr result (view_of self.new ≡ view_of self.old) }
        ensures lacks { OnErr result (MayLack (S.left_of signer.old) (cell_of (view_of self.old) step)) }
    {
        match step {
            Move::Refuses(denial) => Ok(EndorserAnswer::Refused(denial)),
            Move::Signs { statement, row } => self.sign(alloc, signer, statement, row),
        }
    }

    // All memory is taken before the signer signs, so that no signature is lost.
    fn sign<S: Signer>(
        &mut self,
        alloc: Global,
        signer: &mut S,
        statement: Statement,
        row: Option<TailRow>,
    ) -> Result<EndorserAnswer, NoMemory>
        requires active { self.old.stage ≡ Stage.Active }
        requires fits { IfSome row (HasPlace self.old.map.rows) }
        ensures done { IfOk result (λ answer. Goes S.key_of S.left_of S.size_of S.signs (Active (view_of self.old)) (cell_of (view_of self.old) (Move.Signs statement row))
            signer.old signer.new (Active (view_of self.new)) (answer_of answer)) }
        ensures stage { self.new.stage ≡ self.old.stage }
        ensures same_signer { OnErr result (signer.new ≡ signer.old) }
        ensures same_view { OnErr result (view_of self.new ≡ view_of self.old) }
        ensures lacks { OnErr result (0 < S.left_of signer.old) }
    {
        if signer.left() == 0 {
            return Ok(EndorserAnswer::Refused(EndorserRefusal::Spent));
        }
        if row.is_some() {
            self.map.reserve()?;
        }
        let Ok(sig) = signer.sign(alloc, statement.bytes().as_slice()) else {
            return Err(NoMemory);
        };
        set(&mut self.map, row);
        Ok(EndorserAnswer::Signed { statement, sig })
    }
}

// Sets the row, if there is one, where a place and the memory for it are there.
fn set(map: &mut TailMap, row: Option<TailRow>)
    requires place { IfSome row (HasPlace map.old.rows) }
    requires room { IfSome row (λ _. 0 < map.old.room) }
    ensures { map.new.rows ≡ rows_after map.old.rows row }
{
    if let Some(row) = row {
        map.set(&row).unwrap();
    }
}
