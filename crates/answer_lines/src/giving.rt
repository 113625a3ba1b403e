// What a client is given, and the line that says what it took.
ghost use Rattle.std.specs.Prelude.{◌≡◌, ◌≢◌, ◌<◌, ℕ, Option, Result, Err, IfOk, length, option_copied};
ghost use Rattle.chain_block.specs.Entry.{IsWithinLimits, bare};
ghost use Rattle.port.specs.Cause.{cause_of};
ghost use Rattle.port.specs.Service.{Refused, stood, replied};
ghost use Rattle.reply_lines.specs.Causes.{payload_of};
ghost use Rattle.reply_lines.specs.Lines.{bad_reply_line};
ghost use Rattle.verifier.specs.declared.reply_fault.ReplyFault.{ReplyFault};
ghost use Rattle.client_pass.specs.declared.take_fault.TakeFault.TheVariants.{Again, Reply};
ghost use Rattle.client_pass.specs.Answers.{answer_by};
ghost use Rattle.client_acts.specs.ClientActs.{StaysOn};
ghost use Rattle.client_acts.specs.Turns.{TurnsAt};
ghost use Rattle.answer_lines.specs.Draws.{DrewEntry, DrewRead, IsOpen};
ghost use Rattle.answer_lines.specs.Giving.{Gave, OnlyLearned, conflict_in, count_by};
ghost use Rattle.answer_lines.specs.Taken.{TookAt, TookLatest, TookOwn, latest_line, newest_line, taken_line};

use chain_block::Entry;
use client_acts::{ClientActs, clients_stay_on};
use client_pass::TakeFault;
use coordinator::Coordinator;
use nim_base::{Digest, NoMemory, Nonce, Text};
use port::{LatestReply, Link, Refusal, Row, Standing, Store};
use reply_lines::{absent_line, bad_reply_line, conflict_line, ok_line, payload_of, refusal_line};
use roster_bank::RunName;
use seal::Checker;
use std::alloc::Global;

/// The line of a reply that wasn't accepted.
fn fault_line(alloc: Global, fault: TakeFault) -> Result<Text, NoMemory>
    requires { fault ≢ Again }
    ensures { IfOk result (λ line. (told : ReplyFault) × (fault ≡ Reply told) × (line.bytes ≡ bad_reply_line told)) }
{
    match fault {
        TakeFault::Reply { fault } => bad_reply_line(alloc, fault),
        _ => Err(NoMemory),
    }
}

/// The line of a reply that was to be accepted, by what the client's check said.
fn taken_line(alloc: Global, accepted: Text, taken: Result<(), TakeFault>) -> Result<Text, NoMemory>
    requires { taken ≢ Err Again }
    ensures { IfOk result (λ line. (fault : Option ReplyFault) × (taken ≡ answer_by fault) × (line.bytes ≡ taken_line accepted.bytes fault)) }
{
    match taken {
        Ok(()) => Ok(accepted),
        Err(fault) => fault_line(alloc, fault),
    }
}

/// Gives a client the answer to a new ledger of its entry, or to an append of it.
pub fn give_own<S: Store, L: Link, C: Checker, K: RunName>(
    alloc: Global,
    acts: &mut ClientActs<'_, C, K>,
    coordinator: &mut Coordinator<S, L, C>,
    calls: usize,
    client: usize,
    draw: u64,
    label: &[u8],
    entry: &Entry,
    answer: Result<Standing, Refusal>,
) -> Result<Text, NoMemory>
    requires within { IsWithinLimits entry.now }
    requires drawn { DrewEntry acts.old.clients client draw (bare entry.now) }
    requires open { IsOpen acts.old.clients client draw }
    ensures took { IfOk result (λ line. Gave acts.old acts.new client coordinator.old coordinator.new (λ sides. TookOwn K.accepts sides label.now (bare entry.now) (stood answer) line.bytes)) }
    ensures stays { StaysOn acts.old acts.new }
    ensures checker { coordinator.new.checker ≡ coordinator.old.checker }
    // Whatever was asked on the way to the check was asked for views.
    ensures learned { OnlyLearned C.accepts S.view L.view coordinator.old coordinator.new }
    // Whatever the client wrote, it wrote after so many calls.
    ensures turns { TurnsAt client calls acts.old.turns acts.new.turns }
{
    clients_stay_on::<C>();
    match answer {
        Ok(standing) => {
            let accepted = ok_line(alloc, label, entry.height(), payload_of(entry))?;
            let taken = acts.take_own(client, calls, coordinator, draw, &standing);
            taken_line(alloc, accepted, taken)
        }
        Err(refusal) => give_own_refusal(
            alloc,
            acts,
            coordinator,
            calls,
            client,
            label,
            entry,
            &refusal,
        ),
    }
}

fn payload_in(standing: &Standing) -> &[u8]
    ensures { result.now ≡ payload_of standing.now.row.entry }
{
    payload_of(&standing.row.entry)
}

/// What stands, where the refusal is a conflict.
fn conflict_in(refusal: &Refusal) -> Option<&Standing>
    ensures { option_copied result ≡ conflict_in (cause_of refusal.now) }
{
    match refusal {
        Refusal::Conflict { standing } => Some(standing),
        _ => None,
    }
}

/// Gives a client the refusal of its entry: at a conflict the client looks at what stands.
fn give_own_refusal<S: Store, L: Link, C: Checker, K: RunName>(
    alloc: Global,
    acts: &mut ClientActs<'_, C, K>,
    coordinator: &mut Coordinator<S, L, C>,
    calls: usize,
    client: usize,
    label: &[u8],
    entry: &Entry,
    refusal: &Refusal,
) -> Result<Text, NoMemory>
    requires within { IsWithinLimits entry.now }
    requires client { client < length acts.old.clients }
    ensures took { IfOk result (λ line. Gave acts.old acts.new client coordinator.old coordinator.new (λ sides. TookOwn K.accepts sides label.now (bare entry.now) (Refused (cause_of refusal.now)) line.bytes)) }
    ensures stays { StaysOn acts.old acts.new }
    ensures checker { coordinator.new.checker ≡ coordinator.old.checker }
    // Whatever was asked on the way to the check was asked for views.
    ensures learned { OnlyLearned C.accepts S.view L.view coordinator.old coordinator.new }
    // Whatever the client wrote, it wrote after so many calls.
    ensures turns { TurnsAt client calls acts.old.turns acts.new.turns }
{
    clients_stay_on::<C>();
    match conflict_in(refusal) {
        Some(standing) => {
            let (handle, height) = (entry.handle(), entry.height());
            let accepted = conflict_line(alloc, label, height, payload_in(standing))?;
            let looked = acts.look(client, calls, coordinator, &handle, height, standing);
            taken_line(alloc, accepted, looked)
        }
        None => refusal_line(alloc, label, refusal),
    }
}

/// Gives a client the answer to a read of a ledger at a height.
pub fn give_at<S: Store, L: Link, C: Checker, K: RunName>(
    alloc: Global,
    acts: &mut ClientActs<'_, C, K>,
    coordinator: &mut Coordinator<S, L, C>,
    calls: usize,
    client: usize,
    label: &[u8],
    handle: &Digest,
    height: u64,
    answer: Result<Standing, Refusal>,
) -> Result<Text, NoMemory>
    requires client { client < length acts.old.clients }
    ensures took { IfOk result (λ line. Gave acts.old acts.new client coordinator.old coordinator.new (λ sides. TookAt K.accepts sides label.now handle.now height (stood answer) line.bytes)) }
    ensures stays { StaysOn acts.old acts.new }
    ensures checker { coordinator.new.checker ≡ coordinator.old.checker }
    // Whatever was asked on the way to the check was asked for views.
    ensures learned { OnlyLearned C.accepts S.view L.view coordinator.old coordinator.new }
    // Whatever the client wrote, it wrote after so many calls.
    ensures turns { TurnsAt client calls acts.old.turns acts.new.turns }
{
    clients_stay_on::<C>();
    match answer {
        Ok(standing) => {
            let accepted = ok_line(alloc, label, height, payload_in(&standing))?;
            let taken = acts.take_at(client, calls, coordinator, handle, height, &standing);
            taken_line(alloc, accepted, taken)
        }
        Err(refusal) => refusal_line(alloc, label, &refusal),
    }
}

/// The line of a reply to a latest read, by what the client's check said.
fn latest_line(
    alloc: Global,
    label: &[u8],
    row: &Option<Row>,
    taken: Result<u64, TakeFault>,
) -> Result<Text, NoMemory>
    requires { taken ≢ Err Again }
    ensures { IfOk result (λ line. (told : Result ℕ ReplyFault) × (taken ≡ count_by told) × (line.bytes ≡ latest_line label.now row.now told)) }
{
    match taken {
        Ok(_) => newest_line(alloc, label, row),
        Err(fault) => fault_line(alloc, fault),
    }
}

fn newest_line(alloc: Global, label: &[u8], row: &Option<Row>) -> Result<Text, NoMemory>
    ensures { IfOk result (λ line. line.bytes ≡ newest_line label.now row.now) }
{
    match row {
        Some(row) => ok_line(alloc, label, row.height(), payload_of(&row.entry)),
        None => absent_line(alloc, label),
    }
}

/// Gives a client the answer to a read of a ledger's newest row with the nonce of its draw.
pub fn give_latest<S: Store, L: Link, C: Checker, K: RunName>(
    alloc: Global,
    acts: &mut ClientActs<'_, C, K>,
    coordinator: &mut Coordinator<S, L, C>,
    calls: usize,
    client: usize,
    draw: u64,
    label: &[u8],
    handle: &Digest,
    nonce: &Nonce,
    answer: Result<LatestReply, Refusal>,
) -> Result<Text, NoMemory>
    requires drawn { DrewRead acts.old.clients client draw nonce.now }
    requires open { IsOpen acts.old.clients client draw }
    ensures took { IfOk result (λ line. Gave acts.old acts.new client coordinator.old coordinator.new (λ sides. TookLatest K.accepts sides label.now handle.now nonce.now (replied answer) line.bytes)) }
    ensures stays { StaysOn acts.old acts.new }
    ensures checker { coordinator.new.checker ≡ coordinator.old.checker }
    // Whatever was asked on the way to the check was asked for views.
    ensures learned { OnlyLearned C.accepts S.view L.view coordinator.old coordinator.new }
    // Whatever the client wrote, it wrote after so many calls.
    ensures turns { TurnsAt client calls acts.old.turns acts.new.turns }
{
    clients_stay_on::<C>();
    match answer {
        Ok(reply) => {
            let taken = acts.take_latest(client, calls, coordinator, draw, handle, &reply);
            latest_line(alloc, label, &reply.row, taken)
        }
        Err(refusal) => refusal_line(alloc, label, &refusal),
    }
}
