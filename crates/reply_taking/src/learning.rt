ghost use Rattle.std.specs.Prelude.{ℕ};
ghost use Rattle.client_pass.specs.ClientList.{IsAnswered};
ghost use Rattle.reply_taking.specs.Learning.{Grows, Learns, TakesViews};

use client_pass::{ClientPass, TakeFault};
use coordinator::Coordinator;
use nim_base::{Digest, NoMemory};
use port::{Link, Refusal, Service, Store, ViewRow};
use seal::Checker;
use stamp_clock::{Clock, ClockName};
use std::alloc::Global;

/// Lets the client know the view with this tail, if it can. Where its chain doesn't have it, the coordinator is asked for the views
/// above the newest one of the chain, and each of them is taken; a refusal leaves the chain as it is. A client without a stamp left is
/// want of memory.
#[tactic(auto, using(crate::proofs::Growing::grows_same, crate::proofs::Growing::grows_again))]
pub fn learn<S: Store, L: Link, C: Checker, K: ClockName>(
    alloc: Global,
    clock: &Clock<K>,
    coordinator: &mut Coordinator<S, L, C>,
    pass: &mut ClientPass<C, K>,
    view: &Digest,
) -> Result<(), NoMemory>
    ensures grows { Grows pass.old pass.new }
    ensures views { TakesViews pass.old pass.new }
    ensures learns { Learns C.accepts S.view L.view coordinator.old coordinator.new pass.old pass.new view.now }
    ensures open { (draw : ℕ) → IsAnswered pass.new.lines draw → IsAnswered pass.old.lines draw }
{
    if pass.chain().find(view).is_some() {
        return Ok(());
    }
    let above = pass.chain().number() + 1;
    match coordinator.views(alloc, above) {
        Ok(rows) => take_views(alloc, clock, pass, &rows),
        Err(Refusal::NoMemory) => Err(NoMemory),
        Err(_) => Ok(()),
    }
}

/// Takes each of the views. One that isn't accepted has its line, and those after it are taken all the same.
#[tactic(auto, using(crate::proofs::Growing::grows_same, crate::proofs::Growing::grows_again))]
fn take_views<C: Checker, K: ClockName>(
    alloc: Global,
    clock: &Clock<K>,
    pass: &mut ClientPass<C, K>,
    rows: &[ViewRow],
) -> Result<(), NoMemory>
    ensures grows { Grows pass.old pass.new }
    ensures views { TakesViews pass.old pass.new }
    ensures open { (draw : ℕ) → IsAnswered pass.new.lines draw → IsAnswered pass.old.lines draw }
{
    for row in rows {
        take_view(alloc, clock, pass, row)?;
    }
    Ok(())
}

#[tactic(auto, using(crate::proofs::Growing::views_same))]
fn take_view<C: Checker, K: ClockName>(
    alloc: Global,
    clock: &Clock<K>,
    pass: &mut ClientPass<C, K>,
    row: &ViewRow,
) -> Result<(), NoMemory>
    ensures grows { Grows pass.old pass.new }
    ensures views { TakesViews pass.old pass.new }
    ensures open { (draw : ℕ) → IsAnswered pass.new.lines draw → IsAnswered pass.old.lines draw }
{
    if pass.left() == 0 {
        return Err(NoMemory);
    }
    match pass.take_view(alloc, clock, row) {
        Err(TakeFault::NoMemory) => Err(NoMemory),
        _ => Ok(()),
    }
}
