// What a refresh does after a call.
ghost use Rattle.std.specs.Prelude.{◌≡◌, List, length, None, Ok, IfOk, IfSome};
ghost use Rattle.port.specs.declared.key.Key.TheVariants as keys;
ghost use Rattle.port.specs.declared.store_answers.Got.{Got};
ghost use Rattle.port.specs.declared.store_answers.Got.TheVariants as gots;
ghost use Rattle.port.specs.Stored.{Stored};
ghost use Rattle.port.specs.Store.{Get, WasGot};
ghost use Rattle.port.specs.Trace.{AtStore};
ghost use Rattle.statement.specs.declared.member.Member.{Member};
ghost use Rattle.statement.specs.declared.view_block.ViewBlock.{ViewBlock};
ghost use Rattle.op_parts.specs.Refresh.{IsComplete, ReadsAsView};
ghost use Rattle.op_parts.specs.RefreshTurn.{Extended, TurnsAtFinals, TurnsAtView};

use crate::marks::read_marks;
use crate::refresh_stage::RefreshStage;
use nim_base::{FormFault, NoMemory, Text};
use port::{FinalMark, Got, Key, Refusal, Stored, ViewRow, read_view};
use seal::Checker;
use statement::{Config, ViewBlock};
use std::alloc::Global;
use view_ledger::{ViewChain, ViewFault};

/// How a refresh stands after a step. After every answer but `More` it has ended.
#[derive(Debug, Drop)]
pub enum RefreshProgress {
    /// There may be views that the chain doesn't have.
    More,
    /// The store marks no further view as complete.
    Fresh,
    /// `StoreFault`, or `BadRow` of the view or of what ended the one below.
    Refused { refusal: Refusal },
}

/// The byte that is attached to a view that is complete.
const COMPLETE: [u8; 1] = [1];

/// A view that was given: its number, its bytes, and what they read as.
#[derive(Drop)]
pub(crate) struct NextView {
    pub number: u64,
    pub body: Text,
    pub block: ViewBlock,
    pub config: Config,
}

/// What a refresh does next, and how it stands.
#[derive(Drop)]
pub(crate) struct RefreshTurn {
    pub stage: RefreshStage,
    pub progress: RefreshProgress,
}

impl RefreshTurn {
    fn end(progress: RefreshProgress) -> RefreshTurn
        ensures { result ≡ record { stage = RefreshStage.Ended; progress = progress } }
    {
        RefreshTurn {
            stage: RefreshStage::Ended,
            progress,
        }
    }

    fn refuse(refusal: Refusal) -> RefreshTurn
        ensures { result ≡ record { stage = RefreshStage.Ended; progress = RefreshProgress.Refused refusal } }
    {
        RefreshTurn::end(RefreshProgress::Refused { refusal })
    }

    fn bad_row(key: Key, bytes: Option<Text>) -> RefreshTurn
        ensures { result ≡ record { stage = RefreshStage.Ended; progress = RefreshProgress.Refused (Refusal.BadRow key bytes) } }
    {
        RefreshTurn::refuse(Refusal::BadRow { key, bytes })
    }

    /// By what the store gave for the view of this number, which is the next one.
    pub fn of_view(alloc: Global, number: u64, got: Got) -> Result<RefreshTurn, NoMemory>
        ensures { TurnsAtView number (AtStore (Get (keys.View number)) (WasGot got)) result }
    {
        match got {
            Got::Some(stored) => RefreshTurn::of_stored(alloc, number, stored),
            Got::None => Ok(RefreshTurn::end(RefreshProgress::Fresh)),
            Got::Failed => Ok(RefreshTurn::refuse(Refusal::StoreFault)),
            Got::NoMemory => Err(NoMemory),
        }
    }

    fn of_stored(alloc: Global, number: u64, stored: Stored) -> Result<RefreshTurn, NoMemory>
        ensures { TurnsAtView number (AtStore (Get (keys.View number)) (WasGot (gots.Some stored))) result }
    {
        if !is_complete(&stored) {
            return Ok(RefreshTurn::end(RefreshProgress::Fresh));
        }
        let Stored { body, attached: _ } = stored;
        match view_of(alloc, body.bytes())? {
            Some((block, config)) => Ok(RefreshTurn {
                stage: RefreshStage::Finals {
                    body,
                    block,
                    config,
                },
                progress: RefreshProgress::More,
            }),
            None => Ok(RefreshTurn::bad_row(Key::View { number }, Some(body))),
        }
    }
}

fn is_complete(stored: &Stored) -> bool
    ensures { result ≡ IsComplete stored.now }
{
    match &stored.attached {
        Some(bytes) => bytes.bytes() == COMPLETE.as_slice(),
        None => false,
    }
}

impl RefreshTurn {
    /// By what the store gave for the finals of this view, which is the next one. The chain goes on by it, or stays as
    /// it was.
    pub fn of_finals<C: Checker>(
        alloc: Global,
        chain: &mut ViewChain,
        checker: &C,
        next: NextView,
        got: Got,
    ) -> Result<RefreshTurn, NoMemory>
        requires { next.number ≡ length chain.old.configs }
        ensures { TurnsAtFinals (C.accepts checker.now) chain.old next.body.bytes next.block next.config (AtStore (Get (keys.Finals next.number)) (WasGot got)) chain.new result }
    {
        let number = next.number;
        match got {
            Got::Some(stored) => RefreshTurn::of_ended(alloc, chain, checker, next, stored),
            Got::None => Ok(RefreshTurn::bad_row(Key::Finals { number }, None)),
            Got::Failed => Ok(RefreshTurn::refuse(Refusal::StoreFault)),
            Got::NoMemory => Err(NoMemory),
        }
    }

    fn of_ended<C: Checker>(
        alloc: Global,
        chain: &mut ViewChain,
        checker: &C,
        next: NextView,
        stored: Stored,
    ) -> Result<RefreshTurn, NoMemory>
        requires { next.number ≡ length chain.old.configs }
        ensures { TurnsAtFinals (C.accepts checker.now) chain.old next.body.bytes next.block next.config (AtStore (Get (keys.Finals next.number)) (WasGot (gots.Some stored))) chain.new result }
    {
        let Stored {
            body: bytes,
            attached: _,
        } = stored;
        let Some(finals) = read_marks(alloc, bytes.bytes())? else {
            let number = next.number;
            return Ok(RefreshTurn::bad_row(Key::Finals { number }, Some(bytes)));
        };
        RefreshTurn::extend(chain, checker, next, bytes, finals)
    }

    // By these finals, which have these bytes.
    fn extend<C: Checker>(
        chain: &mut ViewChain,
        checker: &C,
        next: NextView,
        bytes: Text,
        finals: Vec<FinalMark>,
    ) -> Result<RefreshTurn, NoMemory>
        ensures { Extended (C.accepts checker.now) chain.old next.body.bytes next.block next.config finals.items next.number bytes.bytes chain.new result }
    {
        let NextView {
            number,
            body,
            block,
            config,
        } = next;
        let row = ViewRow {
            block,
            config,
            finals,
        };
        match chain.extend(checker, &row) {
            Ok(()) => Ok(RefreshTurn {
                stage: RefreshStage::View,
                progress: RefreshProgress::More,
            }),
            Err(ViewFault::BadLink | ViewFault::NotGenuine { .. }) => {
                Ok(RefreshTurn::bad_row(Key::View { number }, Some(body)))
            }
            Err(ViewFault::BadMark { .. } | ViewFault::NoQuorum { .. }) => {
                Ok(RefreshTurn::bad_row(Key::Finals { number }, Some(bytes)))
            }
            Err(ViewFault::NoMemory) => Err(NoMemory),
        }
    }
}

// The view whose bytes these are, or none.
fn view_of(alloc: Global, bytes: &[u8]) -> Result<Option<(ViewBlock, Config)>, NoMemory>
    ensures good { IfOk result (λ found. IfSome found (λ view. ReadsAsView bytes.now view)) }
    ensures bad { result ≡ Ok None → (view : ViewBlock × List Member) → ReadsAsView bytes.now view → ⊥ }
{
    match read_view(alloc, bytes) {
        Ok(view) => Ok(Some(view)),
        Err(FormFault::NoMemory) => Err(NoMemory),
        Err(_) => Ok(None),
    }
}
