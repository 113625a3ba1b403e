// A store that lies and fails as it is told to, a bank of endorsers in a view 0, and operations over both, in turns.
use crate::said::{latest_said, standing_said};
use blob_store::{Lie, LyingStore};
use endorser_cell::{CellBank, Loss};
use fixtures::{activate, cell, config, first, first_call, later, members};
use nim_base::{Digest, Nonce};
use op_entry::{AppendOp, AtOp, LatestOp, NewOp};
use port::{EndorserCall, Key};
use seal::{KeyBook, MacScheme};
use stamp_clock::{Clock, ClockName, Pass};
use std::alloc::Global;
use std::test::Fail;
use view_ledger::ViewChain;

/// What is asked of the one ledger, whose payloads are single letters.
#[derive(Clone, Copy)]
pub(crate) enum Ask {
    New,
    Append(u64, u8),
    Latest,
    At(u32),
}

/// What happens in a world. An operation that was begun is named by its place among those, from 0.
#[derive(Clone, Copy)]
pub(crate) enum Act {
    /// From the first call to the last.
    Run(Ask),
    Begin(Ask),
    Step(usize, u64),
    /// To its end; then it is taken apart.
    Finish(usize),
    /// It goes no further, and gives its chain back.
    Leave(usize),
    /// The next call of this id is lost.
    Lose(u32, Loss),
    /// The next call of the store fails.
    Fail,
    Hide(u64),
    Stale(u64, u64),
    Honest,
    /// An append that an endorser gets directly, on its own tail.
    Raw(u32, u64, u8),
    /// How many entries an endorser has.
    Count(u32),
    /// Whether the row at a height has a receipt.
    Receipt(u64),
}

/// More stamps than an endorser needs here.
const SHARE: u64 = 1_000;

/// More than any operation of these tests takes.
const MOST_STEPS: u64 = 100;

/// An operation over the world's store, link and checker.
#[derive(Drop)]
enum Open {
    New(NewOp),
    Append(AppendOp),
    Latest(LatestOp),
    At(AtOp),
}

impl Open {
    fn step<K: ClockName>(
        &mut self,
        alloc: Global,
        store: &mut LyingStore,
        bank: &mut CellBank<'_, MacScheme, K>,
        book: &KeyBook,
    ) -> bool {
        match self {
            Open::New(op) => op.step(alloc, store, bank, book),
            Open::Append(op) => op.step(alloc, store, bank, book),
            Open::Latest(op) => op.step(alloc, store, bank, book),
            Open::At(op) => op.step(alloc, store, bank, book),
        }
    }

    /// Its answer, or that it is open.
    fn said(&self, alloc: Global) -> Result<String, Fail> {
        let answer = match self {
            Open::New(op) => op.answer(),
            Open::Append(op) => op.answer(),
            Open::At(op) => op.answer(),
            Open::Latest(op) => {
                return match op.answer() {
                    Some(answer) => latest_said(alloc, answer),
                    None => Ok(format!(in alloc; "open")?),
                };
            }
        };
        match answer {
            Some(answer) => standing_said(alloc, answer),
            None => Ok(format!(in alloc; "open")?),
        }
    }

    /// The same of an operation that is over.
    fn parts_said(self, alloc: Global) -> Result<String, Fail> {
        let (_, answer) = match self {
            Open::New(op) => op.into_parts(),
            Open::Append(op) => op.into_parts(),
            Open::At(op) => op.into_parts(),
            Open::Latest(op) => {
                let (_, answer) = op.into_parts();
                return match &answer {
                    Some(Ok(reply)) => latest_said(alloc, Ok(reply)),
                    Some(Err(refusal)) => latest_said(alloc, Err(refusal)),
                    None => Ok(format!(in alloc; "open")?),
                };
            }
        };
        match &answer {
            Some(Ok(standing)) => standing_said(alloc, Ok(standing)),
            Some(Err(refusal)) => standing_said(alloc, Err(refusal)),
            None => Ok(format!(in alloc; "open")?),
        }
    }

    fn into_chain(self) -> ViewChain {
        match self {
            Open::New(op) => op.into_chain(),
            Open::Append(op) => op.into_chain(),
            Open::Latest(op) => op.into_chain(),
            Open::At(op) => op.into_chain(),
        }
    }
}

#[derive(Drop)]
pub(crate) struct World<'c, K: ClockName> {
    store: LyingStore,
    bank: CellBank<'c, MacScheme, K>,
    book: KeyBook,
    chain: ViewChain,
    handle: Digest,
    open: Vec<Option<Open>>,
}

impl<'c, K: ClockName> World<'c, K> {
    /// An empty store, and the members of these ids, active in their view 0.
    pub fn new(
        alloc: Global,
        clock: &'c Clock<K>,
        rest: &mut Pass<K>,
        ids: &[u32],
    ) -> Result<World<'c, K>, Fail> {
        let config = config(alloc, ids)?;
        let chain = ViewChain::start(alloc, &config, &members(alloc, ids)?)?;
        let view = chain.tail(0).unwrap_or(Digest::ZERO);
        let mut cells = Vec::new(alloc);
        for id in ids {
            if SHARE <= rest.left() {
                cells.push(cell(alloc, *id, clock.split(rest, SHARE)?)?)?;
            }
        }
        let mut bank = CellBank::new(alloc, clock, cells);
        for id in ids {
            bank.raw(alloc, *id, &first_call(alloc, ids)?);
            bank.raw(alloc, *id, &activate(view));
        }
        Ok(World {
            store: LyingStore::new(alloc),
            bank,
            book: KeyBook::of_ids(alloc, ids)?,
            chain,
            handle: first(alloc, b'a')?.handle(),
            open: Vec::new(alloc),
        })
    }

    /// What is said of the act, nothing where it has no answer.
    pub fn act(&mut self, alloc: Global, act: Act) -> Result<String, Fail> {
        match act {
            Act::Run(ask) => {
                let op = self.begin(alloc, ask)?;
                let place = self.open.len();
                self.open.push(Some(op))?;
                self.step(alloc, place, MOST_STEPS)
            }
            Act::Begin(ask) => {
                let op = self.begin(alloc, ask)?;
                self.open.push(Some(op))?;
                nothing(alloc)
            }
            Act::Step(place, n) => {
                self.step(alloc, place, n)?;
                nothing(alloc)
            }
            Act::Finish(place) => self.finish(alloc, place),
            Act::Leave(place) => self.leave(alloc, place),
            Act::Lose(id, which) => {
                self.bank.lose(id, which, 1);
                nothing(alloc)
            }
            Act::Raw(id, height, letter) => self.raw(alloc, id, height, letter),
            Act::Count(id) => self.count(alloc, id),
            Act::Receipt(height) => self.receipt(alloc, height),
            other => self.tell_store(alloc, other),
        }
    }

    fn begin(&self, alloc: Global, ask: Ask) -> Result<Open, Fail> {
        let chain = self.chain.copy(alloc)?;
        let open = match ask {
            Ask::New => Open::New(NewOp::new(chain, first(alloc, b'a')?)),
            Ask::Append(height, letter) => Open::Append(AppendOp::new(
                chain,
                later(alloc, self.handle, height, letter)?,
            )),
            Ask::Latest => Open::Latest(LatestOp::new(chain, self.handle, Nonce([9; 16]))),
            Ask::At(height) => Open::At(AtOp::new(chain, self.handle, u64::from(height))),
        };
        Ok(open)
    }

    /// At most so many steps of an operation, and its answer then.
    fn step(&mut self, alloc: Global, place: usize, n: u64) -> Result<String, Fail> {
        let World {
            store,
            bank,
            book,
            open,
            ..
        } = self;
        let Some(Some(op)) = open.get_mut(place) else {
            return nothing(alloc);
        };
        for _ in 0..n {
            if !op.step(alloc, store, bank, book) {
                return op.said(alloc);
            }
        }
        op.said(alloc)
    }

    fn take(&mut self, place: usize) -> Option<Open> {
        self.open.get_mut(place)?.take()
    }

    fn finish(&mut self, alloc: Global, place: usize) -> Result<String, Fail> {
        self.step(alloc, place, MOST_STEPS)?;
        match self.take(place) {
            Some(op) => op.parts_said(alloc),
            None => nothing(alloc),
        }
    }

    fn leave(&mut self, alloc: Global, place: usize) -> Result<String, Fail> {
        match self.take(place) {
            Some(op) => {
                let number = op.into_chain().number();
                Ok(format!(in alloc; "view {number}")?)
            }
            None => nothing(alloc),
        }
    }

    fn raw(&mut self, alloc: Global, id: u32, height: u64, letter: u8) -> Result<String, Fail> {
        let entry = later(alloc, self.handle, height, letter)?.entry_digest();
        let prev = match self.bank.cell(id) {
            Some(cell) => cell.endorser().row(&self.handle).0,
            None => Digest::ZERO,
        };
        let call = EndorserCall::Append {
            handle: self.handle,
            prev,
            entry,
            height,
        };
        self.bank.raw(alloc, id, &call);
        nothing(alloc)
    }

    fn count(&self, alloc: Global, id: u32) -> Result<String, Fail> {
        let count = match self.bank.cell(id) {
            Some(cell) => cell.endorser().row(&self.handle).1,
            None => 0,
        };
        Ok(format!(in alloc; "{count}")?)
    }

    fn key(&self, height: u64) -> Key {
        Key::Row {
            handle: self.handle,
            height,
        }
    }

    fn receipt(&self, alloc: Global, height: u64) -> Result<String, Fail> {
        let word = match self.store.held(&self.key(height)) {
            Some(stored) if stored.attached.is_some() => "receipt",
            Some(_) => "row",
            None => "none",
        };
        Ok(format!(in alloc; "{word}")?)
    }

    fn tell_store(&mut self, alloc: Global, act: Act) -> Result<String, Fail> {
        match act {
            Act::Fail => self.store.fail_next(1),
            Act::Hide(height) => {
                let key = self.key(height);
                self.store.lie(Lie::Hide { key })?;
            }
            Act::Stale(height, other) => {
                let (key, from) = (self.key(height), self.key(other));
                self.store.lie(Lie::Stale { key, from })?;
            }
            _ => self.store.honest(),
        }
        nothing(alloc)
    }
}

fn nothing(alloc: Global) -> Result<String, Fail> {
    Ok(format!(in alloc; "")?)
}
