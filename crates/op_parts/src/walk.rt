ghost use Rattle.std.specs.Prelude.{◌≡◌, ◌↔◌, ◌<◌, ◌≤◌, ◌^◌, [], true, false, None, Ok, IfOk, IfSome, IsErr};
ghost use Rattle.port.specs.declared.key.Key.TheVariants.{Row as RowKey};
ghost use Rattle.port.specs.declared.store_answers.Got.{Got};
ghost use Rattle.port.specs.Store.{StoreStep, Get, WasGot};
ghost use Rattle.port.specs.declared.store_answers.Got.TheVariants as gots;
ghost use Rattle.port.specs.Row.{Content};

use crate::attachment::{Head, accepted_receipt};
use chain_block::MetaBlock;
use nim_base::{Digest, NoMemory};
use port::{Got, Key, Refusal, Row, Store, Stored, rows_have_own_bytes};
use seal::Checker;
use statement::Receipt;
use std::alloc::Global;
use std::marker::Model;
use view_ledger::ViewChain;

/// The most metablocks between a row and the receipt for it.
pub const MAX_BLOCKS: usize = 65_536;

/// How a walk stands after a step. After every answer but `More` it has ended.
#[derive(Debug, Drop)]
pub enum WalkProgress {
    /// A row stands that has no accepted receipt.
    More,
    /// This receipt is for the newest row.
    Stands { receipt: Receipt },
    /// No further row stands.
    Top,
    /// `StoreFault`, `BadRow`, or `TooFar` where more than [`MAX_BLOCKS`] rows stand without a receipt.
    Refused { refusal: Refusal },
}

/// From a row that has no receipt up the rows of its ledger, each of which links to the one below, to the first that has an
/// accepted receipt.
#[derive(Debug, Drop)]
pub struct Walk {
    handle: Digest,
    tail: Digest,
    height: u64,
    blocks: Vec<MetaBlock>,
    live: bool,
}

impl Model for Walk {
    ghost use Rattle.std.specs.Prelude.{◌≡◌, ◌+◌, ◌≤◌, ◌^◌, length, true};
    ghost use Rattle.op_parts.specs.Walk.{Walk};

    ghost Value = { Walk };

    ghost view = { λ walk. record { handle = walk.handle; place = record { tail = walk.tail; height = walk.height; blocks = walk.blocks.items }; live = walk.live } };

    ghost invariant = { λ walk. (walk.height ≤ 2 ^ 32 + length walk.blocks.items) × (length walk.blocks.items ≤ 65536) };
}

impl Walk {
    ghost use Rattle.op_parts.specs.Walk.{IsNextRow, IsNoNextRow, Says, steps_left};

    /// A walk from the row below this height, whose tail this is. Nothing is asked yet, and no memory is taken.
    pub fn new(alloc: Global, handle: &Digest, tail: &Digest, height: u64) -> Walk
        requires { height ≤ 2 ^ 32 }
        ensures { result ≡ record { handle = handle.now; place = record { tail = tail.now; height = height; blocks = [] }; live = true } }
    {
        Walk {
            handle: *handle,
            tail: *tail,
            height,
            blocks: Vec::new(alloc),
            live: true,
        }
    }

    /// Gets the next row, and says how the walk then stands. After the end no call is made, and nothing is left to be said
    /// but `NoMemory`.
    pub fn step<S: Store, C: Checker>(
        &mut self,
        alloc: Global,
        chain: &ViewChain,
        store: &mut S,
        checker: &C,
    ) -> Result<WalkProgress, NoMemory>
        // While it is live it makes one call, of which the answer says how it went.
        ensures call { self.old.live ≡ true → let call = Get (RowKey self.old.handle self.old.place.height) in (got : Got) × StoreStep S.view store.old store.new call (WasGot got)
            × Says (C.accepts checker.now) chain.now.configs self.old.handle self.old.place got self.new.place result }
        ensures ended { self.old.live ≡ false → (store.new ≡ store.old) × (self.new ≡ self.old) × IsErr result }
        ensures same { self.new.handle ≡ self.old.handle }

        // So a loop ends that goes on while there is more to do.
        ensures live { (result ≡ Ok WalkProgress.More) ↔ (self.new.live ≡ true) }
        ensures falls { self.old.live ≡ true → steps_left self.new < steps_left self.old }
    {
        if !self.live {
            return Err(NoMemory);
        }
        self.live = false;
        let key = Key::Row {
            handle: self.handle,
            height: self.height,
        };
        let got = store.get(alloc, &key);
        self.take(alloc, chain, checker, got)
    }

    // By what the store gave for the row of the place.
    fn take<C: Checker>(
        &mut self,
        alloc: Global,
        chain: &ViewChain,
        checker: &C,
        got: Got,
    ) -> Result<WalkProgress, NoMemory>
        requires { self.old.live ≡ false }
        ensures says { Says (C.accepts checker.now) chain.now.configs self.old.handle self.old.place got self.new.place result }
        ensures same { self.new.handle ≡ self.old.handle }
        ensures live { (result ≡ Ok WalkProgress.More) ↔ (self.new.live ≡ true) }
    {
        match got {
            Got::Some(stored) => self.take_stored(alloc, chain, checker, stored),
            Got::None => Ok(WalkProgress::Top),
            Got::Failed => Ok(WalkProgress::Refused {
                refusal: Refusal::StoreFault,
            }),
            Got::NoMemory => Err(NoMemory),
        }
    }

    fn take_stored<C: Checker>(
        &mut self,
        alloc: Global,
        chain: &ViewChain,
        checker: &C,
        stored: Stored,
    ) -> Result<WalkProgress, NoMemory>
        requires { self.old.live ≡ false }
        ensures says { Says (C.accepts checker.now) chain.now.configs self.old.handle self.old.place (gots.Some stored) self.new.place result }
        ensures same { self.new.handle ≡ self.old.handle }
        ensures live { (result ≡ Ok WalkProgress.More) ↔ (self.new.live ≡ true) }
    {
        let Some(block) = self.next_block(alloc, &stored)? else {
            let key = Key::Row {
                handle: self.handle,
                height: self.height,
            };
            let bytes = Some(stored.body);
            return Ok(WalkProgress::Refused {
                refusal: Refusal::BadRow { key, bytes },
            });
        };
        if self.blocks.len() == MAX_BLOCKS {
            return Ok(WalkProgress::Refused {
                refusal: Refusal::TooFar {
                    needed: MAX_BLOCKS as u64 + 1,
                },
            });
        }
        let head = Head {
            handle: self.handle,
            tail: block.tail(),
            count: self.height + 1,
        };
        let receipt = accepted_receipt(alloc, chain, checker, &head, &stored.attached)?;
        self.blocks.push(block)?;
        self.tail = head.tail;
        self.height = head.count;
        match receipt {
            Some(receipt) => Ok(WalkProgress::Stands { receipt }),
            None => {
                self.live = true;
                Ok(WalkProgress::More)
            }
        }
    }

    // The metablock of the row that was given, where it is the next one.
    fn next_block(&self, alloc: Global, stored: &Stored) -> Result<Option<MetaBlock>, NoMemory>
        ensures some { IfOk result (λ found. IfSome found (λ block. (row : Content) × IsNextRow self.now.handle self.now.place stored.now row × (block ≡ row.metablock))) }
        ensures none { result ≡ Ok None → IsNoNextRow self.now.handle self.now.place stored.now.body }
    {
        let Some(row) = Row::read_at(alloc, &self.handle, self.height, stored.body.bytes())? else {
            return Ok(None);
        };
        rows_have_own_bytes();
        let block = row.metablock;
        if block.prev == self.tail {
            return Ok(Some(block));
        }
        Ok(None)
    }

    /// The height above the newest row, which is the ledger's count after it.
    pub fn height(&self) -> u64
        ensures { result ≡ self.now.place.height }
    {
        self.height
    }

    /// The tail of the newest row.
    pub fn tail(&self) -> Digest
        ensures { result ≡ self.now.place.tail }
    {
        self.tail
    }

    /// The metablocks from the first row of the walk to the newest.
    pub fn into_blocks(self) -> Vec<MetaBlock>
        ensures { result.items ≡ self.place.blocks }
    {
        self.blocks
    }
}
