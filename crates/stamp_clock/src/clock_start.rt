ghost use Rattle.std.specs.Prelude.{◌≡◌, ◌^◌, []};
ghost use Rattle.atomic_table.specs.Seated.{TableId};
ghost use Rattle.stamp_clock.specs.Rule.{known};
ghost use Rattle.stamp_clock.specs.Stamps.{stamps};

use crate::clock::{Clock, Word};
use crate::clock_name::ClockName;
use crate::pass::Pass;
use crate::steps::Known;
use atomic_table::Seat;
use nim_base::NoMemory;
use std::alloc::Global;
use std::marker::{Model, PhantomData};

/// A clock that hasn't been opened yet. To a contract it is the identity of its word.
#[derive(Drop)]
pub struct ClockStart {
    word: Word,
    seat: Seat<(), Known>,
}

impl Model for ClockStart {
    ghost Value = { TableId };

    ghost view = { λ start. start.word.shared.table_id };

    ghost invariant = { λ start. (start.word.shared.table_id.words ≡ 1)
        × (start.word.shared.table_id.slots ≡ 0)
        × (start.seat.table_id ≡ start.word.shared.table_id)
        × (start.seat.me ≡ (known [] (2 ^ 63) 0, [])) };
}

impl ClockStart {
    /// A clock of its own, at 0.
    pub fn new(alloc: Global) -> Result<ClockStart, NoMemory> {
        let (word, seat) = Word::of_words(alloc, &[0], &())?;
        Ok(ClockStart { word, seat })
    }

    /// The clock and its first pass, which has 2^63 stamps left. The name is that of this start: a function
    /// that is generic in `K` makes this call, and whoever calls that function passes `std::marker::Brand`.
    pub fn open<K: ClockName>(self) -> (Clock<K>, Pass<K>)
        requires names { self ≡ K.clock }
        ensures first { result.1 ≡ stamps [] (2 ^ 63) }
    {
        let ClockStart { word, seat } = self;
        let pass = Pass {
            seat,
            drawn: 0,
            left: 1 << 63,
            name: PhantomData,
        };
        let clock = Clock {
            word,
            name: PhantomData,
        };
        (clock, pass)
    }
}
