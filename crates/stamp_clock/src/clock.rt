ghost use Rattle.std.specs.Prelude.{◌≡◌, ◌+◌, ◌-◌, ◌^◌, ◌<◌, ◌≤◌, [], ◌∷◌, ◌++◌, length, IfOk, IsOk};
ghost use Rattle.std.specs.List.{All};
ghost use Rattle.std.specs.List.Sorted.{IsStrictlyIncreasing};
ghost use Rattle.atomic_table.specs.Seated.{TableId};
ghost use Rattle.stamp_clock.specs.Rule.{known};
ghost use Rattle.stamp_clock.specs.Stamps.{EachOnce, NoneTwice, stamps};

use crate::clock_name::ClockName;
use crate::pass::Pass;
use crate::steps::{
    GiveBackStep, JoinStep, Known, Rule, SetAsideStep, ShareName, SplitStep, StampStep,
};
use atomic_table::{Seat, Shared, Table};
use nim_base::NoMemory;
use std::alloc::Global;
use std::marker::{Brand, Model, PhantomData};

pub(crate) type Word = Table<(), Known, (), Rule, Global>;

/// The clock that `K` names. To a contract it is the identity of its word.
#[derive(Drop)]
pub struct Clock<K: ClockName> {
    pub(crate) word: Word,
    pub(crate) name: PhantomData<K>,
}

impl<K: ClockName> Model for Clock<K> {
    ghost Value = { TableId };

    ghost view = { λ clock. clock.word.shared.table_id };

    ghost invariant = { λ clock. (clock.word.shared.table_id ≡ K.clock)
        × (clock.word.shared.table_id.words ≡ 1)
        × (clock.word.shared.table_id.slots ≡ 0) };
}

impl<K: ClockName> Clock<K> {
    /// Draws the next stamp, by one fetch_add of the word. It waits for nothing and takes no memory.
    ///
    /// Whatever other passes of this clock draw meanwhile, none of them gets this number: by the clock's
    /// rule a number stands once in the lists of all passes together ([`crate::passes_share_no_number`]).
    pub fn stamp(&self, pass: &mut Pass<K>) -> u64
        requires left { 0 < pass.old.left }
        ensures drawn { pass.new ≡ stamps (pass.old.drawn ++ result ∷ []) (pass.old.left - 1) }
        ensures above { All (λ earlier. earlier < result) pass.old.drawn }
        ensures rises { IsStrictlyIncreasing pass.old.drawn → IsStrictlyIncreasing pass.new.drawn }
        ensures none_twice { NoneTwice pass.new.drawn }
        ensures bound { result < 2 ^ 63 }
    {
        let number = self
            .word
            .shared
            .fetch_add::<StampStep>(&mut pass.seat, 0, 1);
        pass.drawn += 1;
        pass.left -= 1;
        number
    }

    /// A pass of its own with a share of what the given one has left. It is always `Ok`: the kit's passes
    /// take no memory.
    pub fn split(&self, pass: &mut Pass<K>, share: u64) -> Result<Pass<K>, NoMemory>
        requires share { share ≤ pass.old.left }
        ensures never_refused { IsOk result }
        ensures new { IfOk result (λ new. new ≡ stamps [] share) }
        ensures rest { pass.new ≡ stamps pass.old.drawn (pass.old.left - share) }
    {
        set_aside::<Brand>(&self.word.shared, &mut pass.seat, share);
        let seat = self.word.shared.split_seat::<SplitStep>(&mut pass.seat);
        pass.left -= share;
        Ok(Pass {
            seat,
            drawn: 0,
            left: share,
            name: PhantomData,
        })
    }

    /// Moves what the other pass drew and has left into this one.
    pub fn join(&self, pass: &mut Pass<K>, other: Pass<K>)
        ensures both { pass.new ≡ stamps (pass.old.drawn ++ other.drawn) (pass.old.left + other.left) }
        // so no stamp of the one was one of the other
        ensures apart { NoneTwice pass.new.drawn }
    {
        let Pass {
            seat,
            drawn,
            left,
            name: _,
        } = other;
        self.word.shared.join_seat::<JoinStep>(&mut pass.seat, seat);
        self.word.shared.load::<GiveBackStep>(&mut pass.seat, 0);
        pass.drawn += drawn;
        pass.left += left;
    }

    /// Ends the clock. The answer is how many stamps were drawn with this pass and all that were joined into
    /// it. Where these are all passes of the clock, what they drew and have left is 2^63 together, and the
    /// stamps are the numbers from 0 up to the answer.
    pub fn close(self, pass: Pass<K>) -> u64
        ensures counted { result ≡ length pass.drawn }
        ensures none_twice { NoneTwice pass.drawn }
        ensures whole { length pass.drawn + pass.left ≡ 2 ^ 63 → EachOnce pass.drawn result }
    {
        let Clock { word, name: _ } = self;
        let Pass {
            seat,
            drawn,
            left: _,
            name: _,
        } = pass;
        word.close_with(seat).free();
        drawn
    }
}

/// Sets a share aside, by a read of the word.
fn set_aside<N: ShareName>(
    shared: &Shared<(), Known, (), Rule>,
    seat: &mut Seat<(), Known>,
    share: u64,
)
    requires share { share ≡ N.share }
    requires own { (seat.old.table_id ≡ shared.now.table_id) × (shared.now.table_id.words ≡ 1) }
    requires left { share ≤ seat.old.me.0.left }
    ensures same { (seat.new.table_id ≡ seat.old.table_id) × (seat.new.id ≡ seat.old.id) }
    ensures aside { seat.new.me ≡ (
      known seat.old.me.0.drawn (seat.old.me.0.left - share)
          (seat.old.me.0.aside + share),
      seat.old.me.1,
    ) }
{
    shared.load::<SetAsideStep<N>>(seat, 0);
}
