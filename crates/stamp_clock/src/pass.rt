ghost use Rattle.std.specs.Prelude.{◌≡◌, ◌+◌, ◌^◌, ◌≤◌, [], length};
ghost use Rattle.stamp_clock.specs.Rule.{known};
ghost use Rattle.stamp_clock.specs.Stamps.{Stamps, stamps};

use crate::clock_name::ClockName;
use crate::steps::Known;
use atomic_table::Seat;
use std::marker::{Model, PhantomData};

/// The leave to draw stamps of the clock that `K` names. To a contract it is the stamps that it drew, in
/// order, and how many it has left.
#[derive(Drop)]
pub struct Pass<K: ClockName> {
    pub(crate) seat: Seat<(), Known>,
    pub(crate) drawn: u64,
    pub(crate) left: u64,
    pub(crate) name: PhantomData<K>,
}

impl<K: ClockName> Model for Pass<K> {
    ghost Value = { Stamps };

    ghost view = { λ pass. stamps pass.seat.me.0.drawn pass.left };

    ghost invariant = { λ pass. (pass.seat.table_id ≡ K.clock)
        × (pass.seat.me ≡ (known pass.seat.me.0.drawn pass.left 0, []))
        × (length pass.seat.me.0.drawn ≡ pass.drawn)
        × (pass.drawn + pass.left ≤ 2 ^ 63) };
}

impl<K: ClockName> Pass<K> {
    /// How many stamps may still be drawn with this pass.
    pub fn left(&self) -> u64
        ensures left { result ≡ self.now.left }
        ensures bound { length self.now.drawn + self.now.left ≤ 2 ^ 63 }
    {
        self.left
    }
}
