use std::marker::Brand;

/// Names one clock. It has no calls: its ghost member is the identity of the clock's word. So a type with
/// this parameter says which clock it is of, also where it comes out of a lock.
pub trait ClockName {
    ghost use Rattle.atomic_table.specs.Seated.{TableId};

    ghost clock: { TableId };
}

impl ClockName for Brand {
    ghost use Rattle.stamp_clock.specs.ClockName.{no_clock};

    ghost clock = { no_clock };
}
