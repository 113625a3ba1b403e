//! What the clock's word knows of a pass, the rule over all passes, and the kinds of step.

use atomic_table::{Join, Play, Split, TableRule};
use std::collections::LinkedList;
use std::marker::{Brand, PhantomData};

/// What is known of one pass beside the word: the stamps that it drew, how many it has left, and how many
/// are set aside for a pass that is about to be split off. Only contracts speak of it: no value is made.
pub struct Known {
    pub drawn: LinkedList<u64>,
    pub left: u64,
    pub aside: u64,
}

pub struct Rule;

impl TableRule<(), Known, ()> for Rule {
    ghost use Rattle.std.specs.Prelude.{[], ◌^◌};
    ghost use Rattle.stamp_clock.specs.Rule.{Holds, known};

    ghost holds = { λ _ state. Holds state };

    ghost first = { λ _. known [] (2 ^ 63) 0 };
}

pub struct StampStep;

impl Play<(), Known> for StampStep {
    ghost use Rattle.stamp_clock.specs.Steps.{Stamped};

    ghost then = { Stamped };
}

/// Names how many stamps one split sets aside, since a step that only reads the word is told no number.
pub trait ShareName {
    ghost use Rattle.std.specs.Prelude.{ℕ};

    ghost share: { ℕ };
}

impl ShareName for Brand {
    ghost share = { 0 };
}

pub struct SetAsideStep<N: ShareName> {
    share: PhantomData<N>,
}

impl<N: ShareName> Play<(), Known> for SetAsideStep<N> {
    ghost use Rattle.stamp_clock.specs.Steps.{SetAside};

    ghost then = { SetAside N.share };
}

pub struct GiveBackStep;

impl Play<(), Known> for GiveBackStep {
    ghost use Rattle.stamp_clock.specs.Steps.{GaveBack};

    ghost then = { GaveBack };
}

pub struct SplitStep;

impl Split<Known> for SplitStep {
    ghost use Rattle.stamp_clock.specs.Steps.{split_off, without_aside};

    ghost left = { without_aside };

    ghost right = { split_off };
}

pub struct JoinStep;

impl Join<Known> for JoinStep {
    ghost use Rattle.stamp_clock.specs.Steps.{joined, spent};

    ghost both = { joined };

    ghost spent = { spent };
}
