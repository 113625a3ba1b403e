ghost use Rattle.std.specs.Prelude.{◌≡◌};
ghost use Rattle.port.specs.Call.{call_of};
ghost use Rattle.port.specs.Heard.{heard_of};
ghost use Rattle.port.specs.Link.{LinkView, LinkStep};

use crate::endorser_call::EndorserCall;
use crate::link_answer::LinkAnswer;
use std::alloc::Global;

/// The way to the endorsers, by their ids. It may lose calls and answers.
///
/// What is known of a link is one value, `view`, and each call's contract is one clause over it, [`LinkStep`], as
/// of a [`Store`](crate::Store).
pub trait Link {
    /// The faults of each id, its calls, and what it tells of its endorsers.
    ghost view: { Self → LinkView };

    /// Asks the endorser of this id.
    fn call(&mut self, alloc: Global, id: u32, call: &EndorserCall) -> LinkAnswer
        ensures { LinkStep view self.old self.new id (call_of call.now) (heard_of result) };

    /// How many calls of this id were lost. It never falls.
    fn faults(&self, id: u32) -> u64
        ensures { result ≡ (view self.now).faults id };

    /// Whether there is an endorser of this id.
    fn has(&self, id: u32) -> bool
        ensures { result ≡ (view self.now).has id };
}
