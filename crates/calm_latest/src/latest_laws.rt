// What a read of a ledger's newest entry answers over a calm service.
ghost use Rattle.std.specs.Prelude.{◌≡◌, ◌+◌, ℕ, List, Result};
ghost use Rattle.port.specs.Cause.{Cause};
ghost use Rattle.port.specs.Contents.{Contents};
ghost use Rattle.port.specs.Link.{Bank};
ghost use Rattle.port.specs.Reply.{LatestReply};
ghost use Rattle.port.specs.Trace.{Event, AreHonest, AreFaithful};
ghost use Rattle.view_ledger.specs.Views.{ViewChain};
ghost use Rattle.op_latest.specs.LatestAsked.{LatestAsk};
ghost use Rattle.op_latest.specs.LatestSound.{LatestSound};
ghost use Rattle.op_latest.specs.LatestState.{State, Ended};
ghost use Rattle.calm.specs.Calls.{CalmLatest};
ghost use Rattle.calm.specs.Calm.{ServiceState, IsCalm};
ghost use Rattle.calm.specs.StandingViews.{IsFront};

use calm::{
    calls_are_split, calm_members_are_ready, calm_services_read, ledgers_are_lists,
    refreshes_find_all_views, standing_rows_are_given, whole_refreshes_find_all_views,
};
use op_parts::quorums_are_parted;

/// What a read of a ledger's newest entry answers over a calm service, where the store is honest and the link loses nothing.
/// All members sign one tail and count at once, so none is caught up or asked twice.
pub fn calm_services_answer_latest()
    ensures answer { (service : ServiceState) (left : ℕ) (ask : LatestAsk) (from : ViewChain) (state : State) (past : List Event)
        (answer : Result LatestReply Cause) (contents : Contents) (bank : Bank)
        → IsCalm service → service.left ≡ left + 1 → IsFront service.roster service.configs from → LatestSound service.accepts ask from state past → state.stage ≡ Ended answer
        → AreHonest service.contents past contents → AreFaithful service.signs service.bank past bank
        → CalmLatest service ask.handle ask.nonce answer (record { contents = contents; bank = bank; left = left }) }
    // However far it has come, its chain has the first of the views.
    ensures front { (service : ServiceState) (ask : LatestAsk) (from : ViewChain) (state : State) (past : List Event) (contents : Contents)
        → IsCalm service → IsFront service.roster service.configs from → LatestSound service.accepts ask from state past
        → AreHonest service.contents past contents → IsFront service.roster service.configs state.chain }
{
    calls_are_split();
    calm_members_are_ready();
    calm_services_read();
    ledgers_are_lists();
    quorums_are_parted();
    refreshes_find_all_views();
    standing_rows_are_given();
    whole_refreshes_find_all_views();
}
