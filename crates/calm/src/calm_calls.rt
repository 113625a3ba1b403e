// What the members of a calm service do for a whole call.
ghost use Rattle.std.specs.Prelude.{◌≡◌, ◌⊎◌, ℕ, ◌+◌, ◌<◌, List, length};
ghost use Rattle.chain_block.specs.declared.entry.Entry.{Entry};
ghost use Rattle.statement.specs.declared.member.Member.{Member};
ghost use Rattle.statement.specs.declared.statement.Statement.TheVariants as statements;
ghost use Rattle.statement.specs.Receipt.{IsReceipt};
ghost use Rattle.port.specs.Contents.{Contents};
ghost use Rattle.port.specs.Heard.{Heard};
ghost use Rattle.port.specs.Link.{Bank};
ghost use Rattle.port.specs.Trace.{Event, Had, AreHonest, AreFaithful};
ghost use Rattle.view_ledger.specs.Views.{newest_config, newest_tail};
ghost use Rattle.op_parts.specs.RoundSound.{Sound};
ghost use Rattle.op_parts.specs.RoundState.{State};
ghost use Rattle.calm.specs.Ledgers.{tail_of, IsNextEntry};
ghost use Rattle.calm.specs.Members.{IsAt};
ghost use Rattle.calm.specs.Appending.{append_next, receipt_of};
ghost use Rattle.calm.specs.Reading.{WereRead, read_by, HasSaid, DidSay};
ghost use Rattle.calm.specs.Storing.{with_row};
ghost use Rattle.calm.specs.Calm.{ServiceState, IsCalm, with_next};

use crate::calm_laws::{calm_members_are_ready, calm_services_go_on};
use crate::read_laws::reads_are_signed_alike;
use crate::round_laws::rounds_gather_all_marks;

/// A calm service appends the next entry of any ledger that has an entry, or for which there is room: a whole round of its
/// row gives the receipt, and once the row is put and the receipt attached the service is calm again, with that entry.
pub fn calm_services_append()
    ensures { (service : ServiceState) (left : ℕ) (handle : List ℕ) (entry : Entry) (state : State) (past : List Event) (after : Bank)
        → IsCalm service → service.left ≡ left + 1 → IsNextEntry service.ledgers handle entry → (0 < length (service.ledgers handle)) ⊎ (length service.rows < 4096)
        → let ask = append_next service.configs handle (service.ledgers handle) entry in let receipt = receipt_of ask state.marks in
        Sound service.accepts ask state past → state.asked ≡ length ask.members → AreFaithful service.signs service.bank past after → IsReceipt receipt
        → IsCalm (with_next service handle entry (with_row service.contents handle (service.ledgers handle) entry receipt) after left) }
{
    calm_members_are_ready();
    rounds_gather_all_marks();
    calm_services_go_on();
}

/// Each member of a calm service that is asked for the newest entry of a ledger signs its tail and count, and the service is
/// calm afterwards.
pub fn calm_services_read()
    ensures said { (service : ServiceState) (left asked : ℕ) (handle nonce : List ℕ) (events : List Event) (after : Bank)
        → IsCalm service → service.left ≡ left + 1 → WereRead handle nonce (newest_config service.configs) asked events → AreFaithful service.signs service.bank events after
        → (place : ℕ) (member : Member) → place < asked → IsAt (newest_config service.configs) place member
        → DidSay service.accepts handle nonce member (statements.Latest (newest_tail service.configs) handle (tail_of (service.ledgers handle)) (length (service.ledgers handle)) nonce) events }
    // No call to it was answered otherwise.
    ensures only { (service : ServiceState) (left asked : ℕ) (handle nonce : List ℕ) (events : List Event) (after : Bank)
        → IsCalm service → service.left ≡ left + 1 → WereRead handle nonce (newest_config service.configs) asked events → AreFaithful service.signs service.bank events after
        → (place : ℕ) (member : Member) (heard : Heard) → IsAt (newest_config service.configs) place member → Had events (read_by handle nonce member.id heard)
        → HasSaid service.accepts member (statements.Latest (newest_tail service.configs) handle (tail_of (service.ledgers handle)) (length (service.ledgers handle)) nonce) heard }
    ensures same { (service : ServiceState) (asked : ℕ) (handle nonce : List ℕ) (events : List Event) (contents later : Contents)
        → IsCalm service → WereRead handle nonce (newest_config service.configs) asked events → AreHonest contents events later → later ≡ contents }
    ensures calm { (service : ServiceState) (left : ℕ) (handle nonce : List ℕ) (events : List Event) (after : Bank)
        → IsCalm service → service.left ≡ left + 1 → WereRead handle nonce (newest_config service.configs) (length (newest_config service.configs)) events
        → AreFaithful service.signs service.bank events after → IsCalm (record service { bank = after; left = left }) }
{
    calm_members_are_ready();
    reads_are_signed_alike();
    calm_services_go_on();
}
