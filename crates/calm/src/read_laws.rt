// What members that are active with one map say of their newest entry.
ghost use Rattle.std.specs.Prelude.{◌≡◌, ℕ, ◌<◌, List, length};
ghost use Rattle.statement.specs.declared.member.Member.{Member};
ghost use Rattle.port.specs.Contents.{Contents};
ghost use Rattle.port.specs.Heard.{Heard};
ghost use Rattle.port.specs.Link.{Bank};
ghost use Rattle.port.specs.Trace.{Event, Had, AreHonest, AreFaithful};
ghost use Rattle.calm.specs.Members.{IsAt, AreAble, WereAsked};
ghost use Rattle.calm.specs.Reading.{ReadyRead, WereAskedFor, statement_for, read_by, HasSaid, DidSay};

/// Of members that are active with one map, each that was asked for the newest entry of a ledger has signed the tail and
/// count that all have.
pub fn reads_are_signed_alike()
    ensures each { (read : ReadyRead) (asked : ℕ) (events : List Event) (after : Bank) → WereAskedFor read asked events → AreFaithful read.signs read.bank events after
        → (place : ℕ) (member : Member) → place < asked → IsAt read.config place member → DidSay read.accepts read.handle read.nonce member (statement_for read) events }
    // No call to it was answered otherwise.
    ensures only { (read : ReadyRead) (asked : ℕ) (events : List Event) (after : Bank) → WereAskedFor read asked events → AreFaithful read.signs read.bank events after
        → (place : ℕ) (member : Member) (heard : Heard) → IsAt read.config place member → Had events (read_by read.handle read.nonce member.id heard)
        → HasSaid read.accepts member (statement_for read) heard }
    // Those that were asked hold what they held, and all other endorsers and the store are as they were.
    ensures hold { (read : ReadyRead) (asked : ℕ) (events : List Event) (after : Bank) → WereAskedFor read asked events → AreFaithful read.signs read.bank events after
        → WereAsked read.bank read.view read.config read.rows read.left asked after }
    ensures all { (read : ReadyRead) (events : List Event) (after : Bank) → WereAskedFor read (length read.config) events → AreFaithful read.signs read.bank events after
        → AreAble after read.view read.config read.rows read.left }
    ensures same { (read : ReadyRead) (asked : ℕ) (events : List Event) (contents later : Contents) → WereAskedFor read asked events → AreHonest contents events later
        → later ≡ contents }
{}
