ghost use Rattle.std.specs.Prelude.{◌≡◌, ◌≢◌, ◌↔◌, ◌⊎◌, ◌∷◌, [], false, Contains};
ghost use Rattle.std.specs.Io.KnownBytes.{Keeps};
ghost use Rattle.nim_outside.specs.Causes.{Rose};
ghost use Rattle.nimble.specs.Ends.{IsJudged, Says, SaysFirst, SaysFront, SaysPlainly};
ghost use Rattle.nimble.specs.Words.{is_replay};

use crate::replay::run_replay;
use crate::status::Status;
use nim_base::Text;
use nim_outside::{Sink, Source};
use std::alloc::Global;

fn is_replay(words: &[Text]) -> bool
    ensures { result ≡ is_replay words.now }
{
    match words {
        [word] => word.bytes() == b"replay".as_slice(),
        _ => false,
    }
}

/// Does what the words ask for. Where they are no command, it says so on standard error.
pub fn run<H: Eprint, S: Source, K: Sink>(
    rt: &H,
    alloc: Global,
    words: &[Text],
    source: &mut S,
    sink: &mut K,
) -> Status
    ensures usage { (result.0 ≡ 1) ↔ (is_replay words.now ≡ false) }
    ensures not_read { result.0 ≡ 1 → Keeps (S.left source.old) (S.left source.new) }
    ensures not_written { result.0 ≡ 1 → Keeps (K.written sink.old) (K.written sink.new) }

    // with the word `replay` it is `run_replay`
    ensures known { result.0 ≢ 1 → Contains (0 ∷ 2 ∷ 3 ∷ 4 ∷ 5 ∷ 6 ∷ []) result.0 }
    ensures done { result.0 ≡ 0 → Says 0 (S.left source.old) (K.written sink.old) (K.written sink.new)
        × IsJudged (S.left source.old) (S.left source.new) }
    ensures plain { result.0 ≡ 0 → SaysPlainly (S.left source.old) (K.written sink.old) (K.written sink.new) }
    ensures bad_script { result.0 ≡ 2 → Says 2 (S.left source.old) (K.written sink.old) (K.written sink.new)
        × IsJudged (S.left source.old) (S.left source.new) }
    ensures exhibit { result.0 ≡ 3 → Says 3 (S.left source.old) (K.written sink.old) (K.written sink.new)
        × IsJudged (S.left source.old) (S.left source.new) }
    ensures read_fault { result.0 ≡ 4 → Rose (S.fault_count source.old) (S.fault_count source.new)
        × Keeps (K.written sink.old) (K.written sink.new) }
    ensures write_fault { result.0 ≡ 5 → Rose (K.fault_count sink.old) (K.fault_count sink.new)
        × SaysFront (S.left source.old) (K.written sink.old) (K.written sink.new)
        × IsJudged (S.left source.old) (S.left source.new) }
    ensures no_memory { result.0 ≡ 6 → Keeps (K.written sink.old) (K.written sink.new)
        ⊎ (SaysFirst (S.left source.old) (K.written sink.old) (K.written sink.new)
        × IsJudged (S.left source.old) (S.left source.new)) }
{
    if is_replay(words) {
        return run_replay(alloc, source, sink);
    }
    // whoever can't be told of the usage still gets the status
    let _ = rt.eprintln("usage: nimble replay");
    Status::USAGE
}
