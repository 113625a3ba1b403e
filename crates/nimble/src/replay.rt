ghost use Rattle.std.specs.Prelude.{◌≡◌, ◌⊎◌, ◌∷◌, [], Contains, Err, Ok, IfOk};
ghost use Rattle.std.specs.Io.KnownBytes.{Keeps};
ghost use Rattle.nim_outside.specs.Causes.{Rose};
ghost use Rattle.least_collision.specs.Collision.{IsLeastCollision};
ghost use Rattle.fault_script.specs.Script.{script_of};
ghost use Rattle.fault_script.specs.declared.script_fault.ScriptFault.TheVariants.{BadLine as Bad};
ghost use Rattle.world_run.specs.Seals.{mac_texts};
ghost use Rattle.world_run.specs.SetUp.{set_up_texts};
ghost use Rattle.nimble.specs.Ends.{Ends, IsJudged, RestsOnNoCollision, Says, SaysFirst, SaysFront, SaysPlainly};

use crate::input::{InputFault, read_input};
use crate::lines::{bad_line, exhibit_line};
use crate::status::Status;
use fault_script::{BadCause, Script, ScriptFault, read};
use least_collision::{Collision, least_collision};
use nim_base::{NoMemory, Text};
use nim_outside::{Fault, Sink, Source};
use std::alloc::Global;
use world_run::{MacSeals, WorldFault, set_up_texts};

/// Writes the line of a text's first bad line.
fn say_bad_line<K: Sink>(alloc: Global, number: u64, cause: BadCause, sink: &mut K) -> Status
    ensures { Ends result.0 (Err (Bad number cause)) (K.written sink.old) (K.written sink.new)
        (K.fault_count sink.old) (K.fault_count sink.new) }
{
    let Ok(line) = bad_line(alloc, number, cause) else {
        return Status::NO_MEMORY;
    };
    match sink.put(line.bytes()) {
        Ok(()) => Status::BAD_SCRIPT,
        Err(Fault) => Status::WRITE_FAULT,
    }
}

/// Writes the line of a script's least collision.
fn say_collision<K: Sink>(
    alloc: Global,
    script: &Script,
    collision: &Collision<'_>,
    sink: &mut K,
) -> Status
    requires { IsLeastCollision (set_up_texts mac_texts script.now) collision.now.one.now collision.now.other.now }
    ensures { Ends result.0 (Ok script.now) (K.written sink.old) (K.written sink.new)
        (K.fault_count sink.old) (K.fault_count sink.new) }
{
    let Ok(line) = exhibit_line(alloc, collision.one, collision.other) else {
        return Status::NO_MEMORY;
    };
    match sink.put(line.bytes()) {
        Ok(()) => Status::EXHIBIT,
        Err(Fault) => Status::WRITE_FAULT,
    }
}

/// Runs a script whose texts don't collide.
fn play<K: Sink>(alloc: Global, script: &Script, sink: &mut K) -> Status
    requires { RestsOnNoCollision script.now }
    ensures { Ends result.0 (Ok script.now) (K.written sink.old) (K.written sink.new)
        (K.fault_count sink.old) (K.fault_count sink.new) }
{
    match world_run::replay(alloc, script, sink) {
        Ok(_) => Status::DONE,
        Err(WorldFault::Sink) => Status::WRITE_FAULT,
        Err(WorldFault::NoMemory) => Status::NO_MEMORY,
    }
}

/// Writes what is said to a script.
fn say_script<K: Sink>(alloc: Global, script: &Script, sink: &mut K) -> Status
    ensures { Ends result.0 (Ok script.now) (K.written sink.old) (K.written sink.new)
        (K.fault_count sink.old) (K.fault_count sink.new) }
{
    let Ok(texts) = set_up_texts(alloc, &MacSeals, script) else {
        return Status::NO_MEMORY;
    };
    match least_collision(alloc, &texts) {
        Ok(None) => play(alloc, script, sink),
        Ok(Some(collision)) => say_collision(alloc, script, &collision, sink),
        Err(NoMemory) => Status::NO_MEMORY,
    }
}

/// Writes what is said to an input.
fn say<K: Sink>(alloc: Global, text: &[u8], sink: &mut K) -> Status
    ensures { Ends result.0 (script_of text.now) (K.written sink.old) (K.written sink.new)
        (K.fault_count sink.old) (K.fault_count sink.new) }
{
    match read(alloc, text) {
        Ok(script) => say_script(alloc, &script, sink),
        Err(ScriptFault::BadLine { number, cause }) => say_bad_line(alloc, number, cause, sink),
        Err(ScriptFault::NoMemory) => Status::NO_MEMORY,
    }
}

/// Runs the script that the source gives, and writes its reply lines, each as soon as it is known. Where two of the texts that
/// it rests on have one digest, their line is the whole output; for an input that is no script it is the line
/// `badline NUMBER CAUSE`.
pub fn run_replay<S: Source, K: Sink>(alloc: Global, source: &mut S, sink: &mut K) -> Status
    ensures known { Contains (0 ∷ 2 ∷ 3 ∷ 4 ∷ 5 ∷ 6 ∷ []) result.0 }
    ensures done { result.0 ≡ 0 → Says 0 (S.left source.old) (K.written sink.old) (K.written sink.new)
        × IsJudged (S.left source.old) (S.left source.new) }
    ensures plain { result.0 ≡ 0 → SaysPlainly (S.left source.old) (K.written sink.old) (K.written sink.new) }
    ensures bad_script { result.0 ≡ 2 → Says 2 (S.left source.old) (K.written sink.old) (K.written sink.new)
        × IsJudged (S.left source.old) (S.left source.new) }
    ensures exhibit { result.0 ≡ 3 → Says 3 (S.left source.old) (K.written sink.old) (K.written sink.new)
        × IsJudged (S.left source.old) (S.left source.new) }
    ensures read_fault { result.0 ≡ 4 → Rose (S.fault_count source.old) (S.fault_count source.new)
        × Keeps (K.written sink.old) (K.written sink.new) }
    ensures write_fault { result.0 ≡ 5 → Rose (K.fault_count sink.old) (K.fault_count sink.new)
        × SaysFront (S.left source.old) (K.written sink.old) (K.written sink.new)
        × IsJudged (S.left source.old) (S.left source.new) }
    ensures no_memory { result.0 ≡ 6 → Keeps (K.written sink.old) (K.written sink.new)
        ⊎ (SaysFirst (S.left source.old) (K.written sink.old) (K.written sink.new)
        × IsJudged (S.left source.old) (S.left source.new)) }
{
    match read_input(alloc, source) {
        Ok(text) => say(alloc, text.bytes(), sink),
        Err(InputFault::Source) => Status::READ_FAULT,
        Err(InputFault::NoMemory) => Status::NO_MEMORY,
    }
}
