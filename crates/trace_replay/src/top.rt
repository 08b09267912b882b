//! The call that a program makes.

ghost use Rattle.std.specs.Prelude.{◌≡◌, ◌≤◌, ◌⊎◌, IfSome, IsTrue, None, Some, [], map, ℕ};
ghost use Rattle.std.specs.String.{string_bytes};
ghost use Rattle.trace_replay.specs.LoadAnswers.{MakesLoad};
ghost use Rattle.trace_replay.specs.Replaying.{IsOfWhole};
ghost use Rattle.trace_replay.specs.Statuses.{HasReadCause, HasWriteCause, PutsOnce, ReadsExactly};
ghost use Rattle.trace_replay.specs.UnderWay.{HasEnded};
ghost use Rattle.trace_replay.specs.Words.{asked_by};
ghost use Rattle.trace_replay.specs.declared.words.Asked.TheVariants.{Load, Replay};

use crate::load::load;
use crate::replay::replay;
use crate::status::ReplayStatus;
use crate::words::{Asked, asked_for};
use cluster_queue::ClusterQueue;
use ports::{Sink, Source};
use std::alloc::Global;

/// Replays a trace, or makes the load, as the words after the program's name ask for.
///
/// With no words it reads the setup line and the lines of steps from the source, and writes them to
/// the sink: the setup in its canonical text, and each step with its effective moment and its
/// answer. It holds one line of input at a time, and puts what it wrote before it asks the source
/// for more. Whatever ends the call, the lines before are written, and the line at fault is not.
///
/// With `--load SEED --steps N` (SEED 0 to 4,294,967,295, N 1 to 200,000) it reads nothing, makes
/// the load of that seed, and writes its summary.
///
/// It waits for nobody but the source and the sink, and never asks a device again that failed.
pub fn replay_main<S: Source, K: Sink>(
    alloc: Global,
    words: &[String],
    source: &mut S,
    sink: &mut K,
) -> ReplayStatus
    // Usage comes exactly where the words ask for nothing, unless memory ran out. Then nothing is taken or put.
    ensures usage { result ≡ ReplayStatus.Usage → asked_by (map string_bytes words.now) ≡ None }
    ensures refuses { asked_by (map string_bytes words.now) ≡ None → (result ≡ ReplayStatus.Usage) ⊎ (result ≡ ReplayStatus.OutOfMemory) }
    ensures idle { asked_by (map string_bytes words.now) ≡ None → (source.new ≡ source.old) × (sink.new ≡ sink.old) }
    ensures no_words { asked_by [] ≡ Some Replay }

    // A replay: what was taken, written and answered is right by the policy, also where a device fails.
    ensures replays { asked_by (map string_bytes words.now) ≡ Some Replay → HasEnded (S.left source.old) (K.taken sink.old) (S.left source.new) (K.taken sink.new) result }
    // From bytes to bytes: over a source that tells its bytes, status and output are those of these bytes.
    ensures whole { asked_by (map string_bytes words.now) ≡ Some Replay → IfSome (S.left source.old) (λ bytes. IsOfWhole bytes (K.taken sink.old) (K.taken sink.new) result) }

    // The load: nothing is read.
    ensures load { (seed steps : ℕ) → asked_by (map string_bytes words.now) ≡ Some (Load seed steps) → (source.new ≡ source.old) × MakesLoad seed steps (K.taken sink.old) (K.taken sink.new) result }

    // A fault comes only where the count of its device rose. Where the devices count exactly, one call failed and none followed it.
    ensures read_cause { HasReadCause (S.faults source.old) (S.faults source.new) result }
    ensures write_cause { HasWriteCause (K.faults sink.old) (K.faults sink.new) result }
    ensures read_later { S.faults source.old ≤ S.faults source.new }
    ensures write_later { K.faults sink.old ≤ K.faults sink.new }
    ensures read_exact { IsTrue S.is_exact → ReadsExactly (S.faults source.old) (S.faults source.new) (S.is_failing source.new) result }
    ensures write_exact { IsTrue K.is_exact → PutsOnce (K.faults sink.old) (K.faults sink.new) (K.is_failing sink.new) result }
{
    match asked_for(alloc, words) {
        Ok(Asked::Replay) => replay::<ClusterQueue, S, K>(alloc, source, sink),
        Ok(Asked::Load { seed, steps }) => load::<ClusterQueue, K>(alloc, seed, steps, sink),
        Err(status) => status,
    }
}
