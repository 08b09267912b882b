//! Whether a replay answered by an output.

ghost use Rattle.std.specs.Prelude.{◌↔◌, IsTrue};
ghost use Rattle.replay_rows.specs.Rows.{IsAnswered};

use trace_replay::ReplayStatus;

/// Whether a replay ended without a fault, and wrote this output.
pub fn is_answered(status: ReplayStatus, written: &[u8], output: &[u8]) -> bool
    ensures { IsTrue result ↔ IsAnswered status written.now output.now }
{
    match status {
        ReplayStatus::Done => written == output,
        _ => false,
    }
}
