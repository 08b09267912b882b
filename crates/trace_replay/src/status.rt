//! How a replay ends.

use flat_policy::texts::{LineFault, SetupFault};
use std::alloc::AllocError;

/// How a replay ended. `Done` alone is success. Each other status displays as the line that a
/// program writes of it to standard error, without the newline.
#[derive(Clone, Copy, Debug, Drop, PartialEq, Eq, thiserror::Error)]
pub enum ReplayStatus {
    /// The input was read to its end and is answered, or the load was made.
    #[error("done")]
    Done,
    /// The words aren't those that the command takes.
    #[error("usage: clutch_replay [--load SEED --steps N]")]
    Usage,
    /// The setup line, which is line 1, has this fault first.
    #[error("bad setup: {what}")]
    BadSetup { what: SetupFault },
    /// This line, counted from 1, is the first that is outside the grammar or that the setup
    /// doesn't fit.
    #[error("bad line {line}: {what}")]
    BadLine { line: u64, what: LineFault },
    /// This line, counted from 1, is the first whose given answer isn't the machine's.
    #[error("answer differs on line {line}")]
    Differs { line: u64 },
    /// The input has more than 67,108,864 bytes.
    #[error("input too long")]
    TooLong,
    /// The source failed.
    #[error("read fault")]
    ReadFault,
    /// The sink failed.
    #[error("write fault")]
    WriteFault,
    /// Memory ran out.
    #[error("out of memory")]
    OutOfMemory,
}

impl From<AllocError> for ReplayStatus {
    ghost use Rattle.std.specs.Prelude.{◌≡◌};
    ghost use Rattle.trace_replay.specs.declared.status.ReplayStatus.TheVariants.{OutOfMemory};

    ghost from_gives = { λ _ e. e ≡ OutOfMemory };

    fn from(_error: AllocError) -> ReplayStatus {
        ReplayStatus::OutOfMemory
    }
}
