//! Whole inputs, worked, as theorems: the definitions of texts compute to these outputs and statuses.

ghost use Rattle.worked_examples.specs.Inputs.{TracesReplayed, TracesStopped, RunsJudged, RunTexts};
ghost use Rattle.worked_examples.specs.Runs.{IdleTurns, LogLeavesHandEmpty};

/// Short traces, and what replay comes to.
pub fn traces_replayed()
    ensures { TracesReplayed }
{}

/// A trace whose reading stops, by each stop.
pub fn traces_stopped()
    ensures { TracesStopped }
{}

/// Inputs of runs, and their statuses.
pub fn runs_judged()
    ensures { RunsJudged }
{}

/// The lines of runs, written.
pub fn run_texts()
    ensures { RunTexts }
{}

/// A turn that finds nothing is idle, and no other.
pub fn idle_turns()
    ensures { IdleTurns }
{}

/// The log of a whole run leaves its hand empty.
pub fn log_leaves_hand_empty()
    ensures { LogLeavesHandEmpty }
{}
