//! The replay itself: the setup line first, and then the lines.

ghost use Rattle.std.specs.Prelude.{◌≡◌, ◌++◌, ◌≤◌, IfErr, IfOk, IsTrue, OnOk, [], false};
ghost use Rattle.std.specs.Io.KnownBytes.{Appends};
ghost use Rattle.flat_policy.specs.Texts.Lines.{newline};
ghost use Rattle.flat_policy.specs.Texts.SetupLines.{setup_text};
ghost use Rattle.trace_replay.specs.Firsts.{IsFirstLine, ReadsSetup, StopsBegin, StopsFirst};
ghost use Rattle.trace_replay.specs.Traces.{IsBegun};
ghost use Rattle.trace_replay.specs.Statuses.{HasReadCause, HasWriteCause, PutsExactly, PutsOnce, ReadsExactly};
ghost use Rattle.trace_replay.specs.UnderWay.{HasEnded};

use crate::lines::answer_lines;
use crate::status::ReplayStatus;
use crate::trace::Trace;
use flat_policy::cluster::Cluster;
use flat_policy::setup::Setup;
use flat_policy::texts::SetupFault;
use ports::{Failed, Fed, LineFeed, Sink, Source, put_all};
use sched_base::limits::SETUP_BYTES;
use setup_json::{SetupError, read_setup, write_setup};
use std::alloc::{AllocError, Global};

/// The most bytes of the setup line, without its newline.
const SETUP_LIMIT: u32 = SETUP_BYTES as u32;

/// The status of a setup line with a fault.
fn bad_setup(what: SetupFault) -> ReplayStatus
    ensures { result ≡ ReplayStatus.BadSetup what }
{
    ReplayStatus::BadSetup { what }
}

/// The setup that a line states.
fn setup_of(alloc: Global, line: &[u8]) -> Result<Setup, ReplayStatus>
    ensures { ReadsSetup line.now result }
{
    match read_setup(alloc, line) {
        Ok(setup) => Ok(setup),
        Err(SetupError::Fault(what)) => Err(ReplayStatus::BadSetup { what }),
        Err(SetupError::Memory) => Err(ReplayStatus::OutOfMemory),
    }
}

/// Takes the setup line. An error is what ends the replay before any line of a step.
fn first_line<S: Source>(
    alloc: Global,
    feed: &mut LineFeed,
    source: &mut S,
) -> Result<Setup, ReplayStatus>
    requires fresh { feed.old ≡ record { line = []; held = []; passed = 0; done = false } }
    ensures ok { IfOk result (λ setup. IsFirstLine setup (S.left source.old) feed.new (S.left source.new)) }
    ensures err { IfErr result (λ status. StopsFirst (S.left source.old) (S.left source.new) status) }
    ensures unlike { IfErr result (λ status. ¬ (status ≡ ReplayStatus.WriteFault)) }
    ensures cause { IfErr result (λ status. HasReadCause (S.faults source.old) (S.faults source.new) status) }
    ensures later { S.faults source.old ≤ S.faults source.new }
    ensures goes { IsTrue S.is_exact → OnOk result (S.faults source.new ≡ S.faults source.old) }
    ensures exact { IsTrue S.is_exact → IfErr result (λ status. ReadsExactly (S.faults source.old) (S.faults source.new) (S.is_failing source.new) status) }
{
    match feed.next(source, SETUP_LIMIT) {
        Fed::Line => setup_of(alloc, feed.line()),
        Fed::Long => Err(bad_setup(SetupFault::Long)),
        Fed::Unfinished => Err(bad_setup(SetupFault::Unfinished)),
        Fed::End => Err(bad_setup(SetupFault::Unfinished)),
        Fed::Fault => Err(ReplayStatus::ReadFault),
        Fed::Over => Err(ReplayStatus::TooLong),
    }
}

/// The canonical line of a setup, with its newline.
fn setup_line(alloc: Global, setup: &Setup) -> Result<Vec<u8>, AllocError>
    ensures { IfOk result (λ line. line.items ≡ setup_text setup.now ++ newline) }
{
    let mut line = write_setup(alloc, setup)?;
    line.push(b'\n')?;
    Ok(line)
}

/// Writes the canonical setup line, and begins the replay behind it. An error is `WriteFault` or
/// `OutOfMemory`; on the latter nothing is written.
fn begin<C: Cluster, K: Sink>(
    alloc: Global,
    setup: Setup,
    sink: &mut K,
) -> Result<Trace<C>, ReplayStatus>
    ensures ok { IfOk result (λ trace. IsBegun setup trace × Appends (K.taken sink.old) (K.taken sink.new) (setup_text setup ++ newline)) }
    ensures err { IfErr result (λ status. StopsBegin setup (K.taken sink.old) (K.taken sink.new) status) }
    ensures cause { IfErr result (λ status. HasWriteCause (K.faults sink.old) (K.faults sink.new) status) }
    ensures later { K.faults sink.old ≤ K.faults sink.new }
    ensures goes { IsTrue K.is_exact → OnOk result (K.faults sink.new ≡ K.faults sink.old) }
    ensures exact { IsTrue K.is_exact → IfErr result (λ status. PutsExactly (K.faults sink.old) (K.faults sink.new) (K.is_failing sink.new) status) }
{
    let line = setup_line(alloc, &setup)?;
    let trace = Trace::new(alloc, setup)?;
    if let Err(Failed) = put_all(sink, &line) {
        trace.end();
        return Err(ReplayStatus::WriteFault);
    }
    Ok(trace)
}

/// Replays a trace over one kind of cluster: reads the setup line and the lines of steps from the
/// source, and writes them to the sink, canonical and with their answers.
pub(crate) fn replay<C: Cluster, S: Source, K: Sink>(
    alloc: Global,
    source: &mut S,
    sink: &mut K,
) -> ReplayStatus
    ensures ended { HasEnded (S.left source.old) (K.taken sink.old) (S.left source.new) (K.taken sink.new) result }
    ensures read_cause { HasReadCause (S.faults source.old) (S.faults source.new) result }
    ensures write_cause { HasWriteCause (K.faults sink.old) (K.faults sink.new) result }
    ensures read_later { S.faults source.old ≤ S.faults source.new }
    ensures write_later { K.faults sink.old ≤ K.faults sink.new }
    ensures read_exact { IsTrue S.is_exact → ReadsExactly (S.faults source.old) (S.faults source.new) (S.is_failing source.new) result }
    ensures write_exact { IsTrue K.is_exact → PutsOnce (K.faults sink.old) (K.faults sink.new) (K.is_failing sink.new) result }
{
    let Ok(mut feed) = LineFeed::new(alloc) else {
        return ReplayStatus::OutOfMemory;
    };
    let setup = match first_line(alloc, &mut feed, source) {
        Ok(setup) => setup,
        Err(status) => return status,
    };
    let mut trace: Trace<C> = match begin(alloc, setup, sink) {
        Ok(trace) => trace,
        Err(status) => return status,
    };
    let status = answer_lines(&mut trace, &mut feed, source, sink);
    trace.end();
    status
}
