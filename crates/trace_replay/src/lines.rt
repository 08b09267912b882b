//! The lines of a trace, answered one after another.

ghost use Rattle.std.specs.Prelude.{◌≡◌, ◌<◌, ◌≤◌, ◌⊎◌, List, Option, IfErr, IsTrue, OnErr, OnOk, [], false, ℕ};
ghost use Rattle.sched_base.specs.Limits.{input_bytes};
ghost use Rattle.ports.specs.Devices.{HasCause, StopsAtFailure};
ghost use Rattle.ports.specs.Feeds.{Feed};
ghost use Rattle.ports.specs.LineFeed.{IsAtHand};
ghost use Rattle.trace_replay.specs.Statuses.{HasReadCause, HasWriteCause, PutsOnce, ReadsExactly, when_cut};
ghost use Rattle.trace_replay.specs.Traces.{CanAnswer, CanEnd};
ghost use Rattle.trace_replay.specs.UnderWay.{HasEnded, IsStopped, IsUnderWay};
ghost use Rattle.trace_text.specs.Pages.{HasRoom};

use crate::status::ReplayStatus;
use crate::trace::{Trace, place};
use flat_policy::cluster::Cluster;
use flat_policy::texts::{Given, LineFault};
use ports::{Failed, Fed, LineFeed, Sink, Source};
use sched_base::limits::LINE_BYTES;

/// The most bytes of a line, without its newline.
const LINE_LIMIT: u32 = LINE_BYTES as u32;

/// Puts the output that was gathered, unless there is room for more and the next line is at hand:
/// so nothing is taken while output waits.
fn make_ready<C: Cluster, K: Sink>(
    trace: &mut Trace<C>,
    feed: &LineFeed,
    sink: &mut K,
) -> Result<(), Failed>
    requires open { feed.now.done ≡ false }
    ensures ok { OnOk result ((start begun left : Option (List ℕ)) (f : Feed) → IsUnderWay start begun trace.old f left (K.taken sink.old) → IsUnderWay start begun trace.new f left (K.taken sink.new)) }
    ensures room { OnOk result (HasRoom trace.new.page) }
    ensures ready { OnOk result ((trace.new.page ≡ []) ⊎ IsAtHand LINE_LIMIT feed.now) }
    ensures err { OnErr result ((start begun left : Option (List ℕ)) (f : Feed) → IsUnderWay start begun trace.old f left (K.taken sink.old) → HasEnded start begun left (K.taken sink.new) ReplayStatus.WriteFault) }
    ensures keeps { trace.new ≡ record trace.old { page = trace.new.page } }
    ensures cause { HasCause (K.faults sink.old) (K.faults sink.new) result }
    ensures exact { IsTrue K.is_exact → StopsAtFailure (K.faults sink.old) (K.faults sink.new) (K.is_failing sink.new) result }
{
    if trace.has_room() && feed.is_at_hand(LINE_LIMIT) {
        Ok(())
    } else {
        trace.put(sink)
    }
}

/// The status of a line of the next number that has a fault.
fn bad_line<C: Cluster>(trace: &Trace<C>, what: LineFault) -> ReplayStatus
    ensures { result ≡ ReplayStatus.BadLine trace.now.line what }
{
    ReplayStatus::BadLine {
        line: trace.line(),
        what,
    }
}

/// Takes the next line and answers it onto the page. What it says is read into the place that is lent.
///
/// An error is what ends the replay: `Done` at the end of the input, and else a fault.
fn answer_next<C: Cluster, S: Source>(
    trace: &mut Trace<C>,
    feed: &mut LineFeed,
    source: &mut S,
    given: &mut Given,
) -> Result<(), ReplayStatus>
    requires ready { CanAnswer trace.old }
    requires room { HasRoom trace.old.page }
    requires open { feed.old.done ≡ false }
    requires at_hand { (trace.old.page ≡ []) ⊎ IsAtHand LINE_LIMIT feed.old }
    ensures ok { OnOk result ((start begun taken : Option (List ℕ)) → IsUnderWay start begun trace.old feed.old (S.left source.old) taken → IsUnderWay start begun trace.new feed.new (S.left source.new) taken) }
    ensures on { OnOk result ((feed.old.passed < feed.new.passed) × (feed.new.passed ≤ input_bytes)) }
    ensures err { IfErr result (λ status. (start begun taken : Option (List ℕ)) → IsUnderWay start begun trace.old feed.old (S.left source.old) taken → IsStopped start begun trace.new.page (S.left source.new) taken status) }
    ensures machine { CanEnd trace.new }
    ensures unlike { IfErr result (λ status. ¬ (status ≡ ReplayStatus.WriteFault)) }
    ensures waiting { IfErr result (λ status. status ≡ ReplayStatus.ReadFault → trace.new.page ≡ []) }
    ensures cause { IfErr result (λ status. HasReadCause (S.faults source.old) (S.faults source.new) status) }
    ensures later { S.faults source.old ≤ S.faults source.new }
    ensures goes { IsTrue S.is_exact → OnOk result (S.faults source.new ≡ S.faults source.old) }
    ensures exact { IsTrue S.is_exact → IfErr result (λ status. ReadsExactly (S.faults source.old) (S.faults source.new) (S.is_failing source.new) status) }
{
    match feed.next(source, LINE_LIMIT) {
        Fed::Line => trace.answer_line(feed.line(), given),
        Fed::Long => Err(bad_line(trace, LineFault::Long)),
        Fed::Unfinished => Err(bad_line(trace, LineFault::Unfinished)),
        Fed::End => Err(ReplayStatus::Done),
        Fed::Fault => Err(ReplayStatus::ReadFault),
        Fed::Over => Err(ReplayStatus::TooLong),
    }
}

/// The status of a replay that ends with this one, where a put of the lines before it fails.
fn when_cut(status: ReplayStatus) -> ReplayStatus
    ensures { result ≡ when_cut status }
{
    match status {
        ReplayStatus::OutOfMemory => ReplayStatus::OutOfMemory,
        _ => ReplayStatus::WriteFault,
    }
}

/// Puts the lines before the one that ended the replay. Where a put fails, that is the status,
/// unless memory ran out.
fn put_last<C: Cluster, K: Sink>(
    trace: &mut Trace<C>,
    sink: &mut K,
    status: ReplayStatus,
) -> ReplayStatus
    requires unlike { ¬ (status ≡ ReplayStatus.WriteFault) }
    ensures ended { (start begun left : Option (List ℕ)) → IsStopped start begun trace.old.page left (K.taken sink.old) status → HasEnded start begun left (K.taken sink.new) result }
    ensures keeps { trace.new ≡ record trace.old { page = trace.new.page } }
    ensures same { ¬ (result ≡ ReplayStatus.WriteFault) → result ≡ status }
    ensures nothing { trace.old.page ≡ [] → result ≡ status }
    ensures cause { HasWriteCause (K.faults sink.old) (K.faults sink.new) result }
    ensures later { K.faults sink.old ≤ K.faults sink.new }
    ensures exact { IsTrue K.is_exact → PutsOnce (K.faults sink.old) (K.faults sink.new) (K.is_failing sink.new) result }
{
    match trace.put(sink) {
        Ok(()) => status,
        Err(Failed) => when_cut(status),
    }
}

/// Answers lines until one ends the replay, and puts the answers before the source is asked for
/// more.
pub(crate) fn answer_lines<C: Cluster, S: Source, K: Sink>(
    trace: &mut Trace<C>,
    feed: &mut LineFeed,
    source: &mut S,
    sink: &mut K,
) -> ReplayStatus
    requires way { (start : Option (List ℕ)) × (begun : Option (List ℕ)) × IsUnderWay start begun trace.old feed.old (S.left source.old) (K.taken sink.old) }
    ensures ended { (start begun : Option (List ℕ)) → IsUnderWay start begun trace.old feed.old (S.left source.old) (K.taken sink.old) → HasEnded start begun (S.left source.new) (K.taken sink.new) result }
    ensures machine { CanEnd trace.new }
    ensures read_cause { HasReadCause (S.faults source.old) (S.faults source.new) result }
    ensures write_cause { HasWriteCause (K.faults sink.old) (K.faults sink.new) result }
    ensures read_later { S.faults source.old ≤ S.faults source.new }
    ensures write_later { K.faults sink.old ≤ K.faults sink.new }
    ensures read_exact { IsTrue S.is_exact → ReadsExactly (S.faults source.old) (S.faults source.new) (S.is_failing source.new) result }
    ensures write_exact { IsTrue K.is_exact → PutsOnce (K.faults sink.old) (K.faults sink.new) (K.is_failing sink.new) result }
{
    let mut given = place();
    loop {
        if let Err(Failed) = make_ready(trace, feed, sink) {
            return ReplayStatus::WriteFault;
        }
        if let Err(status) = answer_next(trace, feed, source, &mut given) {
            return put_last(trace, sink, status);
        }
    }
}
