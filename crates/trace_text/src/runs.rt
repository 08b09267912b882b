//! Lines of a run, read.

ghost use Rattle.std.specs.Prelude.{◌≡◌, ◌≤◌, ◌-◌, IfOk, drop, replicate, take};
ghost use Rattle.flat_policy.specs.Texts.Lines.{
  power_at,
  program_at,
  read_run_line,
  read_run_pieces,
  span_within,
  spans_at,
};
ghost use Rattle.flat_policy.specs.Texts.Pieces.{next_piece, pieces, word_among};
ghost use Rattle.trace_text.specs.Naming.{run_behind, run_names};
ghost use Rattle.trace_text.specs.Reading.{Gives, left};
ghost use Rattle.trace_text.specs.Runs.{
  HasItsSpans,
  HasItsSpansIn,
  ProgramFits,
  SaysFits,
  power_of,
  program_of,
  read_program_line,
  read_thread_pieces,
  run_says,
};

use crate::fields::{base_at, bound_at, bucket_at, cluster_at, group_at, number_at, wide_at};
use crate::pieces::{Pieces, at_end, is_done, next, pieces_of};
use crate::words::{RunWord, run_word};
use flat_policy::texts::{LineFault, Power, ProgramLine, RunLine};
use sched_base::limits::{LINE_BYTES, MOST_SPAN, MOST_SPANS, MOST_TURNS};

/// How many pairs of a sleep and a run may follow the first run.
const PAIRS: usize = (MOST_SPANS - 1) / 2;

/// The spans of a program: the first so many of the list, and 0 in the others.
#[derive(Clone, Copy)]
struct Spans {
    list: [u32; MOST_SPANS],
    count: u8,
}

/// A span: units of work or microseconds, 1 to 10,000,000.
fn span_at(pieces: Pieces<'_>) -> Result<(u32, Pieces<'_>), LineFault>
    ensures { Gives (λ x. (x.0, left x.1)) result (next_piece span_within (left pieces.entry)) }
{
    let (number, rest) = number_at(pieces, u64::from(MOST_SPAN))?;
    if number == 0 {
        return Err(LineFault::Range);
    }
    Ok((number as u32, rest))
}

/// The spans of a program, to the end of the line: a run, and up to seven pairs of a sleep and a
/// run.
fn spans_at(pieces: Pieces<'_>) -> Result<Spans, LineFault>
    ensures exact { Gives (λ s. take s.count s.list) result (spans_at (left pieces.entry)) }
    ensures few { IfOk result (λ s. s.count ≤ MOST_SPANS) }
    ensures unused { IfOk result (λ s. drop s.count s.list ≡ replicate (MOST_SPANS - s.count) 0) }
{
    let (first, mut rest) = span_at(pieces)?;
    let mut list = [0; MOST_SPANS];
    list[0] = first;
    let mut count: usize = 1;
    for _ in 0..PAIRS {
        if is_done(rest) {
            break;
        }
        let (sleep, after) = span_at(rest)?;
        let (run, after) = span_at(after)?;
        list[count] = sleep;
        list[count + 1] = run;
        count += 2;
        rest = after;
    }
    let count = count as u8;
    at_end(Spans { list, count }, rest)
}

/// A thread line, after its word.
fn program_at(pieces: Pieces<'_>) -> Result<ProgramLine, LineFault>
    ensures exact { Gives program_of result (program_at (left pieces.entry)) }
    ensures spans { IfOk result HasItsSpans }
{
    let (name, rest) = wide_at(pieces)?;
    let (group, rest) = group_at(rest)?;
    let (bucket, rest) = bucket_at(rest)?;
    let (base, rest) = base_at(rest)?;
    let (bound, rest) = bound_at(rest)?;
    let spans = spans_at(rest)?;
    let list = spans.list;
    Ok(ProgramLine {
        name,
        group,
        bucket,
        base,
        bound,
        spans: list,
        count: spans.count,
    })
}

/// An off or on line, after its word.
fn power_at(on: bool, pieces: Pieces<'_>) -> Result<Power, LineFault>
    ensures { Gives power_of result (power_at on (left pieces.entry)) }
{
    let (cluster, rest) = cluster_at(pieces)?;
    let (turn, rest) = number_at(rest, u64::from(MOST_TURNS - 1))?;
    let power = Power {
        cluster,
        on,
        turn: turn as u16,
    };
    at_end(power, rest)
}

fn run_word_at(pieces: Pieces<'_>) -> Result<(RunWord, Pieces<'_>), LineFault>
    ensures { Gives (λ x. (x.0, left x.1)) result (next_piece (word_among run_names) (left pieces.entry)) }
{
    let (piece, rest) = next(pieces)?;
    match run_word(piece) {
        Some(word) => Ok((word, rest)),
        None => Err(LineFault::Word),
    }
}

/// What stands behind the word of a line of a run.
fn run_behind(word: RunWord, pieces: Pieces<'_>) -> Result<RunLine, LineFault>
    ensures exact { Gives run_says result (run_behind word (left pieces.entry)) }
    ensures spans { IfOk result HasItsSpansIn }
{
    match word {
        RunWord::Thread => Ok(RunLine::Thread(program_at(pieces)?)),
        RunWord::Off => Ok(RunLine::Power(power_at(false, pieces)?)),
        RunWord::On => Ok(RunLine::Power(power_at(true, pieces)?)),
    }
}

#[tactic(auto, using(crate::proofs::Naming::run_by_name))]
fn run_at(pieces: Pieces<'_>) -> Result<RunLine, LineFault>
    ensures exact { Gives run_says result (read_run_pieces (left pieces.entry)) }
    ensures spans { IfOk result HasItsSpansIn }
{
    let (word, rest) = run_word_at(pieces)?;
    run_behind(word, rest)
}

fn thread_at(pieces: Pieces<'_>) -> Result<ProgramLine, LineFault>
    ensures exact { Gives program_of result (read_thread_pieces (left pieces.entry)) }
    ensures spans { IfOk result HasItsSpans }
{
    let (word, rest) = next(pieces)?;
    match word {
        b"thread" => program_at(rest),
        _ => Err(LineFault::Word),
    }
}

/// A thread line of a run, without its newline: a program.
///
/// Errors: `Long` for more than 256 bytes, and else the first fault from the left, as
/// [`read_step`](crate::read_step) names it. An even number of spans is a piece too few. Never
/// `Unfinished`.
#[tactic(auto, using(crate::proofs::RunLines::thread_fits))]
pub fn read_program(line: &[u8]) -> Result<ProgramLine, LineFault>
    // What is read is the definition's program, with the first `count` spans.
    ensures exact { Gives program_of result (read_program_line line.now) }
    ensures fits { IfOk result (λ p. ProgramFits (program_of p)) }
    ensures spans { IfOk result HasItsSpans }
{
    if line.len() > LINE_BYTES {
        return Err(LineFault::Long);
    }
    thread_at(pieces_of(line))
}

/// A line of a run, without its newline: a thread line, or an off or on line.
///
/// Errors: as of [`read_program`].
#[tactic(auto, using(crate::proofs::RunLines::run_fits))]
pub fn read_run(line: &[u8]) -> Result<RunLine, LineFault>
    ensures exact { Gives run_says result (read_run_line line.now) }
    ensures fits { IfOk result (λ r. SaysFits (run_says r)) }
    ensures spans { IfOk result HasItsSpansIn }
{
    if line.len() > LINE_BYTES {
        return Err(LineFault::Long);
    }
    run_at(pieces_of(line))
}
