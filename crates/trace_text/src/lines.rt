//! Lines of a trace, read.

ghost use Rattle.std.specs.Prelude.{◌≡◌, ◌∷◌, IfOk, OnOk};
ghost use Rattle.flat_policy.specs.Texts.Lines.{given_at, read_given, read_step_line};
ghost use Rattle.flat_policy.specs.Texts.Pieces.{pieces};
ghost use Rattle.trace_text.specs.Acting.{ReadsAct, ReadsRest, unless_fault};
ghost use Rattle.trace_text.specs.Reading.{left};
ghost use Rattle.trace_text.specs.Writing.{GivenFits};

use crate::acting::acted;
use crate::answers::answer_at;
use crate::fields::{actor_at, moment_at};
use crate::pieces::{Pieces, at_end, pieces_of, split};
use flat_policy::texts::{Given, LineFault};
use sched_base::limits::LINE_BYTES;
use sched_base::{Act, Step};

/// What a line gives whose step is followed by this word: an answer, after `=`, to its end.
fn answered(step: Step, word: &[u8], pieces: Pieces<'_>) -> Result<Given, LineFault>
    ensures { result ≡ given_at step (word.now ∷ left pieces.entry) }
{
    match word {
        b"=" => {
            let (answer, rest) = answer_at(pieces)?;
            let given = Given {
                step,
                answer: Some(answer),
            };
            at_end(given, rest)
        }
        _ => Err(LineFault::Word),
    }
}

/// Reads the answer that follows a step to the line's end.
#[inline(never)]
fn read_answer(given: &mut Given, text: &[u8]) -> Result<(), LineFault>
    ensures { ReadsRest given.old given.new result (pieces text.now) }
{
    let (word, rest) = split(text);
    *given = answered(given.step, word, rest)?;
    Ok(())
}

/// Reads what a line gives after its step: nothing, or an answer.
#[inline(always)]
pub fn read_rest(given: &mut Given, pieces: Pieces<'_>) -> Result<(), LineFault>
    ensures { ReadsRest given.old given.new result (left pieces.entry) }
{
    match pieces.rest {
        Some(text) => read_answer(given, text),
        None => {
            given.answer = None;
            Ok(())
        }
    }
}

/// Reads what a line gives behind its moment and its actor.
#[inline(always)]
fn read_act(given: &mut Given, pieces: Pieces<'_>) -> Result<(), LineFault>
    ensures { ReadsAct given.old given.new result (left pieces.entry) }
{
    match pieces.rest {
        Some(text) => acted(given, text),
        None => Err(LineFault::Word),
    }
}

#[inline(always)]
#[tactic(auto, using(crate::proofs::Begun::begun))]
fn read_pieces(given: &mut Given, line: &[u8]) -> Result<(), LineFault>
    ensures { unless_fault result given.new ≡ read_given (pieces line.now) }
{
    let (moment, rest) = moment_at(pieces_of(line))?;
    let (actor, rest) = actor_at(rest)?;
    given.step.moment = moment;
    given.step.actor = actor;
    read_act(given, rest)
}

/// Reads a line of a trace, without its newline, into a place, whatever stood there: a step, alone or with an answer.
///
/// Errors: those of `read_step`. What stands in the place then is of no use.
#[inline(never)]
pub fn read_step_into(line: &[u8], given: &mut Given) -> Result<(), LineFault>
    ensures exact { unless_fault result given.new ≡ read_step_line line.now }
    // So what was read may be written.
    ensures fits { OnOk result (GivenFits given.new) }
{
    if line.len() > LINE_BYTES {
        return Err(LineFault::Long);
    }
    read_pieces(given, line)
}

/// A line of a trace, without its newline: a step, alone or with an answer.
///
/// Errors: `Long` for more than 256 bytes, and else the first fault from the left: `Number` for a
/// piece that should be a numeral and is none, `Range` for a numeral out of its range, `Word` for a
/// piece that is none of the words that may stand there, a piece too few or a piece too many. Never
/// `Unfinished`. Whether a setup fits the step is not asked here.
pub fn read_step(line: &[u8]) -> Result<Given, LineFault>
    ensures exact { result ≡ read_step_line line.now }
    // So what was read may be written.
    ensures fits { IfOk result GivenFits }
{
    let step = Step {
        moment: 0,
        actor: 0,
        act: Act::Aim,
    };
    let mut given = Given { step, answer: None };
    read_step_into(line, &mut given)?;
    Ok(given)
}
