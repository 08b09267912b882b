//! Laws of the texts of lines.

ghost use Rattle.trace_text.specs.InLines.{AnswersStandInLines};
ghost use Rattle.trace_text.specs.Laws.{
  AnswersReadAgain,
  FittingStepsHaveTexts,
  LinesAreExact,
  ProgramLinesAreExact,
  RepliesHaveTexts,
  RunLinesAreExact,
  StepsReadAgain,
};

use flat_policy::laws::{aim_may_be_entered, fitting_prefers_among};

/// The text of each step whose numbers are in the ranges of lines is read as that step, without an
/// answer.
pub fn steps_read_again()
    ensures { StepsReadAgain }
{}

/// The text of each such step with an answer, without its newline, is read as that step with that
/// answer.
pub fn answers_read_again()
    ensures { AnswersReadAgain }
{}

/// Each value has one text: a line is read as a value exactly where the value's numbers are in the ranges of lines and the
/// line is its text.
pub fn lines_are_exact()
    ensures { LinesAreExact }
{}

/// A line of a run is read as a value exactly where the value's numbers are in the ranges of lines
/// and the line is its text.
pub fn run_lines_are_exact()
    ensures { RunLinesAreExact }
{}

/// So is a thread line alone.
pub fn program_lines_are_exact()
    ensures { ProgramLinesAreExact }
{}

/// A step that a built setup fits has a text, and so has each step of a history of the machine.
pub fn fitting_steps_have_texts()
    ensures { FittingStepsHaveTexts }
{}

/// The reply to a step that a built setup fits has a text, its step and its answer, in every state that
/// a history of the machine can reach: one that is sound, where no more threads live than may and no
/// more are blocked than live.
pub fn replies_have_texts()
    ensures { RepliesHaveTexts }
{
    aim_may_be_entered();
    fitting_prefers_among();
}

/// The text of each such step with an answer is the first line of whatever bytes go on with it.
pub fn answers_stand_in_lines()
    ensures { AnswersStandInLines }
{}
