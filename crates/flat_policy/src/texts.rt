//! What a line of text says, and the faults that it may have.

use crate::setup::Field;
use sched_base::limits::MOST_SPANS;
use sched_base::{Answer, Bucket, Step};

/// The first fault of a line of a trace or of a run.
#[derive(Clone, Copy, Debug, Drop, PartialEq, Eq, thiserror::Error)]
pub enum LineFault {
    /// A piece that is none of the words that may stand there, a piece too few or a piece too many.
    #[error("word")]
    Word,
    /// A piece that should be a numeral and is none.
    #[error("number")]
    Number,
    /// A numeral out of its range, or a step that the setup does not fit.
    #[error("range")]
    Range,
    /// More than 256 bytes without a newline.
    #[error("long")]
    Long,
    /// The input ends in the line.
    #[error("unfinished")]
    Unfinished,
}

/// The first fault of the setup line.
#[derive(Clone, Copy, Debug, Drop, PartialEq, Eq, thiserror::Error)]
pub enum SetupFault {
    /// More than 65,536 bytes without a newline.
    #[error("long")]
    Long,
    /// The input ends in the line.
    #[error("unfinished")]
    Unfinished,
    /// It has no reading as JSON.
    #[error("not json")]
    NotJson,
    /// The field hasn't its shape.
    #[error("shape of {0}")]
    Shape(Field),
    /// The field is out of its range.
    #[error("range of {0}")]
    Range(Field),
}

/// A line of a trace: a step, and the answer that is given to it, if one is.
#[derive(Clone, Copy, Debug, PartialEq, Eq)]
pub struct Given {
    pub step: Step,
    pub answer: Option<Answer>,
}

/// A thread line of a run: a program. Its spans are run spans (units of work) and sleep spans
/// (microseconds) in turn; the first `count` are used, and the others are 0.
#[derive(Clone, Copy, Debug)]
pub struct ProgramLine {
    pub name: u32,
    pub group: u8,
    pub bucket: Bucket,
    pub base: u8,
    pub bound: Option<u8>,
    pub spans: [u32; MOST_SPANS],
    pub count: u8,
}

/// An off or on line of a run: the first actor of the cluster does it at the start of its turn of
/// that number.
#[derive(Clone, Copy, Debug, PartialEq, Eq)]
pub struct Power {
    pub cluster: u8,
    pub on: bool,
    pub turn: u16,
}

/// A line of a run.
#[derive(Clone, Copy, Debug)]
pub enum RunLine {
    Thread(ProgramLine),
    Power(Power),
}
