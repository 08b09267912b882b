//! The lines of traces and runs, read and written. Only `Page::new` takes memory.
//!
//! The line of a step with its answer, written into a buffer (a caller in `data_rows`):
//!
//! ```
//! let mut out = LineOut::new();
//! write_step(&mut out, &MAKE);
//! write_answer(&mut out, &Answer::Work(u64::MAX));
//! // `out.bytes()` is `1099511627775 15 make 4294967295 63 IN 127 15 = work 18446744073709551615` and a newline
//! ```
#![tactic(auto)]

mod acting;
mod acts;
mod answers;
mod fields;
pub mod laws;
mod line_out;
mod lines;
mod numerals;
mod page;
mod pieces;
mod placing;
mod runs;
mod words;
mod writing;

pub use flat_policy::texts::{Given, LineFault, Power, ProgramLine, RunLine};
pub use line_out::LineOut;
pub use lines::{read_step, read_step_into};
pub use numerals::read_numeral;
pub use page::{Page, STEP_ROOM};
pub use pieces::piece;
pub use runs::{read_program, read_run};
pub use writing::{write_answer, write_bare, write_step};
