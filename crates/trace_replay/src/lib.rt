//! The replay of a trace: bytes in, bytes out.
//!
//! A setup line and the line of a step, replayed into a sink of bytes (a caller in the tests):
//!
//! ```
//! let input = Vec::from_slice(alloc, TWO_LINES.as_bytes())?; // the second one is `0 0 select`
//! let mut source = SureSource::new(input);
//! let mut sink = ByteSink::new(alloc, 200, 200, Vec::new(alloc))?;
//! let status = replay_main(alloc, &[], &mut source, &mut sink);
//! // status is `Done`, and `sink.bytes()` ends with the line `0 0 select = -`
//! ```
//!
//! Moments and times are whole microseconds.
#![tactic(auto)]

pub mod laws;
mod lines;
mod load;
mod replay;
mod status;
mod top;
mod trace;
mod words;

pub use status::ReplayStatus;
pub use top::replay_main;

#[cfg(test)]
mod tests;
