//! Rows of each kind.

mod journals;
mod setup_lines;
mod setups;
mod trace_lines;
