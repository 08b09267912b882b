//! The setup line: read and written, as JSON.
//!
//! A setup is read, and written in its one canonical form (a caller in `data_rows`):
//!
//! ```
//! let setup = read_setup(rt.alloc(), line.as_bytes())?;
//! let written = write_setup(rt.alloc(), &setup)?;
//! assert_eq!(rt; written.as_slice(), text.as_bytes());
//! ```
#![tactic(auto)]

mod fault;
pub mod laws;
mod numbers;
mod reader;
mod shapes;
mod writer;

pub use fault::SetupError;
pub use flat_policy::texts::SetupFault;
pub use reader::read_setup;
pub use writer::write_setup;
