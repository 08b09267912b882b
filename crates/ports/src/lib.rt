//! Where bytes come from and where they go: sources, sinks, and the means to test what stands on them.
//!
//! The lines of a source, one at a time (a caller in the tests of `line_feed`):
//!
//! ```
//! let mut source = ByteSource::new(bytes, 5, fails);
//! let mut feed = LineFeed::new(rt.alloc())?;
//! assert_eq!(rt; feed.next(&mut source, 256), answer); // such as `Fed::Line`
//! assert_eq!(rt; feed.line(), line);
//! ```
#![tactic(auto)]

mod buffer;
pub mod byte_sink;
pub mod byte_source;
pub mod count_sink;
pub mod devices;
pub mod gate;
mod handing;
mod judging;
pub mod line_feed;
mod newline_search;
pub mod putting;
mod seeking;
pub mod std_ports;
pub mod sure_source;

pub use byte_sink::ByteSink;
pub use byte_source::ByteSource;
pub use count_sink::CountSink;
pub use devices::{Failed, Sink, Source};
pub use gate::{Gate, NoGate, Point};
pub use line_feed::{Fed, LineFeed};
pub use putting::put_all;
pub use std_ports::{StdSink, StdSource};
pub use sure_source::SureSource;
