//! What lies outside of a compilation: directories and sinks, how they fail, and reading and writing over them.
#![tactic(auto)]

mod dir;
mod errors;
mod failures;
mod kept;
mod mem_dir;
mod mem_sink;
mod names;
mod reading;
mod sink;
mod std_dir;
mod std_sink;
#[cfg(test)]
mod tests;
mod writing;

pub use dir::{Dir, Found};
pub use errors::{DirFault, Failed, IoCause, OutOfMemory, ReadFail};
pub use mem_dir::MemDir;
pub use mem_sink::MemSink;
pub use reading::read_text;
pub use sink::Sink;
pub use std_dir::StdDir;
pub use std_sink::StdSink;
pub use writing::write_all;
