//! Directories that inputs are read from and sinks that texts are written to, in memory and of the machine. Their
//! contracts are told in the README of `isle_outside`.

pub use isle_outside::{
    Dir, DirFault, Failed, Found, IoCause, MemDir, MemSink, OutOfMemory, ReadFail, Sink, StdDir,
    StdSink, read_text, write_all,
};
