//! Why a case isn't held.

use isle_core::OutOfMemory;
use std::alloc::{AllocError, AllocFailed};

/// Why a case isn't held: how it is written, or what its run left.
#[derive(Clone, Copy)]
pub enum Slip {
    Memory,
    Key,
    Name,
    Object,
    Number,
    Block,
    Twice,
    Escape,
    Quote,
    NotText,
    NoWords,
    NoNames,
    NoPart,
    NoOut,
    Unused,
    Status,
    Err,
    Out,
    Files,
    Table,
    NoCases,
    NoTopic,
    Lines,
    Unread,
}

impl Slip {
    /// Tells the reason in words.
    pub fn told(self) -> &'static str {
        match self {
            Slip::Memory => "no memory",
            Slip::Key => "a line with an unknown key",
            Slip::Name => "a name is missing",
            Slip::Object => "neither dir, out nor err",
            Slip::Number => "a number is wrong",
            Slip::Block => "a block behind no key",
            Slip::Twice => "a key twice",
            Slip::Escape => "a backslash with an unknown spelling",
            Slip::Quote => "a quote is open",
            Slip::NotText => "a word or name isn't UTF-8",
            Slip::NoWords => "no words",
            Slip::NoNames => "no names of files",
            Slip::NoPart => "an unknown part",
            Slip::NoOut => "nothing is wanted on out",
            Slip::Unused => "a trait without functions",
            Slip::Status => "another status",
            Slip::Err => "another text on err",
            Slip::Out => "another text on out",
            Slip::Files => "other files",
            Slip::Table => "rows of tables that aren't written as rows are",
            Slip::NoCases => "no cases",
            Slip::NoTopic => "no such topic",
            Slip::Lines => "other lines",
            Slip::Unread => "a file isn't read",
        }
    }
}

impl From<AllocError> for Slip {
    fn from(_: AllocError) -> Self {
        Slip::Memory
    }
}

impl From<OutOfMemory> for Slip {
    fn from(_: OutOfMemory) -> Self {
        Slip::Memory
    }
}

impl<T: Drop> From<AllocFailed<T>> for Slip {
    fn from(_: AllocFailed<T>) -> Self {
        Slip::Memory
    }
}
