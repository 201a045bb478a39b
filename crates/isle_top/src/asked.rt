//! A line with what stands around it.

use isle_command_line::Command;
use isle_core::CodegenOptions;
use isle_meta::Tables;

/// What a line asks for, and the tables of instructions that it is asked over.
#[derive(Clone, Copy)]
pub struct Asked<'a> {
    pub command: &'a Command,
    pub tables: &'a Tables,
}

/// The tables that a source is made over, and the options that it is compiled with.
#[derive(Clone, Copy)]
pub struct Over<'a> {
    pub tables: &'a Tables,
    pub options: &'a CodegenOptions,
}
