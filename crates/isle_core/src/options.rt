ghost use Rattle.std.specs.Prelude.{◌≡◌, [], false, None};

use isle_base::{List, Text};
use std::alloc::Global;

/// What a file's name may begin with, and what is printed in its place.
#[derive(Debug, Drop)]
pub struct Prefix {
    pub prefix: Text,
    pub name: Text,
}

/// How a program is emitted. No option but the limit of lists of results changes what its functions answer.
#[derive(Debug, Drop)]
pub struct CodegenOptions {
    /// Leave the `#![allow(..)]` lines out.
    pub exclude_global_allow_pragmas: bool,
    /// The first that begins a file's name is replaced where the name is printed.
    pub prefixes: List<Prefix>,
    /// Log the term and the rule before each result.
    pub emit_logging: bool,
    /// Put the bodies of large match arms into closures.
    pub split_match_arms: bool,
    /// The weight above which an arm's body is large; 256 if none is given.
    pub match_arm_split_threshold: Option<usize>,
    /// The length at which the list of a term that answers several times is full.
    pub max_returns: usize,
}

impl CodegenOptions {
    /// Makes options: all false, no prefixes, no threshold, at most 100 results. It takes no memory.
    pub fn new(alloc: Global) -> CodegenOptions
        ensures allow { result.exclude_global_allow_pragmas ≡ false }
        ensures prefixes { result.prefixes ≡ [] }
        ensures logging { result.emit_logging ≡ false }
        ensures split { result.split_match_arms ≡ false }
        ensures threshold { result.match_arm_split_threshold ≡ None }
        ensures limit { result.max_returns ≡ 100 }
    {
        CodegenOptions {
            exclude_global_allow_pragmas: false,
            prefixes: List::new(Vec::new(alloc)),
            emit_logging: false,
            split_match_arms: false,
            match_arm_split_threshold: None,
            max_returns: 100,
        }
    }
}
