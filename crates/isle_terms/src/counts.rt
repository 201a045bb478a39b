//! How many declarations, external constructors and extractors stand before a definition.

ghost use Rattle.std.specs.Prelude.{◌≡◌, ◌+◌, ◌<◌, ◌^◌, []};
ghost use Rattle.isle_ast.specs.Views.{def};
ghost use Rattle.isle_terms.specs.Misfits.{counts_after, AreCounted};

use isle_ast::Def;

/// These counts.
#[derive(Clone, Copy)]
pub struct Counts {
    pub signatures: usize,
    pub externs: usize,
    pub extractors: usize,
}

impl Counts {
    /// Begins before the first definition.
    pub fn new() -> Counts
        ensures { AreCounted [] result }
    {
        Counts {
            signatures: 0,
            externs: 0,
            extractors: 0,
        }
    }

    /// Returns the counts after one definition more.
    pub fn after(self, given: &Def) -> Counts
        requires { self.signatures + self.externs + self.extractors + 1 < 2 ^ 64 }
        ensures { result ≡ counts_after (def given.now) self }
    {
        match given {
            Def::Decl { .. } => Counts {
                signatures: self.signatures + 1,
                ..self
            },
            Def::ExternConstructor { .. } => Counts {
                externs: self.externs + 1,
                ..self
            },
            Def::ExternExtractor { .. } => Counts {
                extractors: self.extractors + 1,
                ..self
            },
            Def::Extractor { .. } => Counts {
                extractors: self.extractors + 1,
                ..self
            },
            Def::TypeDecl { .. } => self,
            Def::ExternConst { .. } => self,
            Def::Converter { .. } => self,
            Def::Rule { .. } => self,
            Def::Passed { .. } => self,
        }
    }
}
