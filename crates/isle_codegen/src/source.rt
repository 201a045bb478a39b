ghost use Rattle.std.specs.Prelude.{◌≡◌, List as ListOf, length, Err, IfOk, IfErr};
ghost use Rattle.isle_ast.specs.Tree.{Def as PureDef};
ghost use Rattle.isle_ast.specs.Views.{defs};
ghost use Rattle.isle_core.specs.declared.position.Pos.{Pos};
ghost use Rattle.isle_syntax.specs.declared.parser.Mismatch.{Mismatch};
ghost use Rattle.isle_syntax.specs.declared.parser.ParseFail.TheVariants as fail;
ghost use Rattle.isle_codegen.specs.Source.{Source, GoesWrong};
ghost use Rattle.isle_codegen.specs.Emission.{DefsArePlaced};
ghost use Rattle.isle_codegen.specs.Causes.{IsTextRefusal};

use crate::compile_error::CompileError;
use crate::parse_error::parse_error;
use isle_ast::Def;
use isle_core::{Files, Text};
use isle_syntax::{ParseFail, parse_text};
use std::alloc::Global;

/// Parses the files' texts, and returns their definitions, one text after the other. There are as many names as texts.
/// `Errors` comes exactly where a text goes wrong, and reports the place of the first that does (`specs/Errors.antt`);
/// beside it only want of memory.
pub fn parse_files<'t>(alloc: Global, files: &'t Files) -> Result<Vec<Def<'t>>, CompileError>
    requires { length files.now.file_texts ≡ length files.now.file_names }
    ensures ok { IfOk result (λ read. Source 0 files.now.file_texts (defs read.items)) }
    ensures once { IfOk result (λ read.
        (others : ListOf PureDef) → Source 0 files.now.file_texts others
        → others ≡ defs read.items) }
    ensures placed { IfOk result (λ read. DefsArePlaced files.now (defs read.items)) }
    ensures err { IfErr result (λ e. IsTextRefusal e files.now) }
{
    match parse_all(alloc, files.file_texts.as_slice()) {
        Ok(read) => Ok(read),
        Err(ParseFail::At(at, mismatch)) => Err(parse_error(alloc, files, at, mismatch)),
        Err(ParseFail::Memory) => Err(CompileError::Memory),
    }
}

/// Parses the texts, and returns their definitions, one text after the other (`specs/Source.antt`). `At` comes exactly
/// where one goes wrong, and reports the place of the first that does; beside it only want of memory.
pub fn parse_all<'t>(alloc: Global, texts: &'t [Text]) -> Result<Vec<Def<'t>>, ParseFail>
    ensures ok { IfOk result (λ read. Source 0 texts.now (defs read.items)) }
    ensures once { IfOk result (λ read.
        (others : ListOf PureDef) → Source 0 texts.now others → others ≡ defs read.items) }
    ensures fault { (at : Pos) (m : Mismatch) → result ≡ Err (fail.At at m)
        → GoesWrong 0 texts.now at }
{
    let mut all = Vec::new(alloc);
    for (file, text) in texts.iter().enumerate() {
        let mut read = match parse_text(alloc, file, text.as_str()) {
            Ok(read) => read,
            Err(fail) => return Err(fail),
        };
        if all.append(&mut read).is_err() {
            return Err(ParseFail::Memory);
        }
    }
    Ok(all)
}
