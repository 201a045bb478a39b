ghost use Rattle.std.specs.Prelude.{◌≡◌, ◌≤◌, ℕ, List, length, Err, IfOk};
ghost use Rattle.isle_lexer.specs.Lexer.{lexer_file, lexer_text, IsUntaken};
ghost use Rattle.isle_reading.specs.Nesting.{depth, most_open};
ghost use Rattle.isle_reading.specs.Places.{IsFault, IsFaultAt, place_left};
ghost use Rattle.isle_reading.specs.Views.{left};
ghost use Rattle.isle_lexer.specs.Lexeme.{lexemes};
ghost use Rattle.isle_reading.specs.declared.cursor.Fail.TheVariants.{At};
ghost use Rattle.isle_core.specs.declared.position.Pos.{Pos};
ghost use Rattle.isle_ast.specs.Tree.{Def as PureDef};
ghost use Rattle.isle_ast.specs.Views.{defs};
ghost use Rattle.isle_grammar.specs.Grammar.{FileS};
ghost use Rattle.isle_grammar.specs.Spelling.{IsFile, IsTextFault, Spells, SpellsTokens};
ghost use Rattle.isle_syntax.specs.declared.parser.Mismatch.{Mismatch};
ghost use Rattle.isle_syntax.specs.declared.parser.ParseFail.TheVariants as fail;

use crate::definition::file_of;
use isle_ast::Def;
use isle_core::Pos;
use isle_lexer::Lexer;
use isle_reading::{Expected, Fail, Tokens};
use std::alloc::Global;

/// What was met where a text goes wrong, and what may stand there: the user's help, of which no clause speaks.
#[derive(Clone, Copy, Debug, PartialEq, Eq)]
pub struct Mismatch {
    /// The end of the token that was met, or the place itself if one is missing.
    pub to: Pos,
    pub expected: Expected,
}

/// Why a text gives no definitions.
#[derive(Clone, Copy, Debug, PartialEq, Eq)]
pub enum ParseFail {
    /// Where the text goes wrong: the first token with which no text of the language goes on, or that is the 257th open
    /// parenthesis or `@`, else the text's end; before all else the start of a comment that never ends.
    At(Pos, Mismatch),
    Memory,
}

// The definitions that tokens of the file of that number spell, which a cursor stands in front of. `At` comes exactly
// if they spell none, or nest too deep, and says how many tokens are left where they go wrong.
fn definitions<'t>(
    tokens: &mut Tokens<'t>,
    alloc: Global,
    file: usize,
) -> Result<Vec<Def<'t>>, Fail>
    ensures spelt { IfOk result (λ read.
        FileS file (left tokens.old) (defs read.items) × (depth (left tokens.old) ≤ most_open)) }
    ensures fault { (k : ℕ) → result ≡ Err (At k) → IsFault (IsFile file) (left tokens.old) k }
{
    let most = tokens.len();
    file_of(tokens, alloc, most, file)
}

// The failure at the place where so many tokens are left.
fn fail_at(
    file: usize,
    tokens: &Tokens<'_>,
    end: usize,
    count: usize,
    expected: Expected,
) -> ParseFail
    ensures { (at : Pos) (m : Mismatch) → result ≡ fail.At at m
        → (at.file ≡ file) × (at.offset ≡ place_left (left tokens.now) count end) }
{
    let met = tokens.at_left(count);
    let offset = met.place(end);
    let to = Pos {
        file,
        offset: met.token_end(),
    };
    ParseFail::At(Pos { file, offset }, Mismatch { to, expected })
}

// The definitions that tokens of a text of that length spell. `At` comes exactly if they spell none.
fn of_tokens<'t>(
    alloc: Global,
    file: usize,
    tokens: &Tokens<'t>,
    end: usize,
) -> Result<Vec<Def<'t>>, ParseFail>
    ensures ok { IfOk result (λ read. SpellsTokens file (left tokens.now) (defs read.items)) }
    ensures only { IfOk result (λ read.
        (others : List PureDef) → SpellsTokens file (left tokens.now) others
        → others ≡ defs read.items) }
    ensures fault { (at : Pos) (m : Mismatch) → result ≡ Err (fail.At at m)
        → (at.file ≡ file) × IsFaultAt (IsFile file) (left tokens.now) end at.offset }
    ensures none { (at : Pos) (m : Mismatch) → result ≡ Err (fail.At at m) → (others : List PureDef)
        → SpellsTokens file (left tokens.now) others → ⊥ }
{
    let mut cursor = *tokens;
    match definitions(&mut cursor, alloc, file) {
        Ok(read) => Ok(read),
        Err(Fail::At(count)) => Err(fail_at(file, tokens, end, count, cursor.expected())),
        Err(Fail::Memory) => Err(ParseFail::Memory),
    }
}

/// Returns the definitions that the reader's text spells, in order (`specs/Grammar.antt`). `At` comes exactly if
/// none are spelt, and gives the place where the text goes wrong.
pub fn parse<'t>(alloc: Global, lexer: Lexer<'t>) -> Result<Vec<Def<'t>>, ParseFail>
    requires untaken { IsUntaken lexer }
    ensures ok { IfOk result (λ read.
        Spells (lexer_file lexer.entry) (lexer_text lexer.entry) (defs read.items)) }
    ensures only { IfOk result (λ read.
        (others : List PureDef) → Spells (lexer_file lexer.entry) (lexer_text lexer.entry) others
        → others ≡ defs read.items) }
    ensures fault { (at : Pos) (m : Mismatch) → result ≡ Err (fail.At at m)
        → (at.file ≡ lexer_file lexer.entry)
        × IsFaultAt (IsFile (lexer_file lexer.entry)) (lexemes (lexer_text lexer.entry))
        (length (lexer_text lexer.entry)) at.offset }
    ensures none { (at : Pos) (m : Mismatch) → result ≡ Err (fail.At at m) → (others : List PureDef)
        → Spells (lexer_file lexer.entry) (lexer_text lexer.entry) others → ⊥ }
{
    parse_text(alloc, lexer.file(), lexer.text())
}

// The failure at the comment that never ends.
fn unclosed_at(file: usize, offset: usize) -> ParseFail
    ensures { (at : Pos) (m : Mismatch) → result ≡ fail.At at m
        → (at.file ≡ file) × (at.offset ≡ offset) }
{
    let at = Pos { file, offset };
    let to = Pos {
        file,
        offset: offset.saturating_add(2),
    };
    let expected = Expected::CommentEnd;
    ParseFail::At(at, Mismatch { to, expected })
}

/// Returns the definitions that the text of the file of that number spells; no token is kept. `At` as of `parse`, and
/// before all else where a comment never ends.
pub fn parse_text<'t>(alloc: Global, file: usize, text: &'t str) -> Result<Vec<Def<'t>>, ParseFail>
    ensures ok { IfOk result (λ read. Spells file text.now (defs read.items)) }
    ensures only { IfOk result (λ read.
        (others : List PureDef) → Spells file text.now others → others ≡ defs read.items) }
    ensures fault { (at : Pos) (m : Mismatch) → result ≡ Err (fail.At at m)
        → (at.file ≡ file) × IsTextFault file text.now at.offset }
    ensures none { (at : Pos) (m : Mismatch) → result ≡ Err (fail.At at m) → (others : List PureDef)
        → Spells file text.now others → ⊥ }
{
    match Tokens::new(text) {
        Ok(tokens) => of_tokens(alloc, file, &tokens, text.len()),
        Err(offset) => Err(unclosed_at(file, offset)),
    }
}
