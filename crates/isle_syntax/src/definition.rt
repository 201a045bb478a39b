ghost use Rattle.std.specs.Prelude.{◌≡◌, ◌≤◌, length, map, option_map};
ghost use Rattle.isle_reading.specs.Combinators.{next_word, all};
ghost use Rattle.isle_reading.specs.Views.{left, Reads};
ghost use Rattle.isle_ast.specs.Views.{def, defs, pattern};
ghost use Rattle.isle_grammar.specs.Reading.{read_type, read_declared, read_decl, read_extractor};
ghost use Rattle.isle_grammar.specs.Reading.{read_convert, read_parts, read_rule, read_passed, head_of};
ghost use Rattle.isle_grammar.specs.Reading.{read_head, read_behind, read_def, read_file};
ghost use Rattle.isle_syntax.specs.ReadingViews.{flags_seen, head_seen};

use crate::body::{body, names};
use crate::externs::external;
use crate::flags::{Flags, read_flags, read_marks};
use crate::passed::skip_passed;
use isle_ast::{AstPattern, Def};
use isle_core::{List, Name, Pos};
use isle_expressions::{arguments, decl_name, prio, rule_name, tail, template};
use isle_reading::{Expected, Fail, Tokens};
use std::alloc::Global;

/// What a definition is, by the word that it begins with.
#[derive(Drop)]
enum Head<'t> {
    Type,
    Decl,
    Rule,
    Extern,
    Extractor,
    Convert,
    /// A list that is passed over, with that word.
    Passed(Name<'t>),
}

// What a definition is that begins with the word.
fn head_of<'t>(word: &'t str) -> Option<Head<'t>>
    ensures { option_map head_seen result ≡ head_of word.now }
{
    match word {
        "type" => Some(Head::Type),
        "decl" => Some(Head::Decl),
        "rule" => Some(Head::Rule),
        "extern" => Some(Head::Extern),
        "extractor" => Some(Head::Extractor),
        "convert" => Some(Head::Convert),
        "spec" | "model" | "form" | "instantiate" | "attr" | "state" => {
            Some(Head::Passed(Name::new(word)))
        }
        _ => None,
    }
}

// What a definition is, by the word that is next.
#[tactic(auto, using(isle_reading::proofs::Steps::next))]
fn next_head<'t>(tokens: &Tokens<'t>) -> Option<Head<'t>>
    ensures { option_map head_seen result ≡ next_word head_of (left tokens.now) }
{
    head_of(tokens.word()?)
}

// What a definition is.
#[tactic(auto, using(isle_reading::proofs::Steps::words), unfolding(isle_grammar::specs::Reading::read_head))]
fn read_head<'t>(tokens: &mut Tokens<'t>) -> Result<Head<'t>, Fail>
    ensures { Reads head_seen result read_head (left tokens.old) (left tokens.new) }
{
    match next_head(tokens) {
        Some(head) => {
            tokens.skip();
            Ok(head)
        }
        None => Err(tokens.miss(Expected::Head)),
    }
}

// What stands after `( type`, for the definition at that place.
#[tactic(auto, using(isle_reading::proofs::Steps::chain), unfolding(isle_grammar::specs::Reading::read_type))]
fn type_decl<'t>(
    tokens: &mut Tokens<'t>,
    alloc: Global,
    most: usize,
    pos: Pos,
) -> Result<Def<'t>, Fail>
    ensures { Reads def result (read_type most pos.file pos.offset) (left tokens.old)
        (left tokens.new) }
{
    let name = tokens.name_as(Expected::Type)?;
    let marks = read_marks(tokens)?;
    let body = body(tokens, alloc, most)?;
    tokens.close()?;
    Ok(Def::TypeDecl {
        name,
        is_extern: marks.is_extern,
        is_nodebug: marks.is_nodebug,
        body,
        pos,
    })
}

// What stands after the flags of `( decl`, for the definition at that place.
#[tactic(auto, using(isle_reading::proofs::Steps::chain), unfolding(isle_grammar::specs::Reading::read_declared))]
fn declared<'t>(
    tokens: &mut Tokens<'t>,
    alloc: Global,
    most: usize,
    pos: Pos,
    flags: Flags,
) -> Result<Def<'t>, Fail>
    ensures { Reads def result (read_declared most pos.file pos.offset (flags_seen flags))
        (left tokens.old) (left tokens.new) }
{
    let term = decl_name(tokens)?;
    tokens.open()?;
    let args = names(tokens, alloc, most, Expected::Type)?;
    let ret = tokens.name_as(Expected::Type)?;
    tokens.close()?;
    Ok(Def::Decl {
        term,
        pure: flags.pure,
        multi: flags.multi,
        partial: flags.partial,
        recursive: flags.recursive,
        args: List::new(args),
        ret,
        pos,
    })
}

// What stands after `( decl`, for the definition at that place.
#[tactic(auto, using(isle_reading::proofs::Steps::chain), unfolding(isle_grammar::specs::Reading::read_decl))]
fn decl<'t>(tokens: &mut Tokens<'t>, alloc: Global, most: usize, pos: Pos) -> Result<Def<'t>, Fail>
    ensures { Reads def result (read_decl most pos.file pos.offset) (left tokens.old)
        (left tokens.new) }
{
    let flags = read_flags(tokens)?;
    declared(tokens, alloc, most, pos, flags)
}

// What stands after `( extractor`, for the definition at that place.
#[tactic(auto, using(isle_reading::proofs::Steps::chain), unfolding(isle_grammar::specs::Reading::read_extractor))]
fn extractor<'t>(
    tokens: &mut Tokens<'t>,
    alloc: Global,
    most: usize,
    pos: Pos,
) -> Result<Def<'t>, Fail>
    ensures { Reads def result (read_extractor most pos.file pos.offset) (left tokens.old)
        (left tokens.new) }
{
    tokens.open()?;
    let term = tokens.name_as(Expected::Name)?;
    let params = names(tokens, alloc, most, Expected::Name)?;
    let template = template(tokens, alloc, most)?;
    tokens.close()?;
    Ok(Def::Extractor {
        term,
        params: List::new(params),
        template,
        pos,
    })
}

// What stands after `( convert`, for the definition at that place.
#[tactic(auto, using(isle_reading::proofs::Steps::chain), unfolding(isle_grammar::specs::Reading::read_convert))]
fn convert<'t>(tokens: &mut Tokens<'t>, pos: Pos) -> Result<Def<'t>, Fail>
    ensures { Reads def result (read_convert pos.file pos.offset) (left tokens.old)
        (left tokens.new) }
{
    let from = tokens.name_as(Expected::Type)?;
    let to = tokens.name_as(Expected::Type)?;
    let term = tokens.name_as(Expected::Name)?;
    tokens.close()?;
    Ok(Def::Converter {
        from,
        to,
        term,
        pos,
    })
}

// A rule's head: a term, and the patterns of its arguments.
#[tactic(auto, using(isle_reading::proofs::Steps::chain), unfolding(isle_grammar::specs::Reading::read_parts))]
fn parts<'t>(
    tokens: &mut Tokens<'t>,
    alloc: Global,
    most: usize,
) -> Result<(Name<'t>, Vec<AstPattern<'t>>), Fail>
    ensures { Reads (λ parts. (parts.0, map pattern parts.1.items)) result (read_parts most)
        (left tokens.old) (left tokens.new) }
{
    tokens.open()?;
    let term = tokens.name_as(Expected::Name)?;
    let args = arguments(tokens, alloc, most)?;
    Ok((term, args))
}

// What stands after `( rule`, for the definition at that place.
#[tactic(auto, using(isle_reading::proofs::Steps::chain), unfolding(isle_grammar::specs::Reading::read_rule))]
fn rule<'t>(tokens: &mut Tokens<'t>, alloc: Global, most: usize, pos: Pos) -> Result<Def<'t>, Fail>
    requires { length (left tokens.old) ≤ most }
    ensures { Reads def result (read_rule most pos.file pos.offset) (left tokens.old)
        (left tokens.new) }
{
    let name = rule_name(tokens)?;
    let prio = prio(tokens)?;
    let (term, args) = parts(tokens, alloc, most)?;
    let (iflets, rhs) = tail(tokens, alloc, most)?;
    Ok(Def::Rule {
        name,
        prio,
        term,
        args: List::new(args),
        iflets: List::new(iflets),
        rhs,
        pos,
    })
}

// A list that is passed over, after its first word, at that place.
#[tactic(auto, using(isle_reading::proofs::Steps::chain), unfolding(isle_grammar::specs::Reading::read_passed))]
fn passed<'t>(
    tokens: &mut Tokens<'t>,
    most: usize,
    pos: Pos,
    head: Name<'t>,
) -> Result<Def<'t>, Fail>
    ensures { Reads def result (read_passed most pos.file pos.offset head.entry) (left tokens.old)
        (left tokens.new) }
{
    skip_passed(tokens, most)?;
    Ok(Def::Passed { head, pos })
}

// What stands after the head of the definition at that place.
fn behind<'t>(
    tokens: &mut Tokens<'t>,
    alloc: Global,
    most: usize,
    pos: Pos,
    head: Head<'t>,
) -> Result<Def<'t>, Fail>
    requires { length (left tokens.old) ≤ most }
    ensures { Reads def result (read_behind most pos.file pos.offset (head_seen head.entry))
        (left tokens.old) (left tokens.new) }
{
    match head {
        Head::Type => type_decl(tokens, alloc, most, pos),
        Head::Decl => decl(tokens, alloc, most, pos),
        Head::Rule => rule(tokens, alloc, most, pos),
        Head::Extern => external(tokens, pos),
        Head::Extractor => extractor(tokens, alloc, most, pos),
        Head::Convert => convert(tokens, pos),
        Head::Passed(word) => passed(tokens, most, pos, word),
    }
}

/// Reads a definition of the file of that number, its lists of at most `most` tokens.
#[tactic(auto, using(isle_reading::proofs::Steps::chain), unfolding(isle_grammar::specs::Reading::read_def))]
pub fn definition<'t>(
    tokens: &mut Tokens<'t>,
    alloc: Global,
    most: usize,
    file: usize,
) -> Result<Def<'t>, Fail>
    requires { length (left tokens.old) ≤ most }
    ensures { Reads def result (read_def most file) (left tokens.old) (left tokens.new) }
{
    let offset = tokens.open_as(Expected::Definition)?;
    let head = read_head(tokens)?;
    behind(tokens, alloc, most, Pos { file, offset }, head)
}

/// Reads the definitions of a file of at most `most` tokens, up to its end.
#[tactic(auto, using(isle_reading::proofs::ListSteps::alls))]
pub fn file_of<'t>(
    tokens: &mut Tokens<'t>,
    alloc: Global,
    most: usize,
    file: usize,
) -> Result<Vec<Def<'t>>, Fail>
    requires { length (left tokens.old) ≤ most }
    ensures { Reads (λ read. defs read.items) result (read_file most file) (left tokens.old)
        (left tokens.new) }
{
    let mut definitions = Vec::new(alloc);
    for _ in 0..most {
        if tokens.len() == 0 {
            return Ok(definitions);
        }
        definitions.push(definition(tokens, alloc, most, file)?)?;
    }
    if tokens.len() == 0 {
        return Ok(definitions);
    }
    Err(tokens.miss(Expected::Definition))
}
