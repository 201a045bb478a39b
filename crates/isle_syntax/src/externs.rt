ghost use Rattle.std.specs.Prelude.{◌≡◌, option_map, bytes_eq, codes};
ghost use Rattle.isle_reading.specs.Combinators.{next_word};
ghost use Rattle.isle_reading.specs.Views.{left, Reads};
ghost use Rattle.isle_ast.specs.Views.{def};
ghost use Rattle.isle_grammar.specs.Reading.{extern_head, read_extern_head, read_constructor, read_fallible};
ghost use Rattle.isle_grammar.specs.Reading.{read_infallible, extractor_behind, read_extractor_function};
ghost use Rattle.isle_grammar.specs.Reading.{read_const, extern_behind, read_extern};
ghost use Rattle.isle_syntax.specs.ReadingViews.{extern_head_seen};

use isle_ast::Def;
use isle_core::{Name, Pos};
use isle_expressions::constant;
use isle_reading::{Expected, Fail, Tokens};

/// What an `extern` is, by its second word.
#[derive(Clone, Copy)]
enum ExternHead {
    Constructor,
    Extractor,
    Const,
}

// What an `extern` is whose second word this is.
fn extern_head_of(word: &str) -> Option<ExternHead>
    ensures { option_map extern_head_seen result ≡ extern_head word.now }
{
    match word {
        "constructor" => Some(ExternHead::Constructor),
        "extractor" => Some(ExternHead::Extractor),
        "const" => Some(ExternHead::Const),
        _ => None,
    }
}

// What an `extern` is, by the word that is next.
#[tactic(auto, using(isle_reading::proofs::Steps::next))]
fn next_extern_head(tokens: &Tokens<'_>) -> Option<ExternHead>
    ensures { option_map extern_head_seen result ≡ next_word extern_head (left tokens.now) }
{
    extern_head_of(tokens.word()?)
}

// What an `extern` is.
#[tactic(auto, using(isle_reading::proofs::Steps::words), unfolding(isle_grammar::specs::Reading::read_extern_head))]
fn read_head(tokens: &mut Tokens<'_>) -> Result<ExternHead, Fail>
    ensures { Reads extern_head_seen result read_extern_head (left tokens.old) (left tokens.new) }
{
    match next_extern_head(tokens) {
        Some(head) => {
            tokens.skip();
            Ok(head)
        }
        None => Err(tokens.miss(Expected::Keyword)),
    }
}

// What stands after `( extern constructor`.
#[tactic(auto, using(isle_reading::proofs::Steps::chain), unfolding(isle_grammar::specs::Reading::read_constructor))]
fn constructor<'t>(tokens: &mut Tokens<'t>, pos: Pos) -> Result<Def<'t>, Fail>
    ensures { Reads def result (read_constructor pos.file pos.offset) (left tokens.old)
        (left tokens.new) }
{
    let term = tokens.name_as(Expected::Name)?;
    let func = tokens.name_as(Expected::Name)?;
    tokens.close()?;
    Ok(Def::ExternConstructor { term, func, pos })
}

// The end of an external extractor that may fail.
#[tactic(auto, using(isle_reading::proofs::Steps::chain), unfolding(isle_grammar::specs::Reading::read_fallible))]
fn fallible<'t>(
    tokens: &mut Tokens<'t>,
    pos: Pos,
    term: Name<'t>,
    func: Name<'t>,
) -> Result<Def<'t>, Fail>
    ensures { Reads def result (read_fallible pos.file pos.offset term.entry func.entry) (left tokens.old)
        (left tokens.new) }
{
    tokens.close()?;
    Ok(Def::ExternExtractor {
        term,
        func,
        infallible: false,
        pos,
    })
}

// The end of an external extractor that may not fail, after its term.
#[tactic(auto, using(isle_reading::proofs::Steps::chain), unfolding(isle_grammar::specs::Reading::read_infallible))]
fn infallible<'t>(tokens: &mut Tokens<'t>, pos: Pos, term: Name<'t>) -> Result<Def<'t>, Fail>
    ensures { Reads def result (read_infallible pos.file pos.offset term.entry) (left tokens.old)
        (left tokens.new) }
{
    let func = tokens.name_as(Expected::Name)?;
    tokens.close()?;
    Ok(Def::ExternExtractor {
        term,
        func,
        infallible: true,
        pos,
    })
}

// What stands after two names, of which the first may be the word `infallible`.
#[tactic(auto, using(crate::proofs::DefinitionSteps::two_names))]
fn extractor_behind<'t>(
    tokens: &mut Tokens<'t>,
    pos: Pos,
    term: Name<'t>,
    func: Name<'t>,
) -> Result<Def<'t>, Fail>
    ensures { Reads def result
        (extractor_behind pos.file pos.offset (bytes_eq term.entry (codes "infallible")) term.entry func.entry)
        (left tokens.old) (left tokens.new) }
{
    if term.as_str() != "infallible" {
        return fallible(tokens, pos, term, func);
    }
    if tokens.len() == 0 {
        return Err(tokens.miss(Expected::Name));
    }
    match tokens.closes() {
        Some(_) => fallible(tokens, pos, term, func),
        None => infallible(tokens, pos, func),
    }
}

// What stands after `( extern extractor`.
#[tactic(auto, using(isle_reading::proofs::Steps::chain), unfolding(isle_grammar::specs::Reading::read_extractor_function))]
fn extractor<'t>(tokens: &mut Tokens<'t>, pos: Pos) -> Result<Def<'t>, Fail>
    ensures { Reads def result (read_extractor_function pos.file pos.offset) (left tokens.old)
        (left tokens.new) }
{
    let term = tokens.name_as(Expected::Name)?;
    let func = tokens.name_as(Expected::Name)?;
    extractor_behind(tokens, pos, term, func)
}

// What stands after `( extern const`.
#[tactic(auto, using(isle_reading::proofs::Steps::chain), unfolding(isle_grammar::specs::Reading::read_const))]
fn const_of<'t>(tokens: &mut Tokens<'t>, pos: Pos) -> Result<Def<'t>, Fail>
    ensures { Reads def result (read_const pos.file pos.offset) (left tokens.old)
        (left tokens.new) }
{
    let name = constant(tokens)?;
    let ty = tokens.name_as(Expected::Type)?;
    tokens.close()?;
    Ok(Def::ExternConst { name, ty, pos })
}

// What stands after the second word of an `extern`.
fn extern_behind<'t>(tokens: &mut Tokens<'t>, pos: Pos, head: ExternHead) -> Result<Def<'t>, Fail>
    ensures { Reads def result (extern_behind pos.file pos.offset (extern_head_seen head))
        (left tokens.old) (left tokens.new) }
{
    match head {
        ExternHead::Constructor => constructor(tokens, pos),
        ExternHead::Extractor => extractor(tokens, pos),
        ExternHead::Const => const_of(tokens, pos),
    }
}

/// Reads what stands after `( extern`, for the definition at that place.
#[tactic(auto, using(isle_reading::proofs::Steps::chain), unfolding(isle_grammar::specs::Reading::read_extern))]
pub fn external<'t>(tokens: &mut Tokens<'t>, pos: Pos) -> Result<Def<'t>, Fail>
    ensures { Reads def result (read_extern pos.file pos.offset) (left tokens.old)
        (left tokens.new) }
{
    let head = read_head(tokens)?;
    extern_behind(tokens, pos, head)
}
