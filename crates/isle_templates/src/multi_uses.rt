//! Whether a pattern uses a term with a mark.

ghost use Rattle.std.specs.Prelude.{◌≡◌, map, option_map};
ghost use Rattle.isle_core.specs.RuleViews.{pattern as elaborated, patterns_of};
ghost use Rattle.isle_templates.specs.Multi.{marked, uses_one, uses_any, multi_by};

use isle_core::Pattern;

/// Tells whether the term of that number has a mark.
pub fn marked(marks: &[bool], term: usize) -> bool
    ensures { result ≡ marked marks.now term }
{
    match marks.get(term) {
        Some(mark) => *mark,
        None => false,
    }
}

// Whether a term of a pattern has a mark.
#[cycle(using_one)]
#[tactic(auto, using(isle_core::proofs::SeesRules::sees))]
fn uses_one(p: &Pattern, marks: &[bool]) -> bool
    ensures { result ≡ uses_one (marked marks.now) (elaborated p.now) }
{
    match p {
        Pattern::BindPattern(_, _, inner) => uses_one(inner.get(), marks),
        Pattern::Var(_, _) => false,
        Pattern::ConstBool(_) => false,
        Pattern::ConstInt(_, _) => false,
        Pattern::ConstPrim(_, _) => false,
        Pattern::Term(_, term, parts) => {
            let inner = uses_any(parts.as_slice(), marks);
            marked(marks, term.index()) | inner
        }
        Pattern::Wildcard(_) => false,
        Pattern::And(_, parts) => uses_any(parts.as_slice(), marks),
    }
}

// Whether one of patterns has a mark.
#[cycle(using_one)]
fn uses_any(parts: &[Pattern], marks: &[bool]) -> bool
    ensures { result ≡ uses_any (marked marks.now) (patterns_of (map elaborated parts.now)) }
{
    for p in parts {
        if uses_one(p, marks) {
            return true;
        }
    }
    false
}

/// Tells whether a term with this flag is `multi` where a pattern uses it, by the marks of the terms of its template,
/// if it has one.
pub fn multi_by(template: &Option<Pattern>, flag: bool, marks: &[bool]) -> bool
    ensures { result ≡ multi_by flag (marked marks.now) (option_map elaborated template.now) }
{
    match template {
        None => flag,
        Some(p) => uses_one(p, marks),
    }
}
