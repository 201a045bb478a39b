//! The terms, rules and converters of definitions.

ghost use Rattle.std.specs.Prelude.{◌≡◌, IfOk, IfErr, Some, None, map, option_map};
ghost use Rattle.isle_core.specs.RuleViews.{environment};
ghost use Rattle.isle_ast.specs.Views.{defs as seen};
ghost use Rattle.isle_declarations.specs.Signatures.{signatures, externs, extractors, rule_defs};
ghost use Rattle.isle_declarations.specs.DeclaredTypes.{made_of};
ghost use Rattle.isle_types.specs.Fault.{type_fault};
ghost use Rattle.isle_types.specs.Gathered.{IsBefore};
ghost use Rattle.isle_types.specs.TypeEnvironment.{type_env_of};
ghost use Rattle.isle_sema.specs.KnownOf.{AreKnown};
ghost use Rattle.isle_terms.specs.Whole.{whole};
ghost use Rattle.isle_sema.specs.TakenAt.{AreRulesAt};
ghost use Rattle.isle_sema.specs.Typing.{TypedOnly, fault, IsUntyped};

use crate::elaborated_rules::rules_at;
use crate::fault::Fault;
use crate::known::Known;
use crate::templates::check_templates;
use crate::typing::EnvError;
use isle_core::{List, Rule, Term, TermEnv, Text, TypeEnv};
use isle_declarations::{Declarations, Terms, terms_of as gathered_terms};
use isle_terms::{Converters, check_terms, terms_of};
use isle_types::Before;
use std::alloc::{AllocError, Global};

// The rules of definitions over their terms, with their templates replaced, or what is wrong with a template or else
// with a rule.
fn rules_of<'b, 'd>(
    alloc: Global,
    declarations: &Declarations<'b, 'd>,
    before: &Before<'b>,
    types: &TypeEnv,
    terms: &Terms<'b, 'd>,
    typed: &[Term],
    converters: &Converters,
) -> Result<Result<Vec<Rule>, Fault<'b, 'd>>, AllocError>
    requires { AreKnown declarations.now before.now types.now terms.now typed.now converters.now }
    ensures { IfOk result (λ rules. AreRulesAt (whole declarations.now) rules) }
{
    let known = Known {
        declarations,
        before,
        types,
        terms,
        typed,
        converters,
    };
    let extractors = match check_templates(alloc, &known)? {
        Ok(extractors) => extractors,
        Err(fault) => return Ok(Err(fault)),
    };
    rules_at(alloc, &known, &extractors, declarations.rules())
}

/// Returns the terms, rules and converters of definitions, whose types make these: `Typing` comes if a declaration,
/// what names its term, a converter or a head is wrong, or else an extractor, or else a rule.
pub fn term_env<'b, 'd>(
    alloc: Global,
    declarations: &Declarations<'b, 'd>,
    before: &Before<'b>,
    types: &TypeEnv,
    made: &'b [List<Text>],
) -> Result<TermEnv, EnvError>
    requires sound { type_fault (seen declarations.now) ≡ None }
    requires before { IsBefore (seen declarations.now) before.now }
    requires types { types.now ≡ type_env_of (seen declarations.now) }
    requires made { made.now ≡ map made_of (seen declarations.now) }
    ensures ok { IfOk result (λ terms.
        TypedOnly (seen declarations.now) (environment types.now terms)) }
    ensures err { IfErr result (λ e. IsUntyped (fault (seen declarations.now)) e) }
{
    let terms = gathered_terms(alloc, declarations, made)?;
    let converters = match check_terms(alloc, &*declarations, &*before, &terms)? {
        Ok(found) => found,
        Err(error) => return Err(EnvError::Typing(error)),
    };
    let Some(typed) = terms_of(alloc, declarations, before, &terms)? else {
        unreachable!();
    };
    let found = rules_of(
        alloc,
        declarations,
        before,
        types,
        &terms,
        typed.as_slice(),
        &converters,
    )?;
    let rules = match found {
        Ok(rules) => rules,
        Err(fault) => return Err(EnvError::Typing(fault.error(alloc, types)?)),
    };
    Ok(TermEnv {
        terms: List::new(typed),
        rules: List::new(rules),
        converters: List::new(converters.listed),
    })
}
