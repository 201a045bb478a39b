//! The names in definitions, from left to right.

ghost use Rattle.std.specs.Prelude.{◌≡◌, ◌++◌, ◌∷◌, [], Some, None, IfOk, OnOk, Bool, false, map, fold};
ghost use Rattle.isle_ast.specs.Views.{pattern, def, defs as seen};
ghost use Rattle.isle_declarations.specs.Symbols.{index_of, added};
ghost use Rattle.isle_declarations.specs.Names.{pattern_names, body_names, def_names};
ghost use Rattle.isle_declarations.specs.DeclaredTypes.{made_of};
ghost use Rattle.isle_declarations.specs.Signatures.{is_collected, signature_of, extern_of, rule_of};
ghost use Rattle.isle_declarations.specs.Collected.{IsItem, AreCollected, AreFound};

use crate::collected::{
    Definitions, Extern, Extracting, ExtractorDef, Item, RuleDef, Signature, keep,
};
use crate::pattern_interning::intern_pattern;
use crate::rule_interning::intern_rule;
use crate::symbols::Symbols;
use crate::text_interning::{intern, intern_lists, intern_names};
use crate::type_interning::intern_body;
use isle_ast::{AstBody, AstPattern, Def};
use isle_core::{List, Name, Text};
use std::alloc::{AllocError, Global};

// The names in a declaration, and its name's number.
fn intern_decl<'b, 'd>(
    names: &mut Symbols<'b>,
    term: &'b Name<'d>,
    args: &'b [Name<'d>],
    ret: &'b Name<'d>,
) -> Result<usize, AllocError>
    ensures names { OnOk result
        (names.new ≡ fold added names.old (term.now ∷ args.now ++ ret.now ∷ [])) }
    ensures number { IfOk result (λ number. index_of names.new term.now ≡ Some number) }
{
    let number = names.intern(term.as_str())?;
    intern_names(names, args)?;
    intern(names, ret)?;
    Ok(number)
}

// The names in an external constructor or extractor, and their numbers.
fn intern_extern<'b, 'd>(
    names: &mut Symbols<'b>,
    term: &'b Name<'d>,
    func: &'b Name<'d>,
) -> Result<(usize, usize), AllocError>
    ensures names { OnOk result (names.new ≡ fold added names.old (term.now ∷ func.now ∷ [])) }
    ensures numbers { IfOk result (λ numbers.
        (index_of names.new term.now ≡ Some numbers.0)
        × (index_of names.new func.now ≡ Some numbers.1)) }
{
    let number = names.intern(term.as_str())?;
    let func_number = names.intern(func.as_str())?;
    Ok((number, func_number))
}

// The names in a type.
fn intern_type<'b, 'd>(
    names: &mut Symbols<'b>,
    name: &'b Name<'d>,
    body: &'b AstBody<'d>,
) -> Result<(), AllocError>
    ensures { OnOk result (names.new ≡ fold added names.old (name.now ∷ body_names body.now)) }
{
    intern(names, name)?;
    intern_body(names, body)
}

// Two names.
fn intern_two<'b, 'd>(
    names: &mut Symbols<'b>,
    first: &'b Name<'d>,
    second: &'b Name<'d>,
) -> Result<(), AllocError>
    ensures { OnOk result (names.new ≡ fold added names.old (first.now ∷ second.now ∷ [])) }
{
    intern(names, first)?;
    intern(names, second)
}

// The names in an extractor with a template, and its term's number.
fn intern_template<'b, 'd>(
    names: &mut Symbols<'b>,
    term: &'b Name<'d>,
    params: &'b [Name<'d>],
    template: &'b AstPattern<'d>,
) -> Result<usize, AllocError>
    ensures names { OnOk result
        (names.new ≡ fold added names.old
        (term.now ∷ params.now ++ pattern_names (pattern template.now))) }
    ensures number { IfOk result (λ number. index_of names.new term.now ≡ Some number) }
{
    let number = names.intern(term.as_str())?;
    intern_names(names, params)?;
    intern_pattern(names, template)?;
    Ok(number)
}

// The names in a converter.
fn intern_converter<'b, 'd>(
    names: &mut Symbols<'b>,
    from: &'b Name<'d>,
    to: &'b Name<'d>,
    term: &'b Name<'d>,
) -> Result<(), AllocError>
    ensures { OnOk result (names.new ≡ fold added names.old (from.now ∷ to.now ∷ term.now ∷ [])) }
{
    intern(names, from)?;
    intern_two(names, to, term)
}

// The names in a definition that is no declaration, external constructor, extractor or rule.
fn intern_uncollected<'b, 'd>(names: &mut Symbols<'b>, given: &'b Def<'d>) -> Result<(), AllocError>
    ensures { OnOk result
        (is_collected (def given.now) ≡ false
        → names.new ≡ fold added names.old (def_names (def given.now))) }
{
    match given {
        Def::TypeDecl { name, body, .. } => intern_type(names, name, body),
        Def::Decl { .. } => Ok(()),
        Def::ExternConstructor { .. } => Ok(()),
        Def::ExternExtractor { .. } => Ok(()),
        Def::ExternConst { name, ty, .. } => intern_two(names, name, ty),
        Def::Extractor { .. } => Ok(()),
        Def::Converter { from, to, term, .. } => intern_converter(names, from, to, term),
        Def::Rule { .. } => Ok(()),
        Def::Passed { .. } => Ok(()),
    }
}

// An extractor, and the names in it from left to right, or those in a definition that is not collected.
#[tactic(auto, using(crate::proofs::Gathered::numbered_one))]
fn intern_extractor<'b, 'd>(
    names: &mut Symbols<'b>,
    given: &'b Def<'d>,
) -> Result<Item<'b, 'd>, AllocError>
    ensures names { OnOk result
        (signature_of (def given.now) ≡ None → extern_of (def given.now) ≡ None
        → rule_of (def given.now) ≡ None
        → names.new ≡ fold added names.old (def_names (def given.now))) }
    ensures item { IfOk result (λ item.
        signature_of (def given.now) ≡ None → extern_of (def given.now) ≡ None
        → rule_of (def given.now) ≡ None → IsItem names.new (def given.now) item) }
{
    match given {
        Def::ExternExtractor {
            term,
            func,
            infallible,
            pos,
        } => {
            let (number, func_number) = intern_extern(names, term, func)?;
            Ok(Item::Extractor(ExtractorDef {
                number,
                term,
                by: Extracting::Function {
                    func_number,
                    func,
                    infallible: *infallible,
                },
                pos: *pos,
            }))
        }
        Def::Extractor {
            term,
            params,
            template,
            pos,
        } => {
            let params = params.as_slice();
            let number = intern_template(names, term, params, template)?;
            Ok(Item::Extractor(ExtractorDef {
                number,
                term,
                by: Extracting::Template { params, template },
                pos: *pos,
            }))
        }
        _ => {
            intern_uncollected(names, given)?;
            Ok(Item::Other)
        }
    }
}

// A definition that is no declaration, by its kind, and the names in it from left to right.
#[tactic(auto, using(crate::proofs::Gathered::numbered_one))]
fn intern_undeclared<'b, 'd>(
    names: &mut Symbols<'b>,
    given: &'b Def<'d>,
) -> Result<Item<'b, 'd>, AllocError>
    ensures names { OnOk result
        (signature_of (def given.now) ≡ None
        → names.new ≡ fold added names.old (def_names (def given.now))) }
    ensures item { IfOk result (λ item.
        signature_of (def given.now) ≡ None → IsItem names.new (def given.now) item) }
{
    match given {
        Def::ExternConstructor { term, func, .. } => {
            let (number, func_number) = intern_extern(names, term, func)?;
            Ok(Item::External(Extern {
                number,
                term,
                func_number,
                func,
            }))
        }
        Def::Rule {
            name,
            prio,
            term,
            args,
            iflets,
            rhs,
            pos,
        } => {
            let number = intern_rule(names, name, term, args.as_slice(), iflets.as_slice(), rhs)?;
            Ok(Item::Rule(RuleDef {
                name: name.as_ref(),
                prio: *prio,
                number,
                term,
                args: args.as_slice(),
                iflets: iflets.as_slice(),
                rhs,
                pos: *pos,
            }))
        }
        _ => intern_extractor(names, given),
    }
}

// A definition by its kind, and the names in it from left to right.
#[tactic(auto, using(crate::proofs::Gathered::numbered_one))]
fn intern_def<'b, 'd>(
    names: &mut Symbols<'b>,
    given: &'b Def<'d>,
) -> Result<Item<'b, 'd>, AllocError>
    ensures names { OnOk result (names.new ≡ fold added names.old (def_names (def given.now))) }
    ensures item { IfOk result (λ item. IsItem names.new (def given.now) item) }
{
    match given {
        Def::Decl {
            term,
            pure,
            multi,
            partial,
            recursive,
            args,
            ret,
            pos,
        } => {
            let number = intern_decl(names, term, args.as_slice(), ret)?;
            Ok(Item::Declared(Signature {
                number,
                term,
                pure: *pure,
                multi: *multi,
                partial: *partial,
                recursive: *recursive,
                args: args.as_slice(),
                ret,
                pos: *pos,
            }))
        }
        _ => intern_undeclared(names, given),
    }
}

// The definitions by their kinds, and the names that stand in them.
fn found_in<'b, 'd>(alloc: Global, defs: &'b [Def<'d>]) -> Result<Definitions<'b, 'd>, AllocError>
    ensures { IfOk result (λ given. AreFound (seen defs.now) given) }
{
    let mut symbols = Symbols::new(alloc);
    let mut signatures = Vec::new(alloc);
    let mut externs = Vec::new(alloc);
    let mut extractors = Vec::new(alloc);
    let mut rules = Vec::new(alloc);
    for given in defs {
        let item = intern_def(&mut symbols, given)?;
        keep(
            &mut signatures,
            &mut externs,
            &mut extractors,
            &mut rules,
            item,
        )?;
    }
    Ok(Definitions {
        symbols,
        signatures,
        externs,
        extractors,
        rules,
    })
}

/// Returns the definitions by their kinds, and their symbols; the terms that the types of each make are given. The only
/// error is want of memory.
pub fn definitions<'b, 'd>(
    alloc: Global,
    defs: &'b [Def<'d>],
    made: &'b [List<Text>],
) -> Result<Definitions<'b, 'd>, AllocError>
    requires { made.now ≡ map made_of (seen defs.now) }
    ensures { IfOk result (λ given. AreCollected (seen defs.now) given) }
{
    let mut given = found_in(alloc, defs)?;
    intern_lists(&mut given.symbols, made)?;
    Ok(given)
}
