//! The declarations, external constructors, extractors, and rules among definitions.

ghost use Rattle.std.specs.Prelude.{◌≡◌, ◌++◌, OnOk};
ghost use Rattle.isle_declarations.specs.Collected.{item_signatures, item_externs, item_extractors, item_rules};

use crate::symbols::Symbols;
use isle_ast::{AstExpr, AstIfLet, AstPattern};
use isle_core::{Name, Pos};
use std::alloc::AllocError;

/// A declaration, and the number of its name.
#[derive(Clone, Copy)]
pub struct Signature<'b, 'd> {
    pub number: usize,
    pub term: &'b Name<'d>,
    pub pure: bool,
    pub multi: bool,
    pub partial: bool,
    pub recursive: bool,
    pub args: &'b [Name<'d>],
    pub ret: &'b Name<'d>,
    pub pos: Pos,
}

/// An external constructor: its term and its function, with their numbers.
#[derive(Clone, Copy)]
pub struct Extern<'b, 'd> {
    pub number: usize,
    pub term: &'b Name<'d>,
    pub func_number: usize,
    pub func: &'b Name<'d>,
}

/// How an extractor takes values apart: by a function, with its number, which may always answer, or by a template.
#[derive(Clone, Copy)]
pub enum Extracting<'b, 'd> {
    Function {
        func_number: usize,
        func: &'b Name<'d>,
        infallible: bool,
    },
    Template {
        params: &'b [Name<'d>],
        template: &'b AstPattern<'d>,
    },
}

/// An extractor of either kind, and the number of its term.
#[derive(Clone, Copy)]
pub struct ExtractorDef<'b, 'd> {
    pub number: usize,
    pub term: &'b Name<'d>,
    pub by: Extracting<'b, 'd>,
    pub pos: Pos,
}

/// What is known of an extractor: the number of its function, and whether it always answers; or that it has a template.
#[derive(Clone, Copy)]
pub enum KnownExtractor {
    Function { number: usize, infallible: bool },
    Template,
}

/// A rule, and the number of its term's name.
#[derive(Clone, Copy)]
pub struct RuleDef<'b, 'd> {
    pub name: Option<&'b Name<'d>>,
    pub prio: i64,
    pub number: usize,
    pub term: &'b Name<'d>,
    pub args: &'b [AstPattern<'d>],
    pub iflets: &'b [AstIfLet<'d>],
    pub rhs: &'b AstExpr<'d>,
    pub pos: Pos,
}

/// What a definition is.
#[derive(Clone, Copy)]
pub enum Item<'b, 'd> {
    Declared(Signature<'b, 'd>),
    External(Extern<'b, 'd>),
    Extractor(ExtractorDef<'b, 'd>),
    Rule(RuleDef<'b, 'd>),
    Other,
}

/// Definitions by their kinds, in order, and the names that stand in them.
#[derive(Drop)]
pub struct Definitions<'b, 'd> {
    pub symbols: Symbols<'b>,
    pub signatures: Vec<Signature<'b, 'd>>,
    pub externs: Vec<Extern<'b, 'd>>,
    pub extractors: Vec<ExtractorDef<'b, 'd>>,
    pub rules: Vec<RuleDef<'b, 'd>>,
}

/// Keeps one item more. The only error is want of memory.
pub fn keep<'b, 'd>(
    signatures: &mut Vec<Signature<'b, 'd>>,
    externs: &mut Vec<Extern<'b, 'd>>,
    extractors: &mut Vec<ExtractorDef<'b, 'd>>,
    rules: &mut Vec<RuleDef<'b, 'd>>,
    item: Item<'b, 'd>,
) -> Result<(), AllocError>
    ensures signatures { OnOk result
        (signatures.new.items ≡ signatures.old.items ++ item_signatures item.entry) }
    ensures externs { OnOk result
        (externs.new.items ≡ externs.old.items ++ item_externs item.entry) }
    ensures extractors { OnOk result
        (extractors.new.items ≡ extractors.old.items ++ item_extractors item.entry) }
    ensures rules { OnOk result (rules.new.items ≡ rules.old.items ++ item_rules item.entry) }
{
    match item {
        Item::Declared(signature) => signatures.push(signature)?,
        Item::External(found) => externs.push(found)?,
        Item::Extractor(found) => extractors.push(found)?,
        Item::Rule(rule) => rules.push(rule)?,
        Item::Other => {}
    }
    Ok(())
}
