//! Names that generated texts give to something else, and those that can't stand in them.

ghost use Rattle.std.specs.Prelude.{◌≡◌, ◌↔◌, IfOk, IsTrue, codes};
ghost use Rattle.std.specs.List.{AllByRecursion, list_all};
ghost use Rattle.isle_lawful_names.specs.NameSet.{HasNames};
ghost use Rattle.isle_spelling.specs.Identifier.{IsIdentifier, begins, is_begin};
ghost use Rattle.isle_spelling.specs.Names.{are_digits, is_digit, is_numbered};
ghost use Rattle.isle_numerics.specs.Definitions.{numeric_terms};
ghost use Rattle.isle_meta.specs.TableNames.{is_among, is_array_constructor, is_array_term};
ghost use Rattle.isle_meta.specs.TableNames.{is_builtin, is_reserved_term, no_terms};
ghost use Rattle.isle_meta.specs.TableNames.{prelude_terms, prelude_types, texts};
ghost use Rattle.isle_meta.specs.TableNames.{IsImmediateType, IsTermName};

use isle_core::{List, Text};
use isle_lawful_names::{added, is_new, is_type_name};
use isle_numeric_text::terms;
use isle_spelling::{are_word_bytes, int_type_named, is_among, is_identifier};
use std::alloc::{AllocError, Global};
use std::collections::BTreeSet;

/// The types that the preludes give to something else.
const PRELUDE_TYPES: [&str; 10] = [
    "Type",
    "Value",
    "Inst",
    "ValueList",
    "ValueSlice",
    "BlockCall",
    "Block",
    "Opcode",
    "InstructionData",
    "MemFlagsData",
];

/// The words of patterns, and the terms of the written preludes.
const PRELUDE_TERMS: [&str; 6] = [
    "and",
    "let",
    "make_inst",
    "make_skeleton_inst",
    "inst_data_value",
    "inst_data",
];

/// The texts of letters, digits and _ that no term may have for a name.
const NO_TERMS: [&str; 3] = ["_", "true", "false"];

/// Tells whether all names are identifiers of the generated texts.
pub fn are_all_identifiers(names: &[&str]) -> bool
    ensures { IsTrue result ↔ AllByRecursion IsIdentifier (texts names.now) }
{
    for name in names {
        if !is_identifier(name) {
            return false;
        }
    }
    true
}

// Whether no byte is another one.
fn all_digits(bytes: &[u8]) -> bool
    ensures { result ≡ list_all is_digit bytes.now }
{
    for byte in bytes {
        if !byte.is_ascii_digit() {
            return false;
        }
    }
    true
}

// Whether digits alone are there, and at least one.
fn are_digits(bytes: &[u8]) -> bool
    ensures { result ≡ are_digits bytes.now }
{
    match bytes {
        [] => false,
        [_, ..] => all_digits(bytes),
    }
}

// Whether a name is the prefix, and after it digits alone.
fn is_numbered(prefix: &[u8], name: &[u8]) -> bool
    ensures { result ≡ is_numbered prefix.now name.now }
{
    if name.len() < prefix.len() {
        return false;
    }
    &name[..prefix.len()] == prefix && are_digits(&name[prefix.len()..])
}

// Whether it is a builtin type.
fn is_builtin(name: &str) -> bool
    ensures { result ≡ is_builtin name.now }
{
    if name == "bool" {
        return true;
    }
    int_type_named(name).is_some()
}

// Whether it is a type that the preludes give to something else.
fn is_prelude_type(name: &str) -> bool
    ensures { result ≡ is_among name.now prelude_types }
{
    is_among(name, &PRELUDE_TYPES)
}

/// Tells whether immediates may have a type of the name.
pub fn is_immediate_type(name: &str) -> bool
    ensures { IsTrue result ↔ IsImmediateType name.now }
{
    if !is_type_name(name, true) {
        return false;
    }
    if is_builtin(name) {
        return false;
    }
    if is_prelude_type(name) {
        return false;
    }
    if is_numbered(b"ValueArray", name.as_bytes()) {
        return false;
    }
    !is_numbered(b"BlockArray", name.as_bytes())
}

// Whether the first byte is a letter or _.
fn begins(bytes: &[u8]) -> bool
    ensures { result ≡ begins bytes.now }
{
    match bytes {
        [] => false,
        [first, ..] => is_begin(*first),
    }
}

// A letter or _.
fn is_begin(byte: u8) -> bool
    ensures { result ≡ is_begin byte }
{
    byte.is_ascii_alphabetic() || byte == b'_'
}

// Whether no term may have the name, though it is of letters, digits and _.
fn is_no_term(name: &str) -> bool
    ensures { result ≡ is_among name.now no_terms }
{
    is_among(name, &NO_TERMS)
}

/// Tells whether a term of the generated texts may have the name.
pub fn is_term_name(name: &str) -> bool
    ensures { IsTrue result ↔ IsTermName name.now }
{
    if !begins(name.as_bytes()) {
        return false;
    }
    if !are_word_bytes(name.as_bytes()) {
        return false;
    }
    !is_no_term(name)
}

// Whether it makes an array of so many values.
fn is_array_constructor(name: &[u8]) -> bool
    ensures { result ≡ is_array_constructor name.now }
{
    if name.len() < 5 {
        return false;
    }
    let front = name.len() - 5;
    &name[front..] == b"_ctor".as_slice() && is_numbered(b"value_array_", &name[..front])
}

// Whether it makes or takes apart an array of so many values or blocks.
fn is_array_term(name: &[u8]) -> bool
    ensures { result ≡ is_array_term name.now }
{
    is_numbered(b"value_array_", name)
        || is_numbered(b"block_array_", name)
        || is_array_constructor(name)
}

// Whether it is a term of the written preludes.
fn is_prelude_term(name: &str) -> bool
    ensures { result ≡ is_among name.now prelude_terms }
{
    is_among(name, &PRELUDE_TERMS)
}

/// Gives the terms of the numeric prelude. The only error is want of memory.
pub fn numeric_names(alloc: Global) -> Result<List<Text>, AllocError>
    ensures { IfOk result (λ names. names ≡ numeric_terms) }
{
    match terms(alloc) {
        Ok(names) => Ok(names),
        Err(_) => Err(AllocError),
    }
}

/// Gives the set of these names. The only error is want of memory.
pub fn name_set<'n>(alloc: Global, names: &'n [Text]) -> Result<BTreeSet<&'n str>, AllocError>
    ensures { IfOk result (λ set. HasNames names.now set) }
{
    let mut set = BTreeSet::new(alloc);
    for name in names {
        added(&mut set, name.as_str())?;
    }
    Ok(set)
}

/// Tells whether the preludes give the term to something else. The set has the terms of the numeric prelude.
pub fn is_reserved_term(numeric: &BTreeSet<&str>, name: &str) -> bool
    requires { HasNames numeric_terms numeric.now }
    ensures { result ≡ is_reserved_term name.now }
{
    if is_prelude_term(name) {
        return true;
    }
    if !is_new(numeric, name) {
        return true;
    }
    is_array_term(name.as_bytes())
}
