//! What the typing table says of the parts of a rule.

ghost use Rattle.std.specs.Prelude.{◌≡◌, [], Option, Some};
ghost use Rattle.isle_declarations.specs.Signatures.{Signature};
ghost use Rattle.isle_terms.specs.Whole.{Whole};
ghost use Rattle.isle_sema.specs.Site.{IntegerAt, TruthAt, PartAt, MetAt, UsedAt, CalledAt, TakenAt};
ghost use Rattle.isle_sema.specs.Site.{ConstantAt, BoundAt};
ghost use Rattle.isle_sema.specs.RuleRows.{is_other_type};
ghost use Rattle.isle_terms.specs.Whole.{whole_of};
ghost use Rattle.isle_sema.specs.Known.{MayBeCalled};
ghost use Rattle.isle_sema.specs.Judging.{unjudged, judge, judge_all};
ghost use Rattle.isle_sema.specs.PatternPass.{taken_by};
ghost use Rattle.isle_sema.specs.ExprPass.{called_by};

use crate::known::Called;
use isle_core::{Name, TypeEnv, TypeId};
use isle_templates::marked;
use isle_terms::{Counts, FirstPart, Judged, Side, Thing, takes_integers, takes_truths};

/// Which rows the parts that were met so far break, and the first part that breaks the lowest: nothing is said of the
/// latter, which is for the words of a fault.
#[derive(Clone, Copy)]
pub struct Judging<'m, 'b, 'd> {
    pub rows: Judged<'m>,
    pub first: FirstPart<'b, 'd>,
}

// Whether a type differs from the one that is expected, if there is one.
fn is_other_type(bound: Option<Option<TypeId>>, expected: Option<TypeId>) -> bool
    ensures { result ≡ is_other_type bound expected }
{
    match (bound, expected) {
        (Some(Some(ty)), Some(expected)) => ty.index() != expected.index(),
        _ => false,
    }
}

// The rows look at the definitions at integers, truths and terms alone: elsewhere it is all one what definitions there
// are.
impl<'m, 'b, 'd> Judging<'m, 'b, 'd> {
    /// Begins with no part, on this side, over these marks of terms that are `multi` where a pattern uses them.
    pub fn new(multis: &'m [bool], side: Side) -> Judging<'m, 'b, 'd>
        ensures { result.rows ≡ unjudged multis.entry }
    {
        Judging {
            rows: Judged {
                multis,
                untaken: false,
                mistaken: false,
                misplaced: false,
                undeclared: false,
                met_otherwise: false,
                multi_taken: false,
                unknown: false,
                mistyped: false,
                partial: false,
                impure: false,
                multi: false,
                unbound: false,
            },
            first: FirstPart::new(side),
        }
    }

    /// Judges a variable of a `let` by its type, which has this name, if it is declared.
    pub fn bound(&mut self, ty: Option<TypeId>, name: &'b Name<'d>)
        ensures { self.new.rows ≡ judge (whole_of []) self.old.rows (BoundAt ty) }
    {
        self.rows.mistyped = ty.is_none() | self.rows.mistyped;
        self.first
            .note(&self.rows, Thing::Type(name), None, ty, None);
    }

    /// Judges an integer where this type is expected.
    pub fn integer(&mut self, types: &TypeEnv, expected: Option<TypeId>, n: &'b i128)
        ensures { (w : Whole) → types.now ≡ w.types
            → self.new.rows ≡ judge w self.old.rows (IntegerAt expected) }
    {
        self.rows.misplaced = !takes_integers(types, expected) | self.rows.misplaced;
        self.first
            .note(&self.rows, Thing::Integer(n), expected, None, None);
    }

    /// Judges `true` or `false` where this type is expected.
    pub fn truth(&mut self, types: &TypeEnv, expected: Option<TypeId>, b: bool)
        ensures { (w : Whole) → types.now ≡ w.types
            → self.new.rows ≡ judge w self.old.rows (TruthAt expected) }
    {
        self.rows.misplaced = !takes_truths(types, expected) | self.rows.misplaced;
        self.first
            .note(&self.rows, Thing::Truth(b), expected, None, None);
    }

    /// Judges a variable in a pattern by the type that it was bound at before, if it was.
    pub fn met(
        &mut self,
        expected: Option<TypeId>,
        bound: Option<Option<TypeId>>,
        name: &'b Name<'d>,
    )
        ensures { self.new.rows ≡ judge (whole_of []) self.old.rows (MetAt expected bound) }
    {
        self.rows.met_otherwise = is_other_type(bound, expected) | self.rows.met_otherwise;
        self.rows.unbound = bound.is_none() | self.rows.unbound;
        self.first.note(
            &self.rows,
            Thing::Variable(name),
            expected,
            bound.flatten(),
            None,
        );
    }

    /// Judges a variable in an expression by the type that it was bound at, if it was.
    pub fn used(
        &mut self,
        expected: Option<TypeId>,
        bound: Option<Option<TypeId>>,
        name: &'b Name<'d>,
    )
        ensures { self.new.rows ≡ judge (whole_of []) self.old.rows (UsedAt expected bound) }
    {
        self.rows.unknown = bound.is_none() | self.rows.unknown;
        self.rows.mistyped = is_other_type(bound, expected) | self.rows.mistyped;
        self.first.note(
            &self.rows,
            Thing::Variable(name),
            expected,
            bound.flatten(),
            None,
        );
    }

    /// Judges a call of a term on so many arguments.
    pub fn called(
        &mut self,
        expected: Option<TypeId>,
        callee: &Option<Called>,
        count: usize,
        thing: Thing<'b, 'd>,
    )
        ensures { (w : Whole) (s : Option Signature) → MayBeCalled w s callee.now
            → self.new.rows ≡ judge w self.old.rows (CalledAt expected s count) }
    {
        let Some(callee) = callee else {
            self.rows.unknown = true;
            self.first.note(&self.rows, thing, expected, None, None);
            return;
        };
        self.rows.unknown = (count != callee.args.len())
            | !(callee.made | callee.external | callee.ruled)
            | self.rows.unknown;
        self.rows.mistyped = is_other_type(Some(Some(callee.ret)), expected) | self.rows.mistyped;
        self.rows.partial = callee.partial | self.rows.partial;
        self.rows.impure = !callee.pure | self.rows.impure;
        self.rows.multi = callee.multi | self.rows.multi;
        let counts = Counts {
            given: count,
            wanted: callee.args.len(),
        };
        self.first.note(&self.rows, thing, expected, Some(callee.ret), Some(counts));
    }

    /// Judges a term in a pattern, on so many patterns.
    pub fn taken(
        &mut self,
        expected: Option<TypeId>,
        callee: &Option<Called>,
        count: usize,
        thing: Thing<'b, 'd>,
    )
        ensures { (w : Whole) (s : Option Signature) → MayBeCalled w s callee.now
            → self.new.rows ≡ judge w self.old.rows (TakenAt expected s count) }
    {
        let Some(callee) = callee else {
            self.rows.untaken = true;
            self.first.note(&self.rows, thing, expected, None, None);
            return;
        };
        self.rows.untaken = (count != callee.args.len())
            | !(callee.made | callee.extracting)
            | self.rows.untaken;
        self.rows.mistaken = is_other_type(Some(Some(callee.ret)), expected) | self.rows.mistaken;
        self.rows.multi_taken = marked(self.rows.multis, callee.term.index())
            | self.rows.multi_taken;
        let counts = Counts {
            given: count,
            wanted: callee.args.len(),
        };
        self.first.note(&self.rows, thing, expected, Some(callee.ret), Some(counts));
    }

    /// Judges a converter around a pattern of this type, if there is one.
    pub fn taken_by(
        &mut self,
        expected: Option<TypeId>,
        converter: &Option<Called>,
        of: Option<TypeId>,
    )
        ensures { (w : Whole) (s : Option Signature) → MayBeCalled w s converter.now
            → self.new.rows ≡ judge_all w self.old.rows (taken_by s expected) }
    {
        if converter.is_some() {
            self.taken(expected, converter, 1, Thing::Converter(of));
        }
    }

    /// Judges a converter around an expression of this type, if there is one.
    pub fn called_by(
        &mut self,
        expected: Option<TypeId>,
        converter: &Option<Called>,
        of: Option<TypeId>,
    )
        ensures { (w : Whole) (s : Option Signature) → MayBeCalled w s converter.now
            → self.new.rows ≡ judge_all w self.old.rows (called_by s expected) }
    {
        if converter.is_some() {
            self.called(expected, converter, 1, Thing::Converter(of));
        }
    }

    /// Judges a constant of this type, if it is declared.
    pub fn constant(
        &mut self,
        in_pattern: bool,
        expected: Option<TypeId>,
        found: Option<TypeId>,
        name: &'b Name<'d>,
    )
        ensures { self.new.rows
            ≡ judge (whole_of []) self.old.rows (ConstantAt in_pattern expected found) }
    {
        let differs = is_other_type(Some(found), expected);
        self.rows.undeclared = found.is_none() | self.rows.undeclared;
        self.rows.mistaken = (in_pattern & differs) | self.rows.mistaken;
        self.rows.mistyped = (!in_pattern & differs) | self.rows.mistyped;
        self.first
            .note(&self.rows, Thing::Constant(name), expected, found, None);
    }
}
