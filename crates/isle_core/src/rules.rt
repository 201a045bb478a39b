use crate::position::Pos;
use isle_base::{Boxed, List, RuleId, Sym, TermId, TypeId, VarId};

/// An elaborated pattern: templates are substituted, converters inserted, integers of builtin types reduced.
#[derive(Debug)]
pub enum Pattern {
    BindPattern(TypeId, VarId, Boxed<Pattern>),
    Var(TypeId, VarId),
    ConstBool(bool),
    ConstInt(TypeId, i128),
    ConstPrim(TypeId, Sym),
    Term(TypeId, TermId, List<Pattern>),
    Wildcard(TypeId),
    And(TypeId, List<Pattern>),
}

impl Drop for Pattern {
    // Gives up what the variant holds, in one call wherever a value is dropped.
    fn drop(self) {
        match self {
            Pattern::BindPattern(_part0, _part1, _part2) => {}
            Pattern::Var(_part0, _part1) => {}
            Pattern::ConstBool(_part0) => {}
            Pattern::ConstInt(_part0, _part1) => {}
            Pattern::ConstPrim(_part0, _part1) => {}
            Pattern::Term(_part0, _part1, _part2) => {}
            Pattern::Wildcard(_part0) => {}
            Pattern::And(_part0, _part1) => {}
        }
    }
}

/// A variable of a `let` with its value.
#[cycle(expr)]
#[derive(Debug)]
pub struct LetBinding {
    pub var: VarId,
    pub ty: TypeId,
    pub val: Expr,
}

/// An elaborated expression.
#[cycle(expr)]
#[derive(Debug)]
pub enum Expr {
    Term(TypeId, TermId, List<Expr>),
    Var(TypeId, VarId),
    ConstBool(bool),
    ConstInt(TypeId, i128),
    ConstPrim(TypeId, Sym),
    Let(TypeId, List<LetBinding>, Boxed<Expr>),
}

impl Drop for LetBinding {
    #[cycle(dropping)]
    fn drop(self) {
        let LetBinding {
            var: _var,
            ty: _ty,
            val: _val,
        } = self;
    }
}

impl Drop for Expr {
    #[cycle(dropping)]
    fn drop(self) {
        match self {
            Expr::Term(_ty, _term, _args) => {}
            Expr::Var(_ty, _var) => {}
            Expr::ConstBool(_truth) => {}
            Expr::ConstInt(_ty, _number) => {}
            Expr::ConstPrim(_ty, _name) => {}
            Expr::Let(_ty, _bindings, _inner) => {}
        }
    }
}

/// A condition of a rule: the expression's value is matched.
#[derive(Debug, Drop)]
pub struct IfLet {
    pub lhs: Pattern,
    pub rhs: Expr,
}

/// An elaborated rule.
#[derive(Debug, Drop)]
pub struct Rule {
    pub id: RuleId,
    pub root_term: TermId,
    pub args: List<Pattern>,
    pub iflets: List<IfLet>,
    pub rhs: Expr,
    pub prio: i64,
    pub pos: Pos,
    pub name: Option<Sym>,
}
