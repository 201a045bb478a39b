use isle_core::{Boxed, List, Name, Pos};

/// A definition, in the grammar's shape. Parts that repeat stand in the text's order.
#[derive(Debug)]
pub enum Def<'t> {
    TypeDecl {
        name: Name<'t>,
        is_extern: bool,
        is_nodebug: bool,
        body: AstBody<'t>,
        pos: Pos,
    },
    Decl {
        term: Name<'t>,
        pure: bool,
        multi: bool,
        partial: bool,
        recursive: bool,
        args: List<Name<'t>>,
        ret: Name<'t>,
        pos: Pos,
    },
    ExternConstructor {
        term: Name<'t>,
        func: Name<'t>,
        pos: Pos,
    },
    ExternExtractor {
        term: Name<'t>,
        func: Name<'t>,
        infallible: bool,
        pos: Pos,
    },
    /// The name stands without its `$`.
    ExternConst {
        name: Name<'t>,
        ty: Name<'t>,
        pos: Pos,
    },
    Extractor {
        term: Name<'t>,
        params: List<Name<'t>>,
        template: AstPattern<'t>,
        pos: Pos,
    },
    Converter {
        from: Name<'t>,
        to: Name<'t>,
        term: Name<'t>,
        pos: Pos,
    },
    Rule {
        name: Option<Name<'t>>,
        prio: i64,
        term: Name<'t>,
        args: List<AstPattern<'t>>,
        iflets: List<AstIfLet<'t>>,
        rhs: AstExpr<'t>,
        pos: Pos,
    },
    /// A list that is passed over, by its first word.
    Passed {
        head: Name<'t>,
        pos: Pos,
    },
}

impl<'t> Drop for Def<'t> {
    // Gives up what the variant holds, in one call wherever a value is dropped.
    fn drop(self) {
        match self {
            Def::TypeDecl {
                name: _name,
                is_extern: _is_extern,
                is_nodebug: _is_nodebug,
                body: _body,
                pos: _pos,
            } => {}
            Def::Decl {
                term: _term,
                pure: _pure,
                multi: _multi,
                partial: _partial,
                recursive: _recursive,
                args: _args,
                ret: _ret,
                pos: _pos,
            } => {}
            Def::ExternConstructor {
                term: _term,
                func: _func,
                pos: _pos,
            } => {}
            Def::ExternExtractor {
                term: _term,
                func: _func,
                infallible: _infallible,
                pos: _pos,
            } => {}
            Def::ExternConst {
                name: _name,
                ty: _ty,
                pos: _pos,
            } => {}
            Def::Extractor {
                term: _term,
                params: _params,
                template: _template,
                pos: _pos,
            } => {}
            Def::Converter {
                from: _from,
                to: _to,
                term: _term,
                pos: _pos,
            } => {}
            Def::Rule {
                name: _name,
                prio: _prio,
                term: _term,
                args: _args,
                iflets: _iflets,
                rhs: _rhs,
                pos: _pos,
            } => {}
            Def::Passed {
                head: _head,
                pos: _pos,
            } => {}
        }
    }
}

/// What a type is declared as.
#[derive(Debug)]
pub enum AstBody<'t> {
    Primitive(Name<'t>),
    Enum(List<AstVariant<'t>>),
    Struct(AstFields<'t>),
}

impl<'t> Drop for AstBody<'t> {
    // Gives up what the variant holds, in one call wherever a value is dropped.
    fn drop(self) {
        match self {
            AstBody::Primitive(_part0) => {}
            AstBody::Enum(_part0) => {}
            AstBody::Struct(_part0) => {}
        }
    }
}

/// A variant of an enum.
#[derive(Debug, Drop)]
pub struct AstVariant<'t> {
    pub name: Name<'t>,
    pub fields: AstFields<'t>,
}

/// The fields of a variant or a struct: names with types, or types.
#[derive(Debug)]
pub enum AstFields<'t> {
    Unit,
    Named(List<(Name<'t>, Name<'t>)>),
    Tuple(List<Name<'t>>),
}

impl<'t> Drop for AstFields<'t> {
    // Gives up what the variant holds, in one call wherever a value is dropped.
    fn drop(self) {
        match self {
            AstFields::Unit => {}
            AstFields::Named(_part0) => {}
            AstFields::Tuple(_part0) => {}
        }
    }
}

/// A pattern.
#[derive(Debug)]
pub enum AstPattern<'t> {
    Int(i128),
    Bool(bool),
    /// The name stands without its `$`.
    Const(Name<'t>),
    Wildcard,
    Var(Name<'t>),
    Bind(Name<'t>, Boxed<AstPattern<'t>>),
    And(List<AstPattern<'t>>),
    Term(Name<'t>, List<AstPattern<'t>>),
}

impl<'t> Drop for AstPattern<'t> {
    // Gives up what the variant holds, in one call wherever a value is dropped.
    fn drop(self) {
        match self {
            AstPattern::Int(_part0) => {}
            AstPattern::Bool(_part0) => {}
            AstPattern::Const(_part0) => {}
            AstPattern::Wildcard => {}
            AstPattern::Var(_part0) => {}
            AstPattern::Bind(_part0, _part1) => {}
            AstPattern::And(_part0) => {}
            AstPattern::Term(_part0, _part1) => {}
        }
    }
}

/// An expression.
#[cycle(expr)]
#[derive(Debug)]
pub enum AstExpr<'t> {
    Int(i128),
    Bool(bool),
    /// The name stands without its `$`.
    Const(Name<'t>),
    Var(Name<'t>),
    Let(List<AstLet<'t>>, Boxed<AstExpr<'t>>),
    Term(Name<'t>, List<AstExpr<'t>>),
}

/// A variable of a `let`, with its type and its value.
#[cycle(expr)]
#[derive(Debug)]
pub struct AstLet<'t> {
    pub var: Name<'t>,
    pub ty: Name<'t>,
    pub val: AstExpr<'t>,
}

impl<'t> Drop for AstExpr<'t> {
    #[cycle(dropping)]
    fn drop(self) {
        match self {
            AstExpr::Int(_part0) => {}
            AstExpr::Bool(_part0) => {}
            AstExpr::Const(_part0) => {}
            AstExpr::Var(_part0) => {}
            AstExpr::Let(_part0, _part1) => {}
            AstExpr::Term(_part0, _part1) => {}
        }
    }
}

impl<'t> Drop for AstLet<'t> {
    #[cycle(dropping)]
    fn drop(self) {
        let AstLet {
            var: _var,
            ty: _ty,
            val: _val,
        } = self;
    }
}

/// A condition of a rule. An `(if E)` has the pattern `Wildcard`.
#[derive(Debug, Drop)]
pub struct AstIfLet<'t> {
    pub lhs: AstPattern<'t>,
    pub rhs: AstExpr<'t>,
}
