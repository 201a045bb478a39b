use isle_core::{Callee, IntType, List, ReturnKind, Text};

/// A type of a place: after a `&` or not, with its name.
#[derive(Debug, Drop)]
pub struct Ty {
    pub by_ref: bool,
    pub name: Text,
}

/// A function of the trait `Context`.
#[derive(Debug, Drop)]
pub struct TraitFn {
    pub name: Text,
    pub params: List<Ty>,
    pub results: List<Text>,
    pub kind: ReturnKind,
}

/// The fields of a variant or a struct: names and types.
#[derive(Debug)]
pub enum TFields {
    Unit,
    Named(List<(Text, Text)>),
    Tuple(List<Text>),
}

impl Drop for TFields {
    // Gives up what the variant holds, in one call wherever a value is dropped.
    fn drop(self) {
        match self {
            TFields::Unit => {}
            TFields::Named(_part0) => {}
            TFields::Tuple(_part0) => {}
        }
    }
}

/// What a type is made of: variants, or fields.
#[derive(Debug)]
pub enum TypeBody {
    Enum(List<(Text, TFields)>),
    Struct(TFields),
}

impl Drop for TypeBody {
    // Gives up what the variant holds, in one call wherever a value is dropped.
    fn drop(self) {
        match self {
            TypeBody::Enum(_part0) => {}
            TypeBody::Struct(_part0) => {}
        }
    }
}

/// A type of the program.
#[derive(Debug, Drop)]
pub struct TypeItem {
    pub name: Text,
    pub debug: bool,
    pub body: TypeBody,
}

/// The function of a term.
#[derive(Debug, Drop)]
pub struct Function {
    pub term: Text,
    pub params: List<Ty>,
    pub result: Text,
    pub kind: ReturnKind,
    pub body: List<Stmt>,
}

/// A target program: whether it begins with the `#![allow(..)]` lines, and its items in order.
#[derive(Debug, Drop)]
pub struct Program {
    pub allow: bool,
    pub trait_fns: List<TraitFn>,
    pub types: List<TypeItem>,
    pub fns: List<Function>,
}

/// What stands for a value.
#[derive(Debug)]
pub enum Operand {
    Local(usize),
    Arg(usize),
    Bool(bool),
    Int(IntType, i128),
    /// A number of a primitive type.
    Raw(i128),
    /// A constant, or a unit struct.
    Name(Text),
}

impl Drop for Operand {
    // Gives up what the variant holds, in one call wherever a value is dropped.
    fn drop(self) {
        match self {
            Operand::Local(_part0) => {}
            Operand::Arg(_part0) => {}
            Operand::Bool(_part0) => {}
            Operand::Int(_part0, _part1) => {}
            Operand::Raw(_part0) => {}
            Operand::Name(_part0) => {}
        }
    }
}

/// How an operand is read.
#[derive(Debug)]
pub enum Read {
    Plain(Operand),
    Borrow(Operand),
    Clone(Operand),
}

impl Drop for Read {
    // Gives up what the variant holds, in one call wherever a value is dropped.
    fn drop(self) {
        match self {
            Read::Plain(_part0) => {}
            Read::Borrow(_part0) => {}
            Read::Clone(_part0) => {}
        }
    }
}

/// A call with its arguments after `ctx`.
#[derive(Debug, Drop)]
pub struct TCall {
    pub callee: Callee,
    pub args: List<Read>,
}

/// What a `let` or a `return` computes.
#[derive(Debug)]
pub enum TExpr {
    Read(Read),
    Call {
        borrow: bool,
        call: TCall,
    },
    Variant {
        ty: Text,
        variant: Text,
        fields: List<(Text, Read)>,
    },
    Struct {
        ty: Text,
        fields: List<(Text, Read)>,
    },
    Some(Read),
    Try {
        source: Operand,
        as_ref: bool,
    },
    Tuple(Operand, usize),
}

impl Drop for TExpr {
    // Gives up what the variant holds, in one call wherever a value is dropped.
    fn drop(self) {
        match self {
            TExpr::Read(_part0) => {}
            TExpr::Call {
                borrow: _borrow,
                call: _call,
            } => {}
            TExpr::Variant {
                ty: _ty,
                variant: _variant,
                fields: _fields,
            } => {}
            TExpr::Struct {
                ty: _ty,
                fields: _fields,
            } => {}
            TExpr::Some(_part0) => {}
            TExpr::Try {
                source: _source,
                as_ref: _as_ref,
            } => {}
            TExpr::Tuple(_part0, _part1) => {}
        }
    }
}

/// A field that a pattern binds to a local.
#[derive(Debug, Drop)]
pub struct TBind {
    pub field: Text,
    pub by_ref: bool,
    pub local: usize,
}

/// A pattern. `more` says that fields are left out.
#[derive(Debug)]
pub enum TPat {
    Const(Operand),
    Variant {
        ty: Text,
        variant: Text,
        binds: List<TBind>,
        more: bool,
    },
    Struct {
        ty: Text,
        binds: List<TBind>,
        more: bool,
    },
    Some(Option<usize>),
}

impl Drop for TPat {
    // Gives up what the variant holds, in one call wherever a value is dropped.
    fn drop(self) {
        match self {
            TPat::Const(_part0) => {}
            TPat::Variant {
                ty: _ty,
                variant: _variant,
                binds: _binds,
                more: _more,
            } => {}
            TPat::Struct {
                ty: _ty,
                binds: _binds,
                more: _more,
            } => {}
            TPat::Some(_part0) => {}
        }
    }
}

/// A statement.
#[derive(Debug)]
pub enum Stmt {
    Let(usize, TExpr),
    LetList {
        local: usize,
        call: TCall,
    },
    IfEq(Operand, Operand, List<Stmt>),
    IfLet(TPat, Read, List<Stmt>),
    Match(Read, List<(TPat, List<Stmt>)>),
    Loop {
        list: usize,
        item: usize,
        body: List<Stmt>,
    },
    Return(TExpr),
    Extend(Read),
    /// Stop if the list of results has reached this length: a closure around it if inside one, or else the function.
    Overflow {
        inside: bool,
        limit: usize,
    },
    Log {
        term: Text,
        place: Text,
    },
    /// The body in a closure of its own; if that stops, so does a closure around it if inside one, or else the function.
    Split {
        body: List<Stmt>,
        inside: bool,
    },
    /// `None`, or the marked `unreachable!` of a term at a place.
    Tail(Option<(Text, Text)>),
}

impl Drop for Stmt {
    // Gives up what the variant holds, in one call wherever a value is dropped.
    fn drop(self) {
        match self {
            Stmt::Let(_part0, _part1) => {}
            Stmt::LetList {
                local: _local,
                call: _call,
            } => {}
            Stmt::IfEq(_part0, _part1, _part2) => {}
            Stmt::IfLet(_part0, _part1, _part2) => {}
            Stmt::Match(_part0, _part1) => {}
            Stmt::Loop {
                list: _list,
                item: _item,
                body: _body,
            } => {}
            Stmt::Return(_part0) => {}
            Stmt::Extend(_part0) => {}
            Stmt::Overflow {
                inside: _inside,
                limit: _limit,
            } => {}
            Stmt::Log {
                term: _term,
                place: _place,
            } => {}
            Stmt::Split {
                body: _body,
                inside: _inside,
            } => {}
            Stmt::Tail(_part0) => {}
        }
    }
}
