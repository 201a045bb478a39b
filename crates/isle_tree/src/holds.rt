//! What places hold, in judging.

/// One thing: a value, or a tuple with so many parts.
#[derive(Clone, Copy, Debug, PartialEq, Eq)]
pub enum Item {
    Value,
    Tuple(usize),
}

/// What a place holds: one thing, an option of one, or a list of them.
#[derive(Clone, Copy, Debug, PartialEq, Eq)]
pub enum Holds {
    One(Item),
    Optional(Item),
    Several(Item),
}
