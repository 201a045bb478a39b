ghost use Rattle.std.specs.Prelude.{◌≡◌};

/// A type by its place among the types.
#[derive(Clone, Copy, Debug, Default, PartialEq, Eq, PartialOrd, Ord, Hash)]
pub struct TypeId(pub usize);

impl TypeId {
    /// Returns the number.
    pub fn index(self) -> usize
        ensures { result ≡ self.0 }
    {
        self.0
    }
}

/// A term by its place among the terms.
#[derive(Clone, Copy, Debug, Default, PartialEq, Eq, PartialOrd, Ord, Hash)]
pub struct TermId(pub usize);

impl TermId {
    /// Returns the number.
    pub fn index(self) -> usize
        ensures { result ≡ self.0 }
    {
        self.0
    }
}

/// A rule by its place among the rules.
#[derive(Clone, Copy, Debug, Default, PartialEq, Eq, PartialOrd, Ord, Hash)]
pub struct RuleId(pub usize);

impl RuleId {
    /// Returns the number.
    pub fn index(self) -> usize
        ensures { result ≡ self.0 }
    {
        self.0
    }
}

/// A variant by its place in its enum.
#[derive(Clone, Copy, Debug, Default, PartialEq, Eq, PartialOrd, Ord, Hash)]
pub struct VariantId(pub usize);

impl VariantId {
    /// Returns the number.
    pub fn index(self) -> usize
        ensures { result ≡ self.0 }
    {
        self.0
    }
}

/// A field by its place in its variant or struct.
#[derive(Clone, Copy, Debug, Default, PartialEq, Eq, PartialOrd, Ord, Hash)]
pub struct FieldId(pub usize);

impl FieldId {
    /// Returns the number.
    pub fn index(self) -> usize
        ensures { result ≡ self.0 }
    {
        self.0
    }
}

/// A name by its place among the symbols.
#[derive(Clone, Copy, Debug, Default, PartialEq, Eq, PartialOrd, Ord, Hash)]
pub struct Sym(pub usize);

impl Sym {
    /// Returns the number.
    pub fn index(self) -> usize
        ensures { result ≡ self.0 }
    {
        self.0
    }
}

/// A binding by its place in its rule set.
#[derive(Clone, Copy, Debug, Default, PartialEq, Eq, PartialOrd, Ord, Hash)]
pub struct BindingId(pub usize);

impl BindingId {
    /// Returns the number.
    pub fn index(self) -> usize
        ensures { result ≡ self.0 }
    {
        self.0
    }
}

/// A variable by its number in its rule.
#[derive(Clone, Copy, Debug, Default, PartialEq, Eq, PartialOrd, Ord, Hash)]
pub struct VarId(pub usize);

impl VarId {
    /// Returns the number.
    pub fn index(self) -> usize
        ensures { result ≡ self.0 }
    {
        self.0
    }
}

/// A part of a tuple by its place.
#[derive(Clone, Copy, Debug, Default, PartialEq, Eq, PartialOrd, Ord, Hash)]
pub struct TupleIndex(pub u8);

impl TupleIndex {
    /// Returns the number.
    pub fn index(self) -> usize
        ensures { result ≡ self.0 }
    {
        usize::from(self.0)
    }
}
