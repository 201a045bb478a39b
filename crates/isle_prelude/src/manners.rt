//! How a file takes an instruction apart, and makes it.

ghost use Rattle.std.specs.Prelude.{◌≡◌, option_map};
ghost use Rattle.isle_prelude.specs.FileManners.{file_case, is_typed, lower_case, making_begin};
ghost use Rattle.isle_prelude.specs.FileManners.{opt_case};
ghost use Rattle.isle_prelude.specs.FileManners.{plain_maker, plain_taker, ret_of, taking_begin};
ghost use Rattle.isle_prelude.specs.FileManners.{typed_maker};
ghost use Rattle.isle_prelude.specs.FileManners.{typed_taker, untyped_taker};

use isle_meta::Instruction;

/// A file of instructions.
#[derive(Clone, Copy)]
pub enum InstructionFile {
    /// That of an optimizer.
    Opt,
    /// That of lowering.
    Lower,
}

/// How an instruction is taken.
#[derive(Clone, Copy)]
pub enum Manner {
    /// By an optimizer, with one result and no effect beside it.
    Valued,
    /// Another one, by an optimizer.
    Skeleton,
    /// In lowering, with results of a type.
    LoweredTyped,
    /// In lowering, whatever its results.
    Lowered,
}

// The extractor of data, and the type of the result.
#[tactic(auto, unfolding(crate::specs::FileManners::typed_taker))]
fn typed_taker() -> &'static str
    ensures { result.now ≡ typed_taker }
{
    "(inst_data_value ty "
}

// The extractor of data, whatever the type.
#[tactic(auto, unfolding(crate::specs::FileManners::untyped_taker))]
fn untyped_taker() -> &'static str
    ensures { result.now ≡ untyped_taker }
{
    "(inst_data_value _ "
}

// The extractor of data alone.
#[tactic(auto, unfolding(crate::specs::FileManners::plain_taker))]
fn plain_taker() -> &'static str
    ensures { result.now ≡ plain_taker }
{
    "(inst_data "
}

// The term that makes an instruction of data, and the type of the result.
#[tactic(auto, unfolding(crate::specs::FileManners::typed_maker))]
fn typed_maker() -> &'static str
    ensures { result.now ≡ typed_maker }
{
    "(make_inst ty "
}

// The term that makes an instruction of data alone.
#[tactic(auto, unfolding(crate::specs::FileManners::plain_maker))]
fn plain_maker() -> &'static str
    ensures { result.now ≡ plain_maker }
{
    "(make_skeleton_inst "
}

impl Manner {
    /// Returns the type of the instruction's term.
    pub fn ret(self) -> &'static str
        ensures { result.now ≡ ret_of self }
    {
        match self {
            Manner::Valued => "Value",
            Manner::Skeleton | Manner::LoweredTyped | Manner::Lowered => "Inst",
        }
    }

    /// Tells whether the first argument is the type of the result.
    pub fn is_typed(self) -> bool
        ensures { result ≡ is_typed self }
    {
        match self {
            Manner::Valued | Manner::LoweredTyped => true,
            Manner::Skeleton | Manner::Lowered => false,
        }
    }

    /// Returns what stands in front of the instruction's data in its extractor.
    pub fn taking_begin(self) -> &'static str
        ensures { result.now ≡ taking_begin self }
    {
        match self {
            Manner::Valued | Manner::LoweredTyped => typed_taker(),
            Manner::Skeleton => plain_taker(),
            Manner::Lowered => untyped_taker(),
        }
    }

    /// Returns what stands in front of the data in the rule that makes the instruction, if there is one.
    pub fn making_begin(self) -> Option<&'static str>
        ensures { option_map (λ begin. begin.now) result ≡ making_begin self }
    {
        match self {
            Manner::Valued => Some(typed_maker()),
            Manner::Skeleton => Some(plain_maker()),
            Manner::LoweredTyped | Manner::Lowered => None,
        }
    }
}

// How an optimizer takes an instruction; one with a list of values is left out.
fn opt_manner(has_list: bool, instruction: &Instruction) -> Option<Manner>
    ensures { result ≡ opt_case has_list instruction.now }
{
    if has_list {
        return None;
    }
    if instruction.value_results != 1 {
        return Some(Manner::Skeleton);
    }
    if instruction.can_trap || instruction.other_side_effects {
        return Some(Manner::Skeleton);
    }
    Some(Manner::Valued)
}

// How lowering takes an instruction.
fn lower_manner(has_list: bool, instruction: &Instruction) -> Option<Manner>
    ensures { result ≡ lower_case has_list instruction.now }
{
    if has_list || instruction.value_results == 0 {
        return Some(Manner::Lowered);
    }
    Some(Manner::LoweredTyped)
}

/// Tells how a file takes an instruction, if it does.
pub fn file_manner(
    file: InstructionFile,
    has_list: bool,
    instruction: &Instruction,
) -> Option<Manner>
    ensures { result ≡ file_case file has_list instruction.now }
{
    match file {
        InstructionFile::Opt => opt_manner(has_list, instruction),
        InstructionFile::Lower => lower_manner(has_list, instruction),
    }
}
