//! The constructors of an instruction's terms.

ghost use Rattle.std.specs.Prelude.{◌≡◌};
ghost use Rattle.isle_assembler_rows.specs.Constructors.{conversion, is_in_memory, place_type};
ghost use Rattle.isle_assembler_rows.specs.Constructors.{result_type, suffix, temporary};

/// What the term of an instruction gives.
#[derive(Clone, Copy)]
pub enum Constructor {
    /// Nothing; the result is in memory.
    RetMemorySideEffect,
    /// Nothing.
    NoReturnSideEffect,
    /// A general register.
    RetGpr,
    /// A vector register.
    RetXmm,
    /// Two registers.
    RetValueRegs,
    /// Flags.
    ProducesFlagsSideEffect,
    /// A general register, by flags that are read.
    ConsumesFlagsReturnsGpr,
}

impl Constructor {
    /// Tells whether the result is left in memory.
    pub fn is_in_memory(self) -> bool
        ensures { result ≡ is_in_memory self }
    {
        match self {
            Constructor::RetMemorySideEffect => true,
            Constructor::NoReturnSideEffect => false,
            Constructor::RetGpr | Constructor::RetXmm | Constructor::RetValueRegs => false,
            Constructor::ProducesFlagsSideEffect => false,
            Constructor::ConsumesFlagsReturnsGpr => false,
        }
    }

    /// Returns what ends the name of the term.
    pub fn suffix(self) -> &'static str
        ensures { result.now ≡ suffix self }
    {
        if self.is_in_memory() { "_mem" } else { "" }
    }

    /// Returns the type of the term.
    pub fn result_type(self) -> &'static str
        ensures { result.now ≡ result_type self }
    {
        match self {
            Constructor::RetMemorySideEffect => "SideEffectNoResult",
            Constructor::NoReturnSideEffect => "SideEffectNoResult",
            Constructor::RetGpr => "Gpr",
            Constructor::RetXmm => "Xmm",
            Constructor::RetValueRegs => "ValueRegs",
            Constructor::ProducesFlagsSideEffect => "ProducesFlags",
            Constructor::ConsumesFlagsReturnsGpr => "ConsumesFlags",
        }
    }

    /// Returns the term that turns what the raw term gives into that type.
    pub fn conversion(self) -> &'static str
        ensures { result.now ≡ conversion self }
    {
        match self {
            Constructor::RetMemorySideEffect => "defer_side_effect",
            Constructor::NoReturnSideEffect => "defer_side_effect",
            Constructor::RetGpr => "emit_ret_gpr",
            Constructor::RetXmm => "emit_ret_xmm",
            Constructor::RetValueRegs => "emit_ret_value_regs",
            Constructor::ProducesFlagsSideEffect => "asm_produce_flags_side_effect",
            Constructor::ConsumesFlagsReturnsGpr => "asm_consumes_flags_returns_gpr",
        }
    }

    /// Returns the type of a parameter that is read and written, and may lie in a register or in memory.
    pub fn place_type(self) -> &'static str
        ensures { result.now ≡ place_type self }
    {
        match self {
            Constructor::RetMemorySideEffect => "SyntheticAmode",
            Constructor::NoReturnSideEffect | Constructor::ProducesFlagsSideEffect => "Gpr",
            Constructor::RetGpr | Constructor::ConsumesFlagsReturnsGpr => "Gpr",
            Constructor::RetXmm => "Xmm",
            Constructor::RetValueRegs => "ValueRegs",
        }
    }

    /// Returns the term that makes a register for an operand that is only written.
    pub fn temporary(self) -> &'static str
        ensures { result.now ≡ temporary self }
    {
        match self {
            Constructor::RetXmm => "temp_writable_xmm",
            Constructor::RetMemorySideEffect | Constructor::NoReturnSideEffect => {
                "temp_writable_gpr"
            }
            Constructor::RetGpr | Constructor::RetValueRegs => "temp_writable_gpr",
            Constructor::ProducesFlagsSideEffect => "temp_writable_gpr",
            Constructor::ConsumesFlagsReturnsGpr => "temp_writable_gpr",
        }
    }
}
