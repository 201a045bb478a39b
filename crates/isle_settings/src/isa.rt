//! Targets.

ghost use Rattle.std.specs.Prelude.{◌≡◌};
ghost use Rattle.isle_settings.specs.Isas.{isa_name, isa_named, isa_of_arch, isas};

use std::fmt;

/// A target.
#[derive(Clone, Copy, Debug, PartialEq, Eq)]
pub enum Isa {
    X86,
    Arm64,
    S390x,
    Riscv64,
    Pulley32,
    Pulley64,
}

impl Isa {
    /// Returns the target of this name, if there is one.
    #[tactic(auto, unfolding(crate::specs::Isas::isa_named))]
    pub fn from_name(name: &str) -> Option<Isa>
        ensures { result ≡ isa_named name.now }
    {
        match name {
            "x86" => Some(Isa::X86),
            "arm64" => Some(Isa::Arm64),
            "s390x" => Some(Isa::S390x),
            "riscv64" => Some(Isa::Riscv64),
            "pulley32" => Some(Isa::Pulley32),
            "pulley64" => Some(Isa::Pulley64),
            _ => None,
        }
    }

    /// Returns the target that stands for the architecture of this word, as `x86_64`, if there is one.
    #[tactic(auto, unfolding(crate::specs::Isas::isa_of_arch))]
    pub fn from_arch(arch: &str) -> Option<Isa>
        ensures { result ≡ isa_of_arch arch.now }
    {
        match arch {
            "x86_64" | "i386" | "i586" | "i686" => Some(Isa::X86),
            "aarch64" => Some(Isa::Arm64),
            "s390x" => Some(Isa::S390x),
            "riscv64" | "riscv64gc" | "riscv64imac" => Some(Isa::Riscv64),
            "pulley32" => Some(Isa::Pulley32),
            "pulley64" => Some(Isa::Pulley64),
            _ => None,
        }
    }

    /// Returns the six targets, in order.
    pub fn all() -> &'static [Isa]
        ensures { result.now ≡ isas }
    {
        &ALL
    }

    /// Returns the target's name, which is also how it is shown.
    pub fn name(self) -> &'static str
        ensures { result.now ≡ isa_name self }
    {
        match self {
            Isa::X86 => "x86",
            Isa::Arm64 => "arm64",
            Isa::S390x => "s390x",
            Isa::Riscv64 => "riscv64",
            Isa::Pulley32 => "pulley32",
            Isa::Pulley64 => "pulley64",
        }
    }
}

/// The targets, in order.
const ALL: [Isa; 6] = [
    Isa::X86,
    Isa::Arm64,
    Isa::S390x,
    Isa::Riscv64,
    Isa::Pulley32,
    Isa::Pulley64,
];

impl fmt::Display for Isa {
    ghost use Rattle.std.specs.Prelude.{Some};
    ghost use Rattle.isle_settings.specs.Isas.{isa_name};

    ghost output = { λ target. Some (isa_name target) };

    fn fmt<W: fmt::Write>(&self, f: &mut fmt::Formatter<W>) -> fmt::Result {
        f.write_str(self.name())
    }
}
