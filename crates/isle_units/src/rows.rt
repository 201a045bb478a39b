//! The table of units.

/// A unit: its name, its output, and its inputs: those that are written, and those that are generated.
#[derive(Clone, Copy)]
pub struct UnitRow {
    pub name: &'static str,
    pub output: &'static str,
    pub tracked: &'static [&'static str],
    pub untracked: &'static [&'static str],
}

/// The units, in order.
pub const UNITS: [UnitRow; 6] = [
    UnitRow {
        name: "opt",
        output: "isle_opt.rs",
        tracked: &[
            "src/prelude.isle",
            "src/prelude_opt.isle",
            "src/opts/arithmetic.isle",
            "src/opts/bitops.isle",
            "src/opts/cprop.isle",
            "src/opts/extends.isle",
            "src/opts/icmp.isle",
            "src/opts/remat.isle",
            "src/opts/selects.isle",
            "src/opts/shifts.isle",
            "src/opts/skeleton.isle",
            "src/opts/spaceship.isle",
            "src/opts/spectre.isle",
            "src/opts/vector.isle",
        ],
        untracked: &["numerics.isle", "clif_opt.isle"],
    },
    UnitRow {
        name: "x64",
        output: "isle_x64.rs",
        tracked: &[
            "src/prelude.isle",
            "src/prelude_lower.isle",
            "src/isa/x64/inst.isle",
            "src/isa/x64/lower.isle",
        ],
        untracked: &["numerics.isle", "clif_lower.isle", "assembler.isle"],
    },
    UnitRow {
        name: "aarch64",
        output: "isle_aarch64.rs",
        tracked: &[
            "src/prelude.isle",
            "src/prelude_lower.isle",
            "src/isa/aarch64/inst.isle",
            "src/isa/aarch64/inst_neon.isle",
            "src/isa/aarch64/lower.isle",
            "src/isa/aarch64/lower_dynamic_neon.isle",
        ],
        untracked: &["numerics.isle", "clif_lower.isle"],
    },
    UnitRow {
        name: "s390x",
        output: "isle_s390x.rs",
        tracked: &[
            "src/prelude.isle",
            "src/prelude_lower.isle",
            "src/isa/s390x/inst.isle",
            "src/isa/s390x/lower.isle",
        ],
        untracked: &["numerics.isle", "clif_lower.isle"],
    },
    UnitRow {
        name: "riscv64",
        output: "isle_riscv64.rs",
        tracked: &[
            "src/prelude.isle",
            "src/prelude_lower.isle",
            "src/isa/riscv64/inst.isle",
            "src/isa/riscv64/inst_vector.isle",
            "src/isa/riscv64/lower.isle",
        ],
        untracked: &["numerics.isle", "clif_lower.isle"],
    },
    UnitRow {
        name: "pulley",
        output: "isle_pulley_shared.rs",
        tracked: &[
            "src/prelude.isle",
            "src/prelude_lower.isle",
            "src/isa/pulley_shared/inst.isle",
            "src/isa/pulley_shared/lower.isle",
        ],
        untracked: &["numerics.isle", "pulley_gen.isle", "clif_lower.isle"],
    },
];
