//! What the program says of itself.

ghost use Rattle.std.specs.Prelude.{◌≡◌};
ghost use Rattle.isle_top.specs.About.{help_text, version_text};

/// Returns what `--help` writes: every form of line, with what it does and an example.
#[tactic(auto, unfolding(crate::specs::About::help_text))]
pub fn help() -> &'static str
    ensures { result.now ≡ help_text }
{
    "isle: a code generator for ISLE, the language of instruction selectors\n\
\n\
\x20 isle compile [OPTION..] NAME..\n\
\x20     Compiles rule files and writes the Rust text of their terms.\n\
\x20     isle compile examples/constants.isle\n\
\x20 isle build [OPTION..] UNIT\n\
\x20     Builds a unit: compiles its files and those that are made of tables, and writes the Rust text.\n\
\x20     isle build opt\n\
\x20 isle run [--trace] [OPTION..] SOURCE TERM VALUES [--answers FILE]\n\
\x20     Runs the function of a term of a rule file at the values, and writes how it ends and what it calls.\n\
\x20     FILE says what calls answer. SOURCE is a file, or unit: and a unit's name. --trace writes the text and\n\
\x20     all calls.\n\
\x20     isle run examples/calls.isle lower_sum '()' --answers examples/calls.answers\n\
\x20 isle prelude KIND\n\
\x20     Writes a prelude: rules, or Rust for them. KIND is numerics, numerics-rust, clif-opt, clif-lower,\n\
\x20     assembler, assembler-rust, pulley or pulley-rust.\n\
\x20     isle prelude clif-opt\n\
\x20 isle units\n\
\x20     Lists the units, each with its files.\n\
\x20     isle units\n\
\x20 isle isa TARGET\n\
\x20     Writes the settings of a target.\n\
\x20     isle isa x86\n\
\x20 isle sample N\n\
\x20     Compiles a sample of N terms, 1 to 10000, and writes how many functions, rules and matches it has.\n\
\x20     isle sample 8\n\
\x20 isle --help\n\
\x20     Writes this text.\n\
\x20     isle --help\n\
\x20 isle --version\n\
\x20     Writes the program's name and version.\n\
\x20     isle --version\n\
\n\
OPTION is --no-allow, which leaves the pragmas out; --log, which puts a log line before each result; --prefix\n\
P=NAME, which prints NAME in place of P where the name of a file begins with it; --max-returns N, the length at\n\
which the list of a term that answers several times is full, 100 if none is given; or --split, which puts each\n\
match arm of such a term that has more steps than the N of --threshold N, 256 if none is given, into a closure.\n\
No words mean: isle compile first.isle\n"
}

/// Returns what `--version` writes: the program's name and version.
#[tactic(auto, unfolding(crate::specs::About::version_text))]
pub fn version() -> &'static str
    ensures { result.now ≡ version_text }
{
    "isle 0.6.0\n"
}
