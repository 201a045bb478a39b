ghost use Rattle.std.specs.Prelude.{◌≡◌, ◌≤◌, ◌<◌, [], ◌∷◌, ◌++◌, ◌+◌, OnOk, OnErr};
ghost use Rattle.std.specs.Prelude.{map, length, take, drop};
ghost use Rattle.isle_printer.specs.Number.{glyph, numeral};
ghost use Rattle.isle_outside.specs.Directory.{Rose};
ghost use Rattle.isle_outside.specs.Sinks.{Took, TookPart};
ghost use Rattle.isle_core.specs.ErrorLines.{masked};
ghost use Rattle.isle_top.specs.Lines.{
  cause_end,
  unread_head,
  unread_line,
  bad_word_head,
  bad_word_line,
  unknown_isa_head,
  unknown_isa_end,
  unknown_isa_line,
  no_unit_head,
  no_unit_line,
  no_term_head,
  no_term_line,
  count_line,
  argument_head,
  argument_end,
  argument_line,
  answers_head,
  answers_line,
  bad_name_head,
  use_end,
  bad_name_line,
  unsupported_head,
  shape_end,
  unsupported_line,
};

use isle_codegen::NameUse;
use isle_core::{Failed, IoCause, Sink, write_all};
use isle_meta::Shape;

/// The output failed.
pub const WRITE_FAULT: &str = "isle: write fault\n";

/// Memory ran out.
pub const OUT_OF_MEMORY: &str = "isle: out of memory\n";

/// A line would go on.
pub const MISSING_WORD: &str = "isle: missing word\n";

// What stands after the name of a file that was not read: why, in words.
fn cause_end(cause: IoCause) -> &'static str
    ensures { result.now ≡ cause_end cause }
{
    match cause {
        IoCause::Fault => ": fault\n",
        IoCause::Absent => ": absent\n",
        IoCause::NotUtf8 => ": not utf-8\n",
        IoCause::TooLong => ": too long\n",
    }
}

// Returns what stands for the bytes from one on: `?` for a byte below 32, else all up to the next such byte.
fn piece_at(bytes: &[u8], start: usize) -> &[u8]
    requires { start < length bytes.now }
    ensures some { 0 < length result.now }
    ensures within { start + length result.now ≤ length bytes.now }
    ensures shown { map masked (take (length result.now) (drop start bytes.now)) ≡ result.now }
{
    if bytes[start] < 32 {
        return b"?";
    }
    let mut end = start + 1;
    while end < bytes.len() && bytes[end] >= 32 {
        end += 1;
    }
    &bytes[start..end]
}

// Writes a name, each byte below 32 as `?`. It takes no memory.
fn write_masked<S: Sink>(sink: &mut S, name: &str) -> Result<(), Failed>
    ensures ok { OnOk result (Took (S.taken sink.old) (S.taken sink.new) (map masked name.now)) }
    ensures part { OnErr result
        (TookPart (S.taken sink.old) (S.taken sink.new) (map masked name.now)) }
    ensures failed { OnErr result (Rose (S.faults sink.old) (S.faults sink.new)) }
    ensures later { S.faults sink.old ≤ S.faults sink.new }
{
    let bytes = name.as_bytes();
    let mut start = 0;
    while start < bytes.len() {
        let piece = piece_at(bytes, start);
        match write_all(sink, piece) {
            Ok(()) => start += piece.len(),
            Err(fault) => return Err(fault),
        }
    }
    Ok(())
}

// Writes a name, each byte below 32 as `?`, and what stands after it. It takes no memory.
fn write_name<S: Sink>(sink: &mut S, name: &str, end: &str) -> Result<(), Failed>
    ensures ok { OnOk result
        (Took (S.taken sink.old) (S.taken sink.new) (map masked name.now ++ end.now)) }
    ensures part { OnErr result
        (TookPart (S.taken sink.old) (S.taken sink.new) (map masked name.now ++ end.now)) }
    ensures failed { OnErr result (Rose (S.faults sink.old) (S.faults sink.new)) }
    ensures later { S.faults sink.old ≤ S.faults sink.new }
{
    match write_masked(sink, name) {
        Ok(()) => write_all(sink, end.as_bytes()),
        Err(fault) => Err(fault),
    }
}

/// Writes the line of a file that was not read. It takes no memory.
pub fn write_unread<S: Sink>(sink: &mut S, name: &str, cause: IoCause) -> Result<(), Failed>
    ensures ok { OnOk result
        (Took (S.taken sink.old) (S.taken sink.new) (unread_line name.now cause)) }
    ensures part { OnErr result
        (TookPart (S.taken sink.old) (S.taken sink.new) (unread_line name.now cause)) }
    ensures failed { OnErr result (Rose (S.faults sink.old) (S.faults sink.new)) }
    ensures later { S.faults sink.old ≤ S.faults sink.new }
{
    write_named(sink, unread_head(), name, cause_end(cause))
}

/// Writes the line of a name that may not be emitted, and of what it stands for. It takes no memory.
pub fn write_bad_name<S: Sink>(sink: &mut S, name: &str, usage: NameUse) -> Result<(), Failed>
    ensures ok { OnOk result
        (Took (S.taken sink.old) (S.taken sink.new) (bad_name_line name.now usage)) }
    ensures part { OnErr result
        (TookPart (S.taken sink.old) (S.taken sink.new) (bad_name_line name.now usage)) }
    ensures failed { OnErr result (Rose (S.faults sink.old) (S.faults sink.new)) }
    ensures later { S.faults sink.old ≤ S.faults sink.new }
{
    write_named(sink, bad_name_head(), name, use_end(usage))
}

// What stands after a row's name: its shape, in one word.
fn shape_end(shape: Shape) -> &'static str
    ensures { result.now ≡ shape_end shape }
{
    match shape {
        Shape::BadName => ": BadName\n",
        Shape::RepeatedName => ": RepeatedName\n",
        Shape::ReservedName => ": ReservedName\n",
        Shape::TyOperand => ": TyOperand\n",
        Shape::FormatIndex => ": FormatIndex\n",
        Shape::ValueCount => ": ValueCount\n",
        Shape::BlockCount => ": BlockCount\n",
        Shape::RawBlockCount => ": RawBlockCount\n",
        Shape::ImmCount => ": ImmCount\n",
        Shape::ImmType => ": ImmType\n",
        Shape::ImmShape => ": ImmShape\n",
        Shape::NoVarargs => ": NoVarargs\n",
        Shape::NoTypevar => ": NoTypevar\n",
        Shape::WrittenImm => ": WrittenImm\n",
        Shape::AlignedMem => ": AlignedMem\n",
        Shape::WrittenOperands => ": WrittenOperands\n",
        Shape::ImplicitOperand => ": ImplicitOperand\n",
        Shape::AlternateWithoutXmm => ": AlternateWithoutXmm\n",
        Shape::BinaryOperands => ": BinaryOperands\n",
        Shape::Results => ": Results\n",
        Shape::FieldType => ": FieldType\n",
    }
}

// What stands before the name of a row that is not supported.
#[tactic(auto, unfolding(crate::specs::Lines::unsupported_head))]
fn unsupported_head() -> &'static str
    ensures { result.now ≡ unsupported_head }
{
    "isle: unsupported "
}

/// Writes the line of a row that is not supported, and of its shape. It takes no memory.
pub fn write_unsupported<S: Sink>(sink: &mut S, row: &str, shape: Shape) -> Result<(), Failed>
    ensures ok { OnOk result
        (Took (S.taken sink.old) (S.taken sink.new) (unsupported_line row.now shape)) }
    ensures part { OnErr result
        (TookPart (S.taken sink.old) (S.taken sink.new) (unsupported_line row.now shape)) }
    ensures failed { OnErr result (Rose (S.faults sink.old) (S.faults sink.new)) }
    ensures later { S.faults sink.old ≤ S.faults sink.new }
{
    write_named(sink, unsupported_head(), row, shape_end(shape))
}

/// Writes the line of a word with which no line goes on. It takes no memory.
pub fn write_bad_word<S: Sink>(sink: &mut S, word: &str) -> Result<(), Failed>
    ensures ok { OnOk result (Took (S.taken sink.old) (S.taken sink.new) (bad_word_line word.now)) }
    ensures part { OnErr result
        (TookPart (S.taken sink.old) (S.taken sink.new) (bad_word_line word.now)) }
    ensures failed { OnErr result (Rose (S.faults sink.old) (S.faults sink.new)) }
    ensures later { S.faults sink.old ≤ S.faults sink.new }
{
    write_named(sink, bad_word_head(), word, "\n")
}

// What stands before the name of a unit that isn't listed.
#[tactic(auto, unfolding(crate::specs::Lines::no_unit_head))]
fn no_unit_head() -> &'static str
    ensures { result.now ≡ no_unit_head }
{
    "isle: no unit "
}

/// Writes that no unit has the name, with each byte below 32 as `?`. It takes no memory.
pub fn write_no_unit<S: Sink>(sink: &mut S, unit: &str) -> Result<(), Failed>
    ensures ok { OnOk result (Took (S.taken sink.old) (S.taken sink.new) (no_unit_line unit.now)) }
    ensures part { OnErr result
        (TookPart (S.taken sink.old) (S.taken sink.new) (no_unit_line unit.now)) }
    ensures failed { OnErr result (Rose (S.faults sink.old) (S.faults sink.new)) }
    ensures later { S.faults sink.old ≤ S.faults sink.new }
{
    write_named(sink, no_unit_head(), unit, "\n")
}

// What stands before a word that is no target.
#[tactic(auto, unfolding(crate::specs::Lines::unknown_isa_head))]
fn unknown_isa_head() -> &'static str
    ensures { result.now ≡ unknown_isa_head }
{
    "no supported isa found for arch `"
}

// What stands after it.
#[tactic(auto, unfolding(crate::specs::Lines::unknown_isa_end))]
fn unknown_isa_end() -> &'static str
    ensures { result.now ≡ unknown_isa_end }
{
    "`\n"
}

/// Writes that no target has the name, or stands for the architecture of this word, with each byte below 32 as `?`. It
/// takes no memory.
pub fn write_unknown_isa<S: Sink>(sink: &mut S, word: &str) -> Result<(), Failed>
    ensures ok { OnOk result
        (Took (S.taken sink.old) (S.taken sink.new) (unknown_isa_line word.now)) }
    ensures part { OnErr result
        (TookPart (S.taken sink.old) (S.taken sink.new) (unknown_isa_line word.now)) }
    ensures failed { OnErr result (Rose (S.faults sink.old) (S.faults sink.new)) }
    ensures later { S.faults sink.old ≤ S.faults sink.new }
{
    write_named(sink, unknown_isa_head(), word, unknown_isa_end())
}

/// Writes that no term with rules has the name, with each byte below 32 as `?`. It takes no memory.
pub fn write_no_term<S: Sink>(sink: &mut S, term: &str) -> Result<(), Failed>
    ensures ok { OnOk result (Took (S.taken sink.old) (S.taken sink.new) (no_term_line term.now)) }
    ensures part { OnErr result
        (TookPart (S.taken sink.old) (S.taken sink.new) (no_term_line term.now)) }
    ensures failed { OnErr result (Rose (S.faults sink.old) (S.faults sink.new)) }
    ensures later { S.faults sink.old ≤ S.faults sink.new }
{
    write_named(sink, no_term_head(), term, "\n")
}

/// Writes that the term takes another number of arguments. It takes no memory.
pub fn write_argument_count<S: Sink>(sink: &mut S) -> Result<(), Failed>
    ensures ok { OnOk result (Took (S.taken sink.old) (S.taken sink.new) count_line) }
    ensures part { OnErr result (TookPart (S.taken sink.old) (S.taken sink.new) count_line) }
    ensures failed { OnErr result (Rose (S.faults sink.old) (S.faults sink.new)) }
    ensures later { S.faults sink.old ≤ S.faults sink.new }
{
    write_all(sink, count_line().as_bytes())
}

/// Writes that the argument of this number is of another type. It takes no memory.
pub fn write_argument<S: Sink>(sink: &mut S, argument: usize) -> Result<(), Failed>
    ensures ok { OnOk result (Took (S.taken sink.old) (S.taken sink.new) (argument_line argument)) }
    ensures part { OnErr result
        (TookPart (S.taken sink.old) (S.taken sink.new) (argument_line argument)) }
    ensures failed { OnErr result (Rose (S.faults sink.old) (S.faults sink.new)) }
    ensures later { S.faults sink.old ≤ S.faults sink.new }
{
    write_numbered(sink, argument_head(), argument, argument_end())
}

/// Writes the place where the answers go wrong. It takes no memory.
pub fn write_bad_answers<S: Sink>(sink: &mut S, place: usize) -> Result<(), Failed>
    ensures ok { OnOk result (Took (S.taken sink.old) (S.taken sink.new) (answers_line place)) }
    ensures part { OnErr result
        (TookPart (S.taken sink.old) (S.taken sink.new) (answers_line place)) }
    ensures failed { OnErr result (Rose (S.faults sink.old) (S.faults sink.new)) }
    ensures later { S.faults sink.old ≤ S.faults sink.new }
{
    write_numbered(sink, answers_head(), place, "\n")
}

// Writes a fixed text, a name with each byte below 32 as `?`, and what stands after it. It takes no memory.
fn write_named<S: Sink>(sink: &mut S, head: &str, name: &str, end: &str) -> Result<(), Failed>
    ensures ok { OnOk result
        (Took (S.taken sink.old) (S.taken sink.new)
        (head.now ++ (map masked name.now ++ end.now))) }
    ensures part { OnErr result
        (TookPart (S.taken sink.old) (S.taken sink.new)
        (head.now ++ (map masked name.now ++ end.now))) }
    ensures failed { OnErr result (Rose (S.faults sink.old) (S.faults sink.new)) }
    ensures later { S.faults sink.old ≤ S.faults sink.new }
{
    match write_all(sink, head.as_bytes()) {
        Ok(()) => write_name(sink, name, end),
        Err(fault) => Err(fault),
    }
}

// Writes a number between two fixed texts. It takes no memory.
fn write_numbered<S: Sink>(sink: &mut S, head: &str, number: usize, end: &str) -> Result<(), Failed>
    ensures ok { OnOk result
        (Took (S.taken sink.old) (S.taken sink.new) (head.now ++ (numeral 10 number ++ end.now))) }
    ensures part { OnErr result
        (TookPart (S.taken sink.old) (S.taken sink.new)
        (head.now ++ (numeral 10 number ++ end.now))) }
    ensures failed { OnErr result (Rose (S.faults sink.old) (S.faults sink.new)) }
    ensures later { S.faults sink.old ≤ S.faults sink.new }
{
    match write_all(sink, head.as_bytes()) {
        Ok(()) => write_count(sink, number, end),
        Err(fault) => Err(fault),
    }
}

// Writes a number, and what stands after it. It takes no memory.
fn write_count<S: Sink>(sink: &mut S, number: usize, end: &str) -> Result<(), Failed>
    ensures ok { OnOk result
        (Took (S.taken sink.old) (S.taken sink.new) (numeral 10 number ++ end.now)) }
    ensures part { OnErr result
        (TookPart (S.taken sink.old) (S.taken sink.new) (numeral 10 number ++ end.now)) }
    ensures failed { OnErr result (Rose (S.faults sink.old) (S.faults sink.new)) }
    ensures later { S.faults sink.old ≤ S.faults sink.new }
{
    match write_number(sink, number) {
        Ok(()) => write_all(sink, end.as_bytes()),
        Err(fault) => Err(fault),
    }
}

/// Writes a number's decimal digits, the highest first and with no zero before them; 0 is one digit. It takes no
/// memory.
pub fn write_number<S: Sink>(sink: &mut S, number: usize) -> Result<(), Failed>
    ensures ok { OnOk result (Took (S.taken sink.old) (S.taken sink.new) (numeral 10 number)) }
    ensures part { OnErr result
        (TookPart (S.taken sink.old) (S.taken sink.new) (numeral 10 number)) }
    ensures failed { OnErr result (Rose (S.faults sink.old) (S.faults sink.new)) }
    ensures later { S.faults sink.old ≤ S.faults sink.new }
{
    if number < 10 {
        return write_digit(sink, number);
    }
    match write_number(sink, number / 10) {
        Ok(()) => write_digit(sink, number % 10),
        Err(fault) => Err(fault),
    }
}

// Writes one decimal digit.
fn write_digit<S: Sink>(sink: &mut S, digit: usize) -> Result<(), Failed>
    requires { digit < 10 }
    ensures ok { OnOk result (Took (S.taken sink.old) (S.taken sink.new) (glyph digit ∷ [])) }
    ensures part { OnErr result
        (TookPart (S.taken sink.old) (S.taken sink.new) (glyph digit ∷ [])) }
    ensures failed { OnErr result (Rose (S.faults sink.old) (S.faults sink.new)) }
    ensures later { S.faults sink.old ≤ S.faults sink.new }
{
    let piece = [b'0' + digit as u8];
    write_all(sink, &piece)
}

// What stands before the name of a file that was not read.
#[tactic(auto, unfolding(crate::specs::Lines::unread_head))]
fn unread_head() -> &'static str
    ensures { result.now ≡ unread_head }
{
    "isle: cannot read file "
}

// What stands before a name that may not be emitted.
#[tactic(auto, unfolding(crate::specs::Lines::bad_name_head))]
fn bad_name_head() -> &'static str
    ensures { result.now ≡ bad_name_head }
{
    "isle: bad name "
}

// What stands after it: what it stands for.
fn use_end(usage: NameUse) -> &'static str
    ensures { result.now ≡ use_end usage }
{
    match usage {
        NameUse::File => ": File\n",
        NameUse::TypeName => ": TypeName\n",
        NameUse::Variant => ": Variant\n",
        NameUse::Field => ": Field\n",
        NameUse::Function => ": Function\n",
        NameUse::Term => ": Term\n",
        NameUse::Constant => ": Constant\n",
    }
}

// What stands before a word with which no line goes on.
#[tactic(auto, unfolding(crate::specs::Lines::bad_word_head))]
fn bad_word_head() -> &'static str
    ensures { result.now ≡ bad_word_head }
{
    "isle: bad word "
}

// What stands before the name of a term that has no rules.
#[tactic(auto, unfolding(crate::specs::Lines::no_term_head))]
fn no_term_head() -> &'static str
    ensures { result.now ≡ no_term_head }
{
    "isle: no term "
}

// The line of another number of arguments.
#[tactic(auto, unfolding(crate::specs::Lines::count_line))]
fn count_line() -> &'static str
    ensures { result.now ≡ count_line }
{
    "isle: argument count\n"
}

// What stands before the number of an argument.
#[tactic(auto, unfolding(crate::specs::Lines::argument_head))]
fn argument_head() -> &'static str
    ensures { result.now ≡ argument_head }
{
    "isle: argument "
}

// What stands after the number of an argument.
#[tactic(auto, unfolding(crate::specs::Lines::argument_end))]
fn argument_end() -> &'static str
    ensures { result.now ≡ argument_end }
{
    " has another type\n"
}

// What stands before the place where answers go wrong.
#[tactic(auto, unfolding(crate::specs::Lines::answers_head))]
fn answers_head() -> &'static str
    ensures { result.now ≡ answers_head }
{
    "isle: bad answers at "
}
