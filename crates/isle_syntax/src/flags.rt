ghost use Rattle.std.specs.Prelude.{◌≡◌, option_map};
ghost use Rattle.isle_reading.specs.Combinators.{next_word};
ghost use Rattle.isle_reading.specs.Views.{left, Reads};
ghost use Rattle.isle_grammar.specs.Grammar.{no_flags, with_flag, no_marks, with_mark};
ghost use Rattle.isle_grammar.specs.Reading.{read_flags, read_marks};
ghost use Rattle.isle_syntax.specs.ReadingViews.{flags_seen, marks_seen};

use isle_reading::{Expected, Fail, Tokens};

/// The flags of a `decl`.
#[derive(Clone, Copy)]
pub struct Flags {
    pub pure: bool,
    pub multi: bool,
    pub partial: bool,
    pub recursive: bool,
}

/// The words after a type's name.
#[derive(Clone, Copy)]
pub struct Marks {
    pub is_extern: bool,
    pub is_nodebug: bool,
}

// The flags with that of the word, which is not there yet.
fn with_flag(flags: Flags, word: &str) -> Option<Flags>
    ensures { option_map flags_seen result ≡ with_flag (flags_seen flags) word.now }
{
    match word {
        "pure" if !flags.pure => Some(Flags {
            pure: true,
            ..flags
        }),
        "multi" if !flags.multi => Some(Flags {
            multi: true,
            ..flags
        }),
        "partial" if !flags.partial => Some(Flags {
            partial: true,
            ..flags
        }),
        "rec" if !flags.recursive => Some(Flags {
            recursive: true,
            ..flags
        }),
        _ => None,
    }
}

// The flags with that which is next.
#[tactic(auto, using(isle_reading::proofs::Steps::next))]
fn next_flag(tokens: &Tokens<'_>, flags: Flags) -> Option<Flags>
    ensures { option_map flags_seen result
        ≡ next_word (with_flag (flags_seen flags)) (left tokens.now) }
{
    with_flag(flags, tokens.word()?)
}

/// Reads the flags of a `decl`.
#[tactic(auto, using(isle_reading::proofs::Steps::states), unfolding(isle_grammar::specs::Reading::read_flags))]
pub fn read_flags(tokens: &mut Tokens<'_>) -> Result<Flags, Fail>
    ensures { Reads flags_seen result read_flags (left tokens.old) (left tokens.new) }
{
    let mut flags = Flags {
        pure: false,
        multi: false,
        partial: false,
        recursive: false,
    };
    for _ in 0..4usize {
        if tokens.len() == 0 {
            return Err(tokens.miss(Expected::Name));
        }
        match next_flag(tokens, flags) {
            Some(more) => {
                tokens.skip();
                flags = more;
            }
            None => return Ok(flags),
        }
    }
    Ok(flags)
}

// The marks with that of the word, which is not there yet.
fn with_mark(marks: Marks, word: &str) -> Option<Marks>
    ensures { option_map marks_seen result ≡ with_mark (marks_seen marks) word.now }
{
    match word {
        "extern" if !marks.is_extern => Some(Marks {
            is_extern: true,
            ..marks
        }),
        "nodebug" if !marks.is_nodebug => Some(Marks {
            is_nodebug: true,
            ..marks
        }),
        _ => None,
    }
}

// The marks with that which is next.
#[tactic(auto, using(isle_reading::proofs::Steps::next))]
fn next_mark(tokens: &Tokens<'_>, marks: Marks) -> Option<Marks>
    ensures { option_map marks_seen result
        ≡ next_word (with_mark (marks_seen marks)) (left tokens.now) }
{
    with_mark(marks, tokens.word()?)
}

/// Reads the words after a type's name.
#[tactic(auto, using(isle_reading::proofs::Steps::states), unfolding(isle_grammar::specs::Reading::read_marks))]
pub fn read_marks(tokens: &mut Tokens<'_>) -> Result<Marks, Fail>
    ensures { Reads marks_seen result read_marks (left tokens.old) (left tokens.new) }
{
    let mut marks = Marks {
        is_extern: false,
        is_nodebug: false,
    };
    for _ in 0..2usize {
        if tokens.len() == 0 {
            return Err(tokens.miss(Expected::Body));
        }
        match next_mark(tokens, marks) {
            Some(more) => {
                tokens.skip();
                marks = more;
            }
            None => return Ok(marks),
        }
    }
    Ok(marks)
}
