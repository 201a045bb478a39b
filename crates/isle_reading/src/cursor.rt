ghost use Rattle.std.specs.Prelude.{◌≡◌, ℕ, ◌-◌, ◌<◌, IfOk, Some, Err, length, drop};
ghost use Rattle.std.specs.Prelude.{option_map, slice_get};
ghost use Rattle.std.specs.Str.{IsUtf8};
ghost use Rattle.std.proofs.Props.{props};
ghost use Rattle.isle_lexer.specs.Ahead.{ahead, AreCutsAhead};
ghost use Rattle.isle_lexer.specs.Cuts.{IsCut-prop};
ghost use Rattle.isle_lexer.specs.Lexeme.{lexemes};
ghost use Rattle.isle_lexer.specs.Token.{unclosed, IsClosed};
ghost use Rattle.isle_lexer.specs.TokenViews.{token_seen};
ghost use Rattle.isle_reading.specs.Combinators.{read_open, read_close, next_word, place};
ghost use Rattle.isle_reading.specs.Nesting.{most_open};
ghost use Rattle.isle_reading.specs.Places.{first_place};

use isle_lexer::{Token, counted, token_from};
use std::alloc::{AllocError, AllocFailed};

/// How many parentheses and `@` may be open at once.
const MOST_OPEN: usize = 256;

/// Returns how many of them may be open inside the outermost parentheses.
#[tactic(auto, unfolding(crate::specs::Nesting::most_open))]
pub fn most_inside() -> usize
    ensures { result ≡ most_open - 1 }
{
    MOST_OPEN - 1
}

/// Why nothing was read.
#[derive(Clone, Copy, Debug, PartialEq, Eq)]
pub enum Fail {
    /// So many tokens are left where the first one fits nothing.
    At(usize),
    Memory,
}

impl From<AllocError> for Fail {
    ghost use Rattle.isle_reading.specs.declared.cursor.Fail.TheVariants.{Memory};

    ghost from_gives = { λ _ e. e ≡ Memory };

    fn from(_: AllocError) -> Self {
        Fail::Memory
    }
}

impl<T: Drop> From<AllocFailed<T>> for Fail {
    ghost use Rattle.isle_reading.specs.declared.cursor.Fail.TheVariants.{Memory};

    ghost from_gives = { λ _ e. e ≡ Memory };

    fn from(_: AllocFailed<T>) -> Self {
        Fail::Memory
    }
}

/// What may stand where reading stops, as words for the user: no clause speaks of it.
#[derive(Clone, Copy, Debug, PartialEq, Eq)]
pub enum Expected {
    /// A `(`.
    Open,
    /// A `)`.
    Close,
    /// A word that begins a definition.
    Head,
    Definition,
    Name,
    /// The name of a type.
    Type,
    /// What a type is declared as.
    Body,
    Field,
    Variant,
    Pattern,
    Expression,
    /// A `$` and a name.
    Constant,
    /// The second word of an `extern`.
    Keyword,
    /// What opens nothing, since as many are open as may be.
    Shallower,
    /// The end of a comment.
    CommentEnd,
    /// Something else.
    Other,
}

/// The tokens of a text that are still to be read, found one by one; also what was expected last where reading stopped.
#[derive(Clone, Copy, Debug)]
pub struct Tokens<'t> {
    text: &'t str,
    /// The next token, and the place after it.
    next: Option<(Token<'t>, usize)>,
    /// How many tokens are left.
    len: usize,
    expected: Expected,
    pub ghost counted: { len ≡ length (ahead text.now next) },
    pub ghost cuts: { AreCutsAhead text.now next } by { Prim.hlevel (props, IsCut-prop) },
}

impl<'t> Tokens<'t> {
    ghost use Rattle.isle_reading.specs.Views.{left, opens, closes, signs, Reads};
    ghost use Rattle.isle_reading.specs.declared.cursor.Fail.TheVariants.{At};

    /// Begins before the first token of a text. Err gives the start of a comment that never ends, the outermost one's.
    pub fn new(text: &'t str) -> Result<Tokens<'t>, usize>
        ensures tokens { IfOk result (λ tokens. left tokens ≡ lexemes text.now) }
        ensures closed { IfOk result (λ tokens. IsClosed text.now) }
        ensures unclosed { (at : ℕ) → result ≡ Err at → unclosed text.now ≡ Some at }
        ensures utf8 { IsUtf8 text.now }
    {
        let (len, unclosed) = counted(text);
        match unclosed {
            Some(at) => Err(at),
            None => Ok(Tokens {
                text,
                next: token_from(text, 0),
                len,
                expected: Expected::Other,
            }),
        }
    }

    /// Returns how many tokens are still to be read.
    pub fn len(&self) -> usize
        ensures { result ≡ length (left self.now) }
    {
        self.len
    }

    /// Returns the next token.
    pub fn token(&self) -> Option<Token<'t>>
        ensures { option_map token_seen result ≡ slice_get (left self.now) 0 }
    {
        match self.next {
            Some((token, _)) => Some(token),
            None => None,
        }
    }

    /// Goes on after the next token.
    pub fn skip(&mut self)
        requires { 0 < length (left self.old) }
        ensures { left self.new ≡ drop 1 (left self.old) }
    {
        if let Some((_, after)) = self.next {
            self.len -= 1;
            self.next = token_from(self.text, after);
        }
    }

    /// Returns the cursor where so many tokens are left, or here if fewer are.
    pub fn at_left(&self, count: usize) -> Tokens<'t>
        ensures { left result ≡ drop (length (left self.now) - count) (left self.now) }
    {
        let mut met = *self;
        while met.len > count {
            met.skip();
        }
        met
    }

    /// Returns the place of the next token in a text of length `end`.
    pub fn place(&self, end: usize) -> usize
        ensures { result ≡ first_place (left self.now) end }
    {
        match self.next {
            Some((token, _)) => place(token),
            None => end,
        }
    }

    /// Returns the place after the next token, or the length of the text.
    pub fn token_end(&self) -> usize {
        match self.next {
            Some((_, after)) => after,
            None => self.text.len(),
        }
    }

    /// Returns the failure that reading stops here, and notes what may stand here.
    pub fn miss(&mut self, expected: Expected) -> Fail
        ensures { result ≡ At (length (left self.old)) }
    {
        self.expected = expected;
        Fail::At(self.len())
    }

    /// Returns what was expected where reading stopped last.
    pub fn expected(&self) -> Expected {
        self.expected
    }

    /// Returns a word that is next.
    pub fn word(&self) -> Option<&'t str>
        ensures { option_map (λ word. word.now) result ≡ next_word (λ w. Some w) (left self.now) }
    {
        match self.token() {
            Some(Token::Word(_, word)) => Some(word),
            _ => None,
        }
    }

    /// Returns the place of an opening parenthesis that is next.
    pub fn opens(&self) -> Option<usize>
        ensures { result ≡ opens (left self.now) }
    {
        match self.token() {
            Some(Token::Open(at)) => Some(at),
            _ => None,
        }
    }

    /// Returns the place of a closing parenthesis that is next.
    pub fn closes(&self) -> Option<usize>
        ensures { result ≡ closes (left self.now) }
    {
        match self.token() {
            Some(Token::Close(at)) => Some(at),
            _ => None,
        }
    }

    /// Returns the place of an `@` that is next.
    pub fn signs(&self) -> Option<usize>
        ensures { result ≡ signs (left self.now) }
    {
        match self.token() {
            Some(Token::At(at)) => Some(at),
            _ => None,
        }
    }

    /// Returns the place of an opening parenthesis, which is taken.
    pub fn open(&mut self) -> Result<usize, Fail>
        ensures { Reads (λ at. at) result read_open (left self.old) (left self.new) }
    {
        self.open_as(Expected::Open)
    }

    /// Returns the place of an opening parenthesis, which is taken and begins what is expected as this.
    #[tactic(auto, using(crate::proofs::Steps::round))]
    pub fn open_as(&mut self, expected: Expected) -> Result<usize, Fail>
        ensures { Reads (λ at. at) result read_open (left self.old) (left self.new) }
    {
        match self.opens() {
            Some(at) => {
                self.skip();
                Ok(at)
            }
            None => Err(self.miss(expected)),
        }
    }

    /// Returns the place of a closing parenthesis, which is taken.
    #[tactic(auto, using(crate::proofs::Steps::round))]
    pub fn close(&mut self) -> Result<usize, Fail>
        ensures { Reads (λ at. at) result read_close (left self.old) (left self.new) }
    {
        match self.closes() {
            Some(at) => {
                self.skip();
                Ok(at)
            }
            None => Err(self.miss(Expected::Close)),
        }
    }
}

// Where a token begins.
fn place(token: Token<'_>) -> usize
    ensures { result ≡ place (token_seen token.entry) }
{
    match token {
        Token::Open(at)
        | Token::Close(at)
        | Token::At(at)
        | Token::Less(at)
        | Token::Greater(at)
        | Token::Word(at, _) => at,
    }
}
