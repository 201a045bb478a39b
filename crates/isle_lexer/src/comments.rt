ghost use Rattle.std.specs.Prelude.{◌≡◌, ◌≤◌, ◌<◌, ◌+◌, ℕ, [], Some, None, IfSome, length};
ghost use Rattle.isle_lexer.specs.Token.{Between, InLine, InComment, Other, seen_after, in_comment, coming};
ghost use Rattle.isle_lexer.specs.LexerViews.{seen};

use memchr::memchr;

/// What the byte before was, in a comment that may nest.
#[derive(Clone, Copy, Debug, PartialEq, Eq)]
pub enum Seen {
    Other,
    Open,
    Semicolon,
}

// What a byte leaves seen in a comment.
fn seen_after(byte: u8) -> Seen
    ensures { seen result ≡ seen_after byte }
{
    match byte {
        b'(' => Seen::Open,
        b';' => Seen::Semicolon,
        _ => Seen::Other,
    }
}

// How many comments are open round the innermost after a byte, and what it leaves seen. None comes where it closes the
// outermost.
fn behind(outer: usize, last: Seen, byte: u8) -> Option<(usize, Seen)>
    requires { outer < usize.MAX }
    ensures some { IfSome result (λ r.
        (from : ℕ) → in_comment from outer (seen last) byte ≡ InComment from r.0 (seen r.1)) }
    ensures outer { IfSome result (λ r. r.0 ≤ outer + 1) }
    ensures none { result ≡ None → (from : ℕ) → in_comment from outer (seen last) byte ≡ Between }
{
    match (last, byte) {
        (Seen::Open, b';') => Some((outer + 1, Seen::Other)),
        (Seen::Semicolon, b')') if outer == 0 => None,
        (Seen::Semicolon, b')') => Some((outer - 1, Seen::Other)),
        _ => Some((outer, seen_after(byte))),
    }
}

/// Returns the place after a comment that nests, of which this place is the first after its opening. None comes if
/// it never ends.
pub fn comment_end(text: &[u8], at: usize) -> Option<usize>
    requires { at ≤ length text.now }
    ensures some { IfSome result (λ to.
        (from : ℕ) → coming text.now (InComment from 0 Other) at ≡ coming text.now Between to) }
    ensures within { IfSome result (λ to. (at < to) × (to ≤ length text.now)) }
    ensures none { result ≡ None → (from : ℕ)
        → coming text.now (InComment from 0 Other) at
        ≡ record { tokens = []; unclosed = Some from } }
{
    let mut outer = 0;
    let mut last = Seen::Other;
    for place in at..text.len() {
        let (more, left) = match behind(outer, last, text[place]) {
            Some(open) => open,
            None => return Some(place + 1),
        };
        outer = more;
        last = left;
    }
    None
}

/// Returns the place after a comment that ends with its line, of which this place is a part.
pub fn line_end(text: &[u8], at: usize) -> usize
    requires { at ≤ length text.now }
    ensures line { coming text.now InLine at ≡ coming text.now Between result }
    ensures forward { at ≤ result }
    ensures within { result ≤ length text.now }
{
    match memchr(b'\n', &text[at..]) {
        Some(feed) => at + feed + 1,
        None => text.len(),
    }
}
