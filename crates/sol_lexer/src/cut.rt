// The piece at the head of a text.

ghost use Rattle.std.specs.Prelude.{◌≡◌, ◌<◌, ◌≤◌, ◌+◌, ◌^◌, ◌==◌, length, IfSome};
ghost use Rattle.sol_lexer.specs.Bytes.{begins};
ghost use Rattle.sol_lexer.specs.Tokens.{is_refused};
ghost use Rattle.sol_lexer.specs.Reading.{close_of, closing_of, comment_of, cut_of, is_comment, block_of, judged, pragma_of, text_of, word_of};

use crate::bytes::{Class, begins_with_quote, is_printable, is_quote, is_word_start, run};
use crate::marks::mark;
use crate::numbers::number;
use sol_tree::{is_one_of, is_refused_word};

/// What stands at the head of a text: a piece with its length in bytes, or a fault.
#[derive(Clone, Copy, Debug, PartialEq, Eq)]
pub enum Cut {
    /// A piece that gives no token.
    Dropped { len: usize },
    /// A word.
    Word { len: usize },
    /// A number.
    Number { len: usize, value: i128, hex: bool },
    /// A text in quotes.
    Text { len: usize },
    /// A punctuator.
    Mark { len: usize },
    /// A byte that may not stand there, so many bytes after the first.
    BadByte { after: usize },
    /// A comment without an end.
    OpenComment,
    /// A text or a pragma without an end.
    OpenText,
    /// A number of 2^127 or more.
    WideNumber,
    /// A word or a punctuator outside the language.
    Refused { len: usize },
}

// Where the first `*/` of a text ends.
fn comment_close(text: &[u8]) -> Option<usize>
    requires { length text.now < 2 ^ 32 }
    ensures equal { result ≡ close_of text.now }
    ensures within { IfSome result (λ n. n ≤ length text.now + 1) }
{
    let mut len = 0;
    let mut rest = text;
    while let [byte, more @ ..] = rest {
        if *byte == b'*' && begins_with_slash(more) {
            return Some(len + 2);
        }
        len += 1;
        rest = more;
    }
    None
}

// Whether the second byte of `*/` comes next.
fn begins_with_slash(text: &[u8]) -> bool
    ensures { result ≡ begins (λ b. b == 47) text.now }
{
    match text {
        [] => false,
        [byte, ..] => *byte == b'/',
    }
}

// What follows `/` where that begins a comment.
fn comment(text: &[u8]) -> Cut
    requires { length text.now + 1 < 2 ^ 32 }
    ensures { result ≡ comment_of text.now }
{
    match text {
        [] => Cut::OpenComment,
        [byte, more @ ..] => {
            if *byte == b'/' {
                Cut::Dropped {
                    len: run(Class::InLine, more) + 2,
                }
            } else {
                block_comment(more)
            }
        }
    }
}

// What follows `/*`.
fn block_comment(text: &[u8]) -> Cut
    requires { length text.now + 1 < 2 ^ 32 }
    ensures { result ≡ block_of text.now }
{
    match comment_close(text) {
        None => Cut::OpenComment,
        Some(len) => Cut::Dropped { len: len + 2 },
    }
}

// What follows the word `pragma`.
fn pragma(text: &[u8]) -> Cut
    requires { length text.now < 2 ^ 32 }
    ensures { result ≡ pragma_of text.now }
{
    let len = run(Class::BeforeSemicolon, text);
    if len < text.len() {
        Cut::Dropped { len: len + 7 }
    } else {
        Cut::OpenText
    }
}

// Whether a word is outside the language where this follows it.
#[tactic(auto, unfolding(crate::specs::QuotedWords::quoted_words))]
fn is_refused(word: &[u8], rest: &[u8]) -> bool
    ensures { result ≡ is_refused word.now rest.now }
{
    is_refused_word(word) || (is_one_of(word, &["unicode", "hex"]) && begins_with_quote(rest))
}

// A word, by what follows it.
fn judge(word: &[u8], rest: &[u8]) -> Cut
    requires { length rest.now < 2 ^ 32 }
    ensures { result ≡ judged word.now rest.now }
{
    if word == b"pragma".as_slice() {
        return pragma(rest);
    }
    let len = word.len();
    if is_refused(word, rest) {
        Cut::Refused { len }
    } else {
        Cut::Word { len }
    }
}

// The word at the head of a text.
fn word(text: &[u8]) -> Cut
    requires { length text.now < 2 ^ 32 }
    ensures { result ≡ word_of text.now }
{
    let len = run(Class::InWord, text);
    judge(&text[..len], &text[len..])
}

// Where the first quote of a text ends that ends the text, or none where another byte or the end comes first.
fn closing_quote(quote: u8, text: &[u8]) -> Option<usize>
    requires { length text.now < 2 ^ 32 }
    ensures equal { result ≡ closing_of quote text.now }
    ensures within { IfSome result (λ n. n ≤ length text.now) }
{
    let mut len = 0;
    let mut escaped = false;
    let mut rest = text;
    while let [byte, more @ ..] = rest {
        if escaped {
            escaped = false;
        } else if *byte == quote {
            return Some(len + 1);
        } else if *byte == b'\\' {
            escaped = true;
        } else if !is_printable(*byte) {
            return None;
        }
        len += 1;
        rest = more;
    }
    None
}

// What follows the quote that begins a text.
fn quoted(quote: u8, text: &[u8]) -> Cut
    requires { length text.now < 2 ^ 32 }
    ensures { result ≡ text_of quote text.now }
{
    match closing_quote(quote, text) {
        None => Cut::OpenText,
        Some(len) => Cut::Text { len: len + 1 },
    }
}

// Whether a byte begins a comment where this follows it.
fn begins_comment(byte: u8, more: &[u8]) -> bool
    ensures { result ≡ is_comment byte more.now }
{
    match more {
        [] => false,
        [second, ..] => byte == b'/' && (*second == b'/' || *second == b'*'),
    }
}

/// What stands at the head of a text. Of the end of a text it says that no piece begins there.
pub fn first_cut(text: &[u8]) -> Cut
    requires { length text.now < 2 ^ 32 }
    ensures { result ≡ cut_of text.now }
{
    match text {
        [] => Cut::BadByte { after: 0 },
        [byte, more @ ..] => {
            if byte.is_ascii_whitespace() {
                Cut::Dropped { len: 1 }
            } else if begins_comment(*byte, more) {
                comment(more)
            } else if is_word_start(*byte) {
                word(text)
            } else if byte.is_ascii_digit() {
                number(text)
            } else if is_quote(*byte) {
                quoted(*byte, more)
            } else {
                mark(text)
            }
        }
    }
}
