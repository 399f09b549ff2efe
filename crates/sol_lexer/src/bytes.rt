// Classes of bytes, and runs of them.

ghost use Rattle.std.specs.Prelude.{◌≡◌, ◌≤◌, length, false};
ghost use Rattle.sol_lexer.specs.Bytes.{begins, begins_with, is_digit_of, is_exponent_letter, is_in_line, is_printable, is_quote, is_word_byte, is_word_start};
ghost use Rattle.sol_lexer.specs.Reading.{in_class, run};

/// What a run is made of.
#[derive(Clone, Copy, Debug, PartialEq, Eq)]
pub enum Class {
    /// What a line comment may hold.
    InLine,
    /// What a word may hold.
    InWord,
    /// What may stand before the semicolon of a pragma.
    BeforeSemicolon,
}

pub fn is_in_line(byte: u8) -> bool
    ensures { result ≡ is_in_line byte }
{
    !(byte == b'\n' || byte == b'\r')
}

pub fn is_word_start(byte: u8) -> bool
    ensures { result ≡ is_word_start byte }
{
    byte.is_ascii_alphabetic() || byte == b'_' || byte == b'$'
}

pub fn is_word_byte(byte: u8) -> bool
    ensures { result ≡ is_word_byte byte }
{
    byte.is_ascii_alphanumeric() || byte == b'_' || byte == b'$'
}

pub fn is_quote(byte: u8) -> bool
    ensures { result ≡ is_quote byte }
{
    byte == b'"' || byte == b'\''
}

pub fn is_printable(byte: u8) -> bool
    ensures { result ≡ is_printable byte }
{
    b' ' <= byte && byte <= b'~'
}

pub fn is_exponent_letter(byte: u8) -> bool
    ensures { result ≡ is_exponent_letter byte }
{
    byte == b'e' || byte == b'E'
}

pub fn is_digit_of(hex: bool, byte: u8) -> bool
    ensures { result ≡ is_digit_of hex byte }
{
    if hex {
        byte.is_ascii_hexdigit()
    } else {
        byte.is_ascii_digit()
    }
}

pub fn begins_with_quote(text: &[u8]) -> bool
    ensures { result ≡ begins is_quote text.now }
{
    match text {
        [] => false,
        [byte, ..] => is_quote(*byte),
    }
}

pub fn begins_with_digit(text: &[u8]) -> bool
    ensures { result ≡ begins (is_digit_of false) text.now }
{
    match text {
        [] => false,
        [byte, ..] => is_digit_of(false, *byte),
    }
}

/// Whether a text begins with another.
pub fn begins_with(front: &[u8], text: &[u8]) -> bool
    ensures { result ≡ begins_with front.now text.now }
{
    let mut left = front;
    let mut rest = text;
    while let [wanted, more_left @ ..] = left {
        match rest {
            [] => return false,
            [byte, more @ ..] => {
                if byte != wanted {
                    return false;
                }
                left = more_left;
                rest = more;
            }
        }
    }
    true
}

fn is_in_class(class: Class, byte: u8) -> bool
    ensures { result ≡ in_class class byte }
{
    match class {
        Class::InLine => is_in_line(byte),
        Class::InWord => is_word_byte(byte),
        Class::BeforeSemicolon => byte != b';',
    }
}

/// How many bytes of a class a text begins with.
pub fn run(class: Class, text: &[u8]) -> usize
    ensures equal { result ≡ run (in_class class) text.now }
    ensures within { result ≤ length text.now }
{
    let mut len = 0;
    let mut rest = text;
    while let [byte, more @ ..] = rest {
        if !is_in_class(class, *byte) {
            return len;
        }
        len += 1;
        rest = more;
    }
    len
}
