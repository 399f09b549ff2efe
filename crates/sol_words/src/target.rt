// The word that names a target.

ghost use Rattle.std.specs.Prelude.{◌≡◌, bytes_eq};
ghost use Rattle.sol_core.specs.Kinds.{kind_word};
ghost use Rattle.sol_script.specs.Lines.{number};
ghost use Rattle.sol_words.specs.Target.{place_of, kind_named, site_of, target};

use sol_core::{Kind, Site, kind_word};
use sol_script::{cut, number};

/// The greatest number of a line or a column that a word can name.
pub const MAX_PLACE: i128 = 999_999;

// A line or a column that a word spells.
fn place(word: &[u8]) -> Option<u32>
    ensures { result ≡ place_of (number word.now) }
{
    match number(word) {
        None => None,
        Some(n) => {
            if 1 <= n && n <= MAX_PLACE {
                Some(n as u32)
            } else {
                None
            }
        }
    }
}

fn is_kind(word: &[u8], kind: Kind) -> bool
    ensures { result ≡ bytes_eq word.now (kind_word kind) }
{
    word == kind_word(kind).as_bytes()
}

fn kind_named(word: &[u8]) -> Option<Kind>
    ensures { result ≡ kind_named word.now }
{
    if is_kind(word, Kind::Assert) {
        Some(Kind::Assert)
    } else if is_kind(word, Kind::Underflow) {
        Some(Kind::Underflow)
    } else if is_kind(word, Kind::Overflow) {
        Some(Kind::Overflow)
    } else if is_kind(word, Kind::DivByZero) {
        Some(Kind::DivByZero)
    } else if is_kind(word, Kind::OutOfBounds) {
        Some(Kind::OutOfBounds)
    } else if is_kind(word, Kind::PopEmptyArray) {
        Some(Kind::PopEmptyArray)
    } else {
        None
    }
}

fn site_of(line: Option<u32>, col: Option<u32>, kind: Option<Kind>) -> Option<Site>
    ensures { result ≡ site_of line col kind }
{
    match (line, col, kind) {
        (Some(line), Some(col), Some(kind)) => Some(Site { kind, line, col }),
        _ => None,
    }
}

/// The target that a word names, as `LINE:COLUMN:KIND`.
pub fn target(word: &[u8]) -> Option<Site>
    ensures { result ≡ target word.now }
{
    let Some((line, rest)) = cut(word, b':') else {
        return None;
    };
    let Some((col, kind)) = cut(rest, b':') else {
        return None;
    };
    if cut(kind, b':').is_some() {
        return None;
    }
    site_of(place(line), place(col), kind_named(kind))
}
