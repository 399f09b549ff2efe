// Punctuators.

ghost use Rattle.std.specs.Prelude.{◌≡◌, ◌≤◌, length};
ghost use Rattle.sol_tree.specs.Refused.{is_one_of, texts};
ghost use Rattle.sol_lexer.specs.Reading.{longest, longest_mark, mark_of};
ghost use Rattle.sol_lexer.specs.Punctuators.{marks};

use crate::bytes::begins_with;
use crate::cut::Cut;
use sol_tree::is_one_of;

// The punctuators of the language.
const MARKS: [&str; 35] = [
    "(", ")", "[", "]", "{", "}", ";", ",", ".", "=", "+", "-", "*", "/", "%", "!", "<", ">", "?",
    ":", "==", "!=", "<=", ">=", "&&", "||", "++", "--", "+=", "-=", "*=", "/=", "%=", "**", "=>",
];

// The punctuators of Solidity that are outside the language.
const REFUSED_MARKS: [&str; 15] = [
    "&", "|", "^", "~", "<<", ">>", ">>>", "&=", "|=", "^=", "<<=", ">>=", ">>>=", "->", ":=",
];

// The length of the longest of these that the text begins with, or 0 where it begins with none.
#[tactic(auto, using(crate::proofs::Longest::lengths))]
fn longest(marks: &[&str], text: &[u8]) -> usize
    ensures equal { result ≡ longest (texts marks.now) text.now }
    ensures within { result ≤ length text.now }
{
    let mut best = 0;
    let mut rest = marks;
    while let [first, more @ ..] = rest {
        if begins_with(first.as_bytes(), text) && best < first.len() {
            best = first.len();
        }
        rest = more;
    }
    best
}

// The longest punctuator at the head of a text, of the language or outside it.
#[tactic(auto, unfolding(crate::specs::Punctuators::marks, crate::specs::RefusedPunctuators::refused_marks))]
fn longest_mark(text: &[u8]) -> usize
    ensures equal { result ≡ longest_mark text.now }
    ensures within { result ≤ length text.now }
{
    let kept = longest(&MARKS, text);
    let refused = longest(&REFUSED_MARKS, text);
    if kept < refused { refused } else { kept }
}

// Whether this is a punctuator of the language.
#[tactic(auto, unfolding(crate::specs::Punctuators::marks))]
fn is_mark(text: &[u8]) -> bool
    ensures { result ≡ is_one_of text.now marks }
{
    is_one_of(text, &MARKS)
}

/// The punctuator at the head of a text that no other rule reads.
pub fn mark(text: &[u8]) -> Cut
    ensures { result ≡ mark_of text.now }
{
    let len = longest_mark(text);
    if len == 0 {
        return Cut::BadByte { after: 0 };
    }
    if is_mark(&text[..len]) {
        Cut::Mark { len }
    } else {
        Cut::Refused { len }
    }
}
