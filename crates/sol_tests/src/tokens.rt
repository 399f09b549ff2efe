// The tokens of texts.

use crate::texts::tokens_of;
use chc_nums::NoMemory;
use sol_tree::{Token, TokenKind};
use std::alloc::Global;

// Texts, and their tokens in short: `w:` a word, `n:` or `x:` a number, `t` a text and `m:` a punctuator, each with its
// place and length.
const CASES: [(&str, &str); 10] = [
    ("uint8 x;", "w:uint8@0+5 w:x@6+1 m:;@7+1 "),
    ("a\t\n\r\x0cb // c\nd", "w:a@0+1 w:b@5+1 w:d@12+1 "),
    ("a/* * / */b", "w:a@0+1 w:b@10+1 "),
    ("pragma solidity ^0.8.0; a", "w:a@24+1 "),
    ("12_3 0x1F_a 1e3", "n:123@0+4 x:506@5+6 n:1000@12+3 "),
    ("1.a", "n:1@0+1 m:.@1+1 w:a@2+1 "),
    ("\"a'b\\\"\"'c'", "t@0+7 t@7+3 "),
    ("a**b*c", "w:a@0+1 m:**@1+2 w:b@3+1 m:*@4+1 w:c@5+1 "),
    ("a>=b>c", "w:a@0+1 m:>=@1+2 w:b@3+1 m:>@4+1 w:c@5+1 "),
    ("a---b", "w:a@0+1 m:--@1+2 m:-@3+1 w:b@4+1 "),
];

fn shown_kind(alloc: Global, kind: &TokenKind) -> Result<String, NoMemory> {
    match kind {
        TokenKind::Word(name) => Ok(format!(in alloc; "w:{}", name.as_str())?),
        TokenKind::Number { value, hex: true } => Ok(format!(in alloc; "x:{value}")?),
        TokenKind::Number { value, hex: false } => Ok(format!(in alloc; "n:{value}")?),
        TokenKind::Text => Ok(String::from_str(alloc, "t")?),
        TokenKind::Mark(name) => Ok(format!(in alloc; "m:{}", name.as_str())?),
    }
}

fn show(alloc: Global, token: &Token, all: &mut String) -> Result<(), NoMemory> {
    let kind = shown_kind(alloc, &token.kind)?;
    all.push_str(kind.as_str())?;
    let place = format!(in alloc; "@{}+{} ", token.at, token.len)?;
    all.push_str(place.as_str())?;
    Ok(())
}

fn shown(alloc: Global, text: &str) -> Result<String, NoMemory> {
    let tokens = tokens_of(alloc, text)?;
    let mut all = String::new(alloc);
    for token in tokens.as_slice() {
        show(alloc, token, &mut all)?;
    }
    Ok(all)
}

#[test]
fn texts_have_these_tokens(rt: HostRuntime) -> Result<(), NoMemory> {
    for (text, want) in &CASES {
        let got = shown(rt.alloc(), text)?;
        assert_eq!(rt; got.as_str(), *want);
    }
    Ok(())
}
