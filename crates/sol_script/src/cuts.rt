// Texts cut at their first byte of a kind.

ghost use Rattle.std.specs.Prelude.{◌≡◌, ◌∷◌, ◌<◌, length, Some, None, MatchOption, IfSome};
ghost use Rattle.std.specs.Option.{option_copied};
ghost use Rattle.sol_script.specs.Cuts.{pieces_of, IsCut};
ghost use Rattle.sol_script.specs.Pieces.{pieces};

/// What stands before the first byte of a kind, and what stands behind it; none where there is no such byte.
#[tactic(auto, using(crate::proofs::Pieces::cuts))]
pub fn cut(text: &[u8], byte: u8) -> Option<(&[u8], &[u8])>
    ensures cut { MatchOption result (IsCut byte text.now None) (λ parts. IsCut byte text.now (Some (parts.0.now, parts.1.now))) }
{
    let mut at = 0;
    while at < text.len() {
        if text[at] == byte {
            return Some((&text[..at], &text[at + 1..]));
        }
        at += 1;
    }
    None
}

/// What stands before the first space, and what stands behind it, where there is one.
pub fn first_piece(text: &[u8]) -> (&[u8], Option<&[u8]>)
    ensures pieces { pieces 32 text.now ≡ result.0.now ∷ pieces_of (option_copied result.1) }
    ensures shorter { IfSome result.1 (λ rest. length rest.now < length text.now) }
{
    match cut(text, b' ') {
        None => (text, None),
        Some((piece, rest)) => (piece, Some(rest)),
    }
}
