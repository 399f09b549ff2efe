// Places, lines and columns, in answers.

// Whether a word is a number of decimal digits alone that doesn't begin with 0.
fn is_number(word: &str) -> bool {
    match word.as_bytes() {
        [] => false,
        [b'0', ..] => false,
        digits => digits.iter().all(|b| b.is_ascii_digit()),
    }
}

/// The line and the column that `L:C` names.
pub fn place(word: &str) -> Option<(u32, u32)> {
    let (line, column) = word.split_once(':')?;
    if !is_number(line) || !is_number(column) {
        return None;
    }
    Some((line.parse::<u32>().ok()?, column.parse::<u32>().ok()?))
}

/// Whether a text has this line, with this column or one before it.
pub fn has_place(text: &[u8], line: u32, column: u32) -> bool {
    let mut at = 1u32;
    let mut end = 1u32;
    for byte in text {
        if *byte == b'\n' {
            if at == line {
                break;
            }
            at = at.saturating_add(1);
            end = 1;
        } else {
            end = end.saturating_add(1);
        }
    }
    at == line && column <= end
}
