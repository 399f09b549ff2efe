// Which command an answer belongs to, and the status that it is told with.

use crate::place::place;
use crate::report::headline;

/// What the answers of a record belong to.
#[derive(Clone, Copy, Debug, PartialEq, Eq)]
pub enum Kind {
    /// `replay`, told by one word.
    Replay,
    /// `targets`.
    Targets,
    /// `check`, where each target has a fact.
    Facts,
    /// `check` or given words, told exactly.
    Exact,
}

// Whether a line says that a text is refused, at a place, at any or at none.
fn is_refusal(line: &str) -> bool {
    match line.split_once(' ') {
        None => false,
        Some(("refused", _)) => true,
        Some((at, rest)) => (at == "*:*" || place(at).is_some()) && rest.starts_with("refused "),
    }
}

// The status of a report, by its last line.
fn report_status(last: &str) -> u8 {
    if last.ends_with(" unsafe 0 unknown 0") {
        0
    } else if last.contains(" unsafe 0 ") {
        2
    } else {
        1
    }
}

// Whether a line is the last of a report.
fn is_last_of_report(line: &str) -> bool {
    line.starts_with("targets ") && line.contains(" safe ") && line.contains(" unknown ")
}

/// The status of an answer that is told exactly; none where the answer is of no such form.
pub fn exact_status(answer: &str) -> Option<u8> {
    let whole = answer.strip_suffix('\n')?;
    let last = match whole.rsplit_once('\n') {
        Some((_, last)) => last,
        None => whole,
    };
    match whole {
        "words refused" => Some(4),
        "read fault" => Some(5),
        "no memory" => Some(7),
        "file too long" => Some(8),
        "violated" => Some(0),
        "not violated" | "script refused" | "no target" => Some(9),
        _ => {
            if is_last_of_report(last) {
                Some(report_status(last))
            } else if is_refusal(whole) {
                Some(3)
            } else {
                None
            }
        }
    }
}

/// What a record's first answer belongs to, where the record asks for no replay.
pub fn kind_of(answer: &str) -> Kind {
    if exact_status(answer).is_some() {
        return Kind::Exact;
    }
    for line in answer.split('\n') {
        match headline(line) {
            Some((_, said)) if said.is_fact() => return Kind::Facts,
            _ => {}
        }
    }
    Kind::Targets
}
