// The report's text, line by line.

ghost use Rattle.std.specs.Prelude.{◌≡◌, ◌∷◌, ◌++◌, [], ◌+◌, IfOk, OnOk, string_bytes, slice_get, codes, map};
ghost use Rattle.sol_report.specs.Texts.{why_word, stop_word, verdict_words, site_line, line_at, indented, violation_lines, target_lines, safe_count, unsafe_count, unknown_count, count_words, last_line, lines_of};

use crate::report::{Report, Stop, Verdict};
use chc_ask::{Open, Why};
use chc_nums::{List, Name, NoMemory};
use itoa::Buffer;
use sol_core::{Program, Site, kind_word};
use std::alloc::Global;

fn why_word(why: &Why) -> &'static str
    ensures { result.now ≡ why_word why.now }
{
    match why {
        Why::Point(_, _) => "point",
        Why::Wide => "wide",
        Why::Pivots => "pivots",
        Why::Nodes => "nodes",
    }
}

fn stop_word(stop: &Stop) -> &'static str
    ensures { result.now ≡ stop_word stop.now }
{
    match stop {
        Stop::Round(_) => "rounds",
        Stop::Target(open) => why_word(&open.why),
    }
}

fn open_words(alloc: Global, templates: &Stop, pool: &Open) -> Result<String, NoMemory>
    ensures { IfOk result (λ t. string_bytes t ≡ codes "unknown templates " ++ stop_word templates.now ++ codes " pool " ++ why_word pool.now.why) }
{
    let first = stop_word(templates);
    let second = why_word(&pool.why);
    Ok(format!(in alloc; "unknown templates {first} pool {second}")?)
}

fn verdict_words(alloc: Global, verdict: &Verdict) -> Result<String, NoMemory>
    ensures { IfOk result (λ t. string_bytes t ≡ verdict_words verdict.now) }
{
    match verdict {
        Verdict::Safe(_, _) => Ok(String::from_str(alloc, "safe")?),
        Verdict::Unsafe { .. } => Ok(String::from_str(alloc, "unsafe")?),
        Verdict::Unknown {
            templates,
            pool,
            ..
        } => open_words(alloc, templates, pool),
    }
}

fn site_line(alloc: Global, site: &Site, verdict: &Verdict) -> Result<Name, NoMemory>
    ensures { IfOk result (λ t. t ≡ site_line site.now verdict.now) }
{
    let mut line = Buffer::new();
    let mut col = Buffer::new();
    let line = line.format(site.line);
    let col = col.format(site.col);
    let kind = kind_word(site.kind);
    let words = verdict_words(alloc, verdict)?;
    let words = words.as_str();
    Ok(Name::from_string(format!(in alloc; "{line}:{col} {kind} {words}\n")?))
}

// The line of the target at a place among the sites.
fn line_at(alloc: Global, sites: &[Site], place: u32, verdict: &Verdict) -> Result<Name, NoMemory>
    ensures { IfOk result (λ t. t ≡ line_at (slice_get sites.now place) verdict.now) }
{
    match sites.get(place as usize) {
        None => Ok(Name::from_string(String::new(alloc))),
        Some(site) => site_line(alloc, site, verdict),
    }
}

// A line with two spaces before it.
fn indented(alloc: Global, line: &Name) -> Result<Name, NoMemory>
    ensures { IfOk result (λ t. t ≡ indented line.now) }
{
    let line = line.as_str();
    Ok(Name::from_string(format!(in alloc; "  {line}")?))
}

fn add_script(alloc: Global, script: &[Name], lines: &mut List<Name>) -> Result<(), NoMemory>
    ensures { OnOk result (lines.new ≡ lines.old ++ map indented script.now) }
{
    for line in script {
        lines.push(indented(alloc, line)?)?;
    }
    Ok(())
}

// The script of an unsafe target.
fn add_violation(
    alloc: Global,
    program: &Program,
    verdict: &Verdict,
    lines: &mut List<Name>,
) -> Result<(), NoMemory>
    ensures { OnOk result (lines.new ≡ lines.old ++ violation_lines program.now verdict.now) }
{
    match verdict {
        Verdict::Safe(_, _) | Verdict::Unknown { .. } => Ok(()),
        Verdict::Unsafe { script, .. } => {
            let text = sol_script::lines(alloc, program, script)?;
            add_script(alloc, text.as_slice(), lines)
        }
    }
}

fn add_target(
    alloc: Global,
    program: &Program,
    place: u32,
    verdict: &Verdict,
    lines: &mut List<Name>,
) -> Result<(), NoMemory>
    ensures { OnOk result (lines.new ≡ lines.old ++ (line_at (slice_get program.now.sites place) verdict.now ∷ violation_lines program.now verdict.now)) }
{
    lines.push(line_at(alloc, program.sites.as_slice(), place, verdict)?)?;
    add_violation(alloc, program, verdict, lines)
}

fn add_target_lines(
    alloc: Global,
    program: &Program,
    verdicts: &[(u32, Verdict)],
    lines: &mut List<Name>,
) -> Result<(), NoMemory>
    ensures { OnOk result (lines.new ≡ lines.old ++ target_lines program.now verdicts.now) }
{
    for entry in verdicts {
        add_target(alloc, program, entry.0, &entry.1, lines)?;
    }
    Ok(())
}

fn safe_count(verdicts: &[(u32, Verdict)]) -> usize
    ensures { result ≡ safe_count verdicts.now }
{
    let mut count = 0;
    for entry in verdicts {
        match &entry.1 {
            Verdict::Safe(_, _) => count += 1,
            Verdict::Unsafe { .. } | Verdict::Unknown { .. } => {}
        }
    }
    count
}

fn unsafe_count(verdicts: &[(u32, Verdict)]) -> usize
    ensures { result ≡ unsafe_count verdicts.now }
{
    let mut count = 0;
    for entry in verdicts {
        match &entry.1 {
            Verdict::Unsafe { .. } => count += 1,
            Verdict::Safe(_, _) | Verdict::Unknown { .. } => {}
        }
    }
    count
}

fn unknown_count(verdicts: &[(u32, Verdict)]) -> usize
    ensures { result ≡ unknown_count verdicts.now }
{
    let mut count = 0;
    for entry in verdicts {
        match &entry.1 {
            Verdict::Unknown { .. } => count += 1,
            Verdict::Safe(_, _) | Verdict::Unsafe { .. } => {}
        }
    }
    count
}

fn count_words(alloc: Global, verdicts: &[(u32, Verdict)]) -> Result<String, NoMemory>
    ensures { IfOk result (λ t. string_bytes t ≡ count_words verdicts.now) }
{
    let mut safe = Buffer::new();
    let mut violated = Buffer::new();
    let mut unknown = Buffer::new();
    let safe = safe.format(safe_count(verdicts));
    let violated = violated.format(unsafe_count(verdicts));
    let unknown = unknown.format(unknown_count(verdicts));
    Ok(format!(in alloc; "safe {safe} unsafe {violated} unknown {unknown}")?)
}

fn last_line(alloc: Global, verdicts: &[(u32, Verdict)]) -> Result<Name, NoMemory>
    ensures { IfOk result (λ t. t ≡ last_line verdicts.now) }
{
    let mut targets = Buffer::new();
    let targets = targets.format(verdicts.len());
    let counts = count_words(alloc, verdicts)?;
    let counts = counts.as_str();
    Ok(Name::from_string(format!(in alloc; "targets {targets} {counts}\n")?))
}

/// The lines of a report: for each target its place, its kind and what was found, with the script of an unsafe one
/// behind it, and last a line that counts the targets. Each ends with a line feed.
pub fn lines(alloc: Global, report: &Report) -> Result<List<Name>, NoMemory>
    ensures { IfOk result (λ lines. lines ≡ lines_of report.now) }
{
    let mut lines = List::new(alloc);
    add_target_lines(
        alloc,
        &report.program,
        report.verdicts.as_slice(),
        &mut lines,
    )?;
    lines.push(last_line(alloc, report.verdicts.as_slice())?)?;
    Ok(lines)
}
