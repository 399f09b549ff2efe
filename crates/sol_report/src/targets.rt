// The list of some targets, line by line.

ghost use Rattle.std.specs.Prelude.{◌≡◌, ◌++◌, IfOk, OnOk, map};
ghost use Rattle.sol_report.specs.Listing.{listed_line, count_line, listing_of};

use chc_nums::{List, Name, NoMemory};
use itoa::Buffer;
use sol_core::{Site, kind_word};
use std::alloc::Global;

fn listed_line(alloc: Global, site: &Site) -> Result<Name, NoMemory>
    ensures { IfOk result (λ t. t ≡ listed_line site.now) }
{
    let mut line = Buffer::new();
    let mut col = Buffer::new();
    let line = line.format(site.line);
    let col = col.format(site.col);
    let kind = kind_word(site.kind);
    Ok(Name::from_string(format!(in alloc; "{line}:{col} {kind}\n")?))
}

fn count_line(alloc: Global, sites: &[Site]) -> Result<Name, NoMemory>
    ensures { IfOk result (λ t. t ≡ count_line sites.now) }
{
    let mut count = Buffer::new();
    let count = count.format(sites.len());
    Ok(Name::from_string(format!(in alloc; "targets {count}\n")?))
}

/// The lines of a list of targets: for each its place and its kind, and last a line that counts them. Each ends with a line
/// feed.
pub fn listing(alloc: Global, sites: &[Site]) -> Result<List<Name>, NoMemory>
    ensures { IfOk result (λ lines. lines ≡ listing_of sites.now) }
{
    let mut lines = List::new(alloc);
    for site in sites {
        lines.push(listed_line(alloc, site)?)?;
    }
    lines.push(count_line(alloc, sites)?)?;
    Ok(lines)
}
