//! Sections of links: which roles users have, which types roles have, and to which roles roles may change.

ghost use Rattle.std.specs.Prelude.{◌≡◌, IfOk};
ghost use Rattle.std.specs.List.Sorted.{IsStrictlySortedBy};
ghost use Rattle.cil_format.specs.Fields.{below};
ghost use Rattle.cil_format.specs.Takes.{Takes};
ghost use Rattle.cil_tables.specs.Table.{link_cmp};
ghost use Rattle.cil_table_bytes.specs.Layout as layout;

use cil_base::NoMemory;
use cil_format::{Section, TableError, is_below, section_at, small_at};
use cil_tables::{Link, Links};
use std::alloc::Global;

/// Records that are a link.
#[derive(Clone, Copy)]
struct Ends {
    /// How many holders there are.
    holders: usize,
    /// How many there are that they may have.
    helds: usize,
}

impl Section for Ends {
    type Record = Link;

    ghost format = { λ ends. layout.link ends.holders ends.helds };

    ghost less = { below };

    fn read<'a>(&self, alloc: Global, bytes: &'a [u8]) -> Result<(Link, &'a [u8]), TableError> {
        let (holder, rest) = small_at(bytes, self.holders)?;
        let (held, rest) = small_at(rest, self.helds)?;
        let link = Link {
            holder: holder as usize,
            held: held as usize,
        };
        Ok((link, rest))
    }

    fn is_after(last: &[u8], next: &[u8]) -> bool {
        is_below(last, next)
    }
}

/// Links as they are listed.
fn listed_at(alloc: Global, ends: Ends, bytes: &[u8]) -> Result<(Vec<Link>, &[u8]), TableError>
    ensures read { Takes (λ x. (x.0.items, x.1.now)) result ((layout.links ends.holders ends.helds).read bytes.now) }
    ensures rising { IfOk result (λ x. IsStrictlySortedBy link_cmp x.0.items) }
{
    let (links, rest) = section_at(alloc, &ends, bytes, u32::MAX)?;
    Ok((links, rest))
}

/// The links of a list in their order. It costs a step for each, and one for each holder. Errors: out of memory.
fn links_of(alloc: Global, listed: &[Link]) -> Result<Links, NoMemory>
    requires { IsStrictlySortedBy link_cmp listed.now }
    ensures { IfOk result (λ links. links ≡ listed.now) }
{
    let mut links = Links::new(alloc);
    for link in listed {
        links.add(alloc, *link)?;
    }
    Ok(links)
}

/// The links between so many holders and so many that they may have, and the bytes behind them. Errors: the first fault, or out of
/// memory.
pub fn links_at(
    alloc: Global,
    holders: usize,
    helds: usize,
    bytes: &[u8],
) -> Result<(Links, &[u8]), TableError>
    ensures read { Takes (λ x. (x.0, x.1.now)) result ((layout.links holders helds).read bytes.now) }
    ensures rising { IfOk result (λ x. IsStrictlySortedBy link_cmp x.0) }
{
    let (listed, rest) = listed_at(alloc, Ends { holders, helds }, bytes)?;
    let links = links_of(alloc, &listed)?;
    Ok((links, rest))
}
