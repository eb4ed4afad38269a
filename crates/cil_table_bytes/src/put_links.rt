//! The bytes of sections 11 to 13, put where bytes go: the links of one holder after those of another.

ghost use Rattle.std.specs.Prelude.{◌≡◌, ◌++◌, ℕ, List, IfOk, OnOk, length, map};
ghost use Rattle.cil_tables.specs.Holders.{link_to, links_from};
ghost use Rattle.cil_table_bytes.specs.Layout as layout;
ghost use Rattle.cil_table_bytes.specs.Told.{links_bytes, links_in};

use cil_base::NoMemory;
use cil_format::{Out, give_count, put_small};
use cil_sets::Numbers;
use cil_tables::{Links, Tables};
use std::alloc::Global;

/// The links of one holder, put behind the bytes that are there.
fn put_row(out: &mut Vec<u8>, holder: usize, row: &[usize]) -> Result<(), NoMemory>
    ensures { OnOk result (out.new.items ≡ out.old.items ++ links_bytes (map (link_to holder) row.now)) }
{
    for held in row {
        put_small(out, holder)?;
        put_small(out, *held)?;
    }
    Ok(())
}

/// The links of one holder, put where bytes go. What the buffer held is lost.
fn give_row<O: Out>(
    alloc: Global,
    out: &mut O,
    buffer: &mut Vec<u8>,
    holder: usize,
    row: &Numbers,
) -> Result<(), NoMemory>
    ensures { (before : List ℕ) → O.holds out.old before → OnOk result (O.holds out.new (before ++ links_bytes (map (link_to holder) row.now))) }
{
    let members = row.to_vec(alloc)?;
    buffer.clear();
    put_row(buffer, holder, &members)?;
    out.put(buffer)
}

/// How many links there are. Error: more than a number of 64 bits can say, which is answered as out of memory.
fn count_of(rows: &[Numbers]) -> Result<usize, NoMemory>
    ensures { IfOk result (λ count. count ≡ length (links_from 0 rows.now)) }
{
    let mut count: usize = 0;
    for holder in 0..rows.len() {
        let Some(more) = count.checked_add(rows[holder].len()) else {
            return Err(NoMemory);
        };
        count = more;
    }
    Ok(count)
}

/// A section of links: how many there are, and these.
fn put_links<O: Out>(alloc: Global, out: &mut O, links: &Links) -> Result<(), NoMemory>
    ensures { (before : List ℕ) → O.holds out.old before → OnOk result (O.holds out.new (before ++ (layout.links 0 0).spell links.now)) }
{
    let rows = links.rows();
    let mut buffer = Vec::new(alloc);
    give_count(out, &mut buffer, count_of(rows)?)?;
    for holder in 0..rows.len() {
        give_row(alloc, out, &mut buffer, holder, &rows[holder])?;
    }
    Ok(())
}

/// Sections 11 to 13. It costs a step for each byte, and room for the links of one holder. Errors: out of memory.
pub fn put_linked<O: Out>(alloc: Global, out: &mut O, tables: &Tables) -> Result<(), NoMemory>
    ensures { (before : List ℕ) → O.holds out.old before → OnOk result (O.holds out.new (before ++ (layout.linked 0 0 0).spell (links_in tables.now))) }
{
    put_links(alloc, out, tables.user_roles())?;
    put_links(alloc, out, tables.role_types())?;
    put_links(alloc, out, tables.role_allows())
}
