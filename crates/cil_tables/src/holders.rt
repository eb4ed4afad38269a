//! What each of some things has, as the roles of each user: a set for each.

ghost use Rattle.std.specs.Prelude.{◌≡◌, ◌↔◌, ◌⊎◌, ◌<◌, [], ◌∷◌, Contains, IfSome, IsTrue, OnErr, OnOk, get_or, length, ℕ};
ghost use Rattle.std.specs.Ordering.{nat_cmp};
ghost use Rattle.cil_base.specs.Lists.{Lists};
ghost use Rattle.cil_tables.specs.Holders.{AreRising, links_from};
ghost use Rattle.cil_tables.specs.Table.{link_cmp};

use crate::tables::Link;
use cil_base::NoMemory;
use cil_sets::{Joining, Numbers};
use std::alloc::Global;
use std::marker::Model;

/// Links, kept as a set for each holder. Contracts see them as their list, by holders and then by what these have. They take 24
/// bytes for each holder up to the last that has something, and what its set takes.
#[derive(Debug, Drop)]
pub struct Links {
    rows: Vec<Numbers>,
}

impl Model for Links {
    ghost use Rattle.std.specs.Prelude.{List};
    ghost use Rattle.cil_tables.specs.declared.tables.Link.{Link};
    ghost use Rattle.cil_tables.specs.Holders.{AreRising, links_from};

    ghost Value = { List Link };

    ghost view = { λ a. links_from 0 a.rows.items };

    ghost invariant = { λ a. AreRising a.rows.items };
}

impl Links {
    /// No links.
    pub fn new(alloc: Global) -> Links
        ensures { result ≡ [] }
    {
        Links {
            rows: Vec::new(alloc),
        }
    }

    /// The set of each holder, by its number, up to the last that has something.
    pub fn rows(&self) -> &[Numbers]
        ensures links { links_from 0 result.now ≡ self.now }
    {
        self.rows.as_slice()
    }

    /// Adds a link. It costs a step for each holder before its own that has nothing yet, and a search by halving. Errors: out of memory.
    pub fn add(&mut self, alloc: Global, link: Link) -> Result<(), NoMemory>
        ensures { OnOk result (Lists link_cmp (λ l. Contains self.old l ⊎ (l ≡ link)) self.new) }
    {
        reach(alloc, &mut self.rows, link.holder)?;
        self.rows[link.holder].add(link.held)?;
        Ok(())
    }

    /// Joins each of some holders with each of these. It costs a step for each holder, and for each of them a search by halving, or
    /// a step for each block of both sets where these are several. Errors: out of memory.
    pub(crate) fn join(
        &mut self,
        alloc: Global,
        holders: &Numbers,
        helds: &Numbers,
    ) -> Result<(), NoMemory>
        ensures { OnOk result (Lists link_cmp (λ l. Contains self.old l ⊎ (Contains holders.now l.holder × Contains helds.now l.held)) self.new) }
    {
        // What is known of the links: they rise.
        let _ = &self.rows;
        let all = holders.to_vec(alloc)?;
        for holder in all.as_slice() {
            self.unite(alloc, *holder, helds)?;
        }
        Ok(())
    }

    /// Joins one holder with each of these. Errors: out of memory.
    fn unite(&mut self, alloc: Global, holder: usize, helds: &Numbers) -> Result<(), NoMemory>
        ensures { OnOk result (Lists link_cmp (λ l. Contains self.old l ⊎ ((l.holder ≡ holder) × Contains helds.now l.held)) self.new) }
    {
        reach(alloc, &mut self.rows, holder)?;
        add_all(alloc, &mut self.rows[holder], helds)?;
        Ok(())
    }

    /// Whether a link is there. It costs a search by halving in the set of its holder.
    pub fn has(&self, link: Link) -> bool
        ensures { IsTrue result ↔ Contains self.now link }
    {
        has_in(self.rows.as_slice(), link)
    }
}

/// Whether a link is in the set of its holder.
fn has_in(rows: &[Numbers], link: Link) -> bool
    ensures { IsTrue result ↔ Contains (get_or rows.now link.holder []) link.held }
{
    match rows.get(link.holder) {
        Some(row) => row.contains(link.held),
        None => false,
    }
}

/// Puts empty sets behind the others, up to that of a holder.
fn reach(alloc: Global, rows: &mut Vec<Numbers>, holder: usize) -> Result<(), NoMemory>
    ensures links { links_from 0 rows.new.items ≡ links_from 0 rows.old.items }
    ensures rising { AreRising rows.old.items → AreRising rows.new.items }
    ensures reached { OnOk result (holder < length rows.new.items) }
{
    while rows.len() <= holder {
        rows.push(Numbers::new(alloc))?;
    }
    Ok(())
}

/// Adds the members of another set. A set of one number costs a search by halving, and another a step for each block of both. Errors:
/// out of memory, and then the set is unchanged.
fn add_all(alloc: Global, set: &mut Numbers, others: &Numbers) -> Result<(), NoMemory>
    ensures added { OnOk result (Lists nat_cmp (λ v. Contains set.old v ⊎ Contains others.now v) set.new) }
    ensures err { OnErr result (set.new ≡ set.old) }
{
    let Some(number) = only(others) else {
        return join_all(alloc, set, others);
    };
    set.add(number)?;
    Ok(())
}

fn join_all(alloc: Global, set: &mut Numbers, others: &Numbers) -> Result<(), NoMemory>
    ensures added { OnOk result (Lists nat_cmp (λ v. Contains set.old v ⊎ Contains others.now v) set.new) }
    ensures err { OnErr result (set.new ≡ set.old) }
{
    let both = set.joined(alloc, Joining::Union, others)?;
    *set = both;
    Ok(())
}

/// The one member of a set that has just one.
fn only(set: &Numbers) -> Option<usize>
    ensures { IfSome result (λ n. set.now ≡ n ∷ []) }
{
    let first = set.next_from(0)?;
    if !is_one(set.len()) {
        return None;
    }
    Some(first)
}

fn is_one(count: usize) -> bool
    ensures { IsTrue result ↔ (count ≡ 1) }
{
    count == 1
}
