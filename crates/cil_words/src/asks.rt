//! The table of what all instances ask for, filled in one walk before optionals are chosen.

ghost use Rattle.std.specs.Prelude.{◌≡◌, ◌≤◌, ◌<◌, ◌++◌, ◌∷◌, [], IfOk, MatchOption, OnOk, get_or, length, slice_range};
ghost use Rattle.cil_macros.specs.Items.{item_at, items_in, namespaces_in};
ghost use Rattle.cil_names.specs.Entries.{AreEntries};
ghost use Rattle.cil_names.specs.Unresolved.{ArePermissions};
ghost use Rattle.cil_names.specs.Worded.{AreWorded};
ghost use Rattle.cil_names.specs.Rows.{AreWithin, lists_at};
ghost use Rattle.cil_words.specs.Scopes.{AreScopes};
ghost use Rattle.cil_words.specs.Table.{AreAsks, AreNumberedAsks, could_in, numbered_asks, word_ask};

use crate::cells::Cells;
use crate::number_lists::{end_at, number_at, push_number};
use crate::scopes::Scopes;
use crate::walk::Walk;
use cil_base::NoMemory;
use cil_macros::Instances;
use cil_names::Names;
use cil_names::reading::Reading;
use cil_names::worded::{is_worded_at, worded};
use cil_syntax::Bytes;
use std::alloc::Global;
use std::marker::Model;

/// What all instances ask for: for each instance, and for each of its words in order, the entries that it could name, whatever
/// is enabled, and the number of a permission among those of its class. It takes four bytes for an instance, and as many for a
/// word that could name one entry. Contracts see a row for each instance, in which each word has its place.
#[derive(Drop)]
pub struct Asks {
    /// Where the row of each instance begins.
    starts: Vec<u32>,
    /// The rows, one after another.
    cells: Cells,
}

impl Model for Asks {
    ghost use Rattle.std.specs.Prelude.{List, length};
    ghost use Rattle.cil_names.specs.Rows.{AreWithin, lists_at};
    ghost use Rattle.cil_words.specs.Table.{Ask};

    ghost Value = { List (List Ask) };

    ghost view = { λ a. lists_at a.starts.items a.cells };

    ghost invariant = { λ a. AreWithin (length a.cells) a.starts.items };
}

/// The table of all that is placed. Permissions are given as a list in byte order for each entry that is a class. Each word
/// costs one look-up, and each class word one more. A scope is filled where a word asks for it, once for instances that stand
/// beside one another; a word whose name is declared once, in the global namespace, asks for none. Error: out of memory.
pub fn asks_of<'r, 'a>(
    alloc: Global,
    instances: &'r Instances<'_, '_, 'a>,
    names: &'r Names<'a>,
    permissions: &'r [Vec<Bytes>],
) -> Result<Asks, NoMemory>
    requires entries { AreEntries (namespaces_in instances.now) (items_in instances.now) names.now }
    requires permissions { ArePermissions (namespaces_in instances.now) names.now (items_in instances.now) permissions.now }
    ensures asks { IfOk result (λ asks. AreAsks (namespaces_in instances.now) names.now (items_in instances.now) (could_in asks)) }
    ensures numbered { IfOk result (AreNumberedAsks (namespaces_in instances.now) names.now (items_in instances.now) permissions.now) }
{
    let worded = worded(alloc, instances)?;
    let maker = Maker {
        alloc,
        names,
        permissions,
        worded: worded.as_slice(),
    };
    table(&*instances, &maker)
}

/// What a table is made by, beside the instances.
#[derive(Clone, Copy)]
struct Maker<'r, 'a> {
    alloc: Global,
    names: &'r Names<'a>,
    permissions: &'r [Vec<Bytes>],
    /// For each written statement whether it has words.
    worded: &'r [bool],
}

/// The table of all that is placed.
fn table<'r, 'a>(
    instances: &'r Instances<'_, '_, 'a>,
    maker: &Maker<'r, 'a>,
) -> Result<Asks, NoMemory>
    requires entries { AreEntries (namespaces_in instances.now) (items_in instances.now) maker.now.names.now }
    requires permissions { ArePermissions (namespaces_in instances.now) maker.now.names.now (items_in instances.now) maker.now.permissions.now }
    requires worded { AreWorded instances.now maker.now.worded.now }
    ensures { IfOk result (AreNumberedAsks (namespaces_in instances.now) maker.now.names.now (items_in instances.now) maker.now.permissions.now) }
{
    let mut starts = Vec::with_capacity(maker.alloc, instances.len())?;
    let mut cells = Cells::new(maker.alloc);
    fill(instances, maker, &mut starts, &mut cells)?;
    Ok(Asks { starts, cells })
}

/// Adds a row for each instance, and where it begins.
fn fill<'r, 'a>(
    instances: &'r Instances<'_, '_, 'a>,
    maker: &Maker<'r, 'a>,
    starts: &mut Vec<u32>,
    cells: &mut Cells,
) -> Result<(), NoMemory>
    requires entries { AreEntries (namespaces_in instances.now) (items_in instances.now) maker.now.names.now }
    requires permissions { ArePermissions (namespaces_in instances.now) maker.now.names.now (items_in instances.now) maker.now.permissions.now }
    requires worded { AreWorded instances.now maker.now.worded.now }
    requires none { starts.old.items ≡ [] }
    ensures rows { OnOk result (AreNumberedAsks (namespaces_in instances.now) maker.now.names.now (items_in instances.now) maker.now.permissions.now (lists_at starts.new.items cells.new)) }
    ensures within { OnOk result (AreWithin (length cells.new) starts.new.items) }
{
    let mut scopes = Scopes::new(maker.alloc);
    fill_by(instances, maker, &mut scopes, starts, cells)
}

/// The same, with room for scopes.
fn fill_by<'r, 'a>(
    instances: &'r Instances<'_, '_, 'a>,
    maker: &Maker<'r, 'a>,
    scopes: &mut Scopes,
    starts: &mut Vec<u32>,
    cells: &mut Cells,
) -> Result<(), NoMemory>
    requires entries { AreEntries (namespaces_in instances.now) (items_in instances.now) maker.now.names.now }
    requires permissions { ArePermissions (namespaces_in instances.now) maker.now.names.now (items_in instances.now) maker.now.permissions.now }
    requires worded { AreWorded instances.now maker.now.worded.now }
    requires scopes { AreScopes instances.now scopes.old }
    requires none { starts.old.items ≡ [] }
    ensures rows { OnOk result (AreNumberedAsks (namespaces_in instances.now) maker.now.names.now (items_in instances.now) maker.now.permissions.now (lists_at starts.new.items cells.new)) }
    ensures within { OnOk result (AreWithin (length cells.new) starts.new.items) }
{
    for at in 0..instances.len() {
        add(instances, maker, at, scopes, starts, cells)?;
    }
    Ok(())
}

/// Adds what the statement at a place asks for, and where that begins. It needs a scope only where there are words.
fn add<'r, 'a>(
    instances: &'r Instances<'_, '_, 'a>,
    maker: &Maker<'r, 'a>,
    at: usize,
    scopes: &mut Scopes,
    starts: &mut Vec<u32>,
    cells: &mut Cells,
) -> Result<(), NoMemory>
    requires entries { AreEntries (namespaces_in instances.now) (items_in instances.now) maker.now.names.now }
    requires permissions { ArePermissions (namespaces_in instances.now) maker.now.names.now (items_in instances.now) maker.now.permissions.now }
    requires worded { AreWorded instances.now maker.now.worded.now }
    requires scopes { AreScopes instances.now scopes.old }
    requires within { at < length (items_in instances.now) }
    ensures starts { OnOk result (starts.new.items ≡ starts.old.items ++ length cells.old ∷ []) }
    ensures asks { OnOk result (cells.new ≡ cells.old ++ numbered_asks (namespaces_in instances.now) maker.now.names.now (items_in instances.now) maker.now.permissions.now (item_at instances.now at)) }
    ensures scopes { OnOk result (AreScopes instances.now scopes.new) }
{
    push_number(starts, cells.len())?;
    if !is_worded_at(instances, maker.worded, at) {
        return Ok(());
    }
    let walk = Walk {
        alloc: maker.alloc,
        names: maker.names,
        permissions: maker.permissions,
        reading: Reading {
            instances,
            at,
            statement: instances.statement_there(at),
        },
    };
    walk.statement(cells, scopes)
}

impl Asks {
    ghost use Rattle.std.specs.Prelude.{◌≡◌, [], get_or, length};
    ghost use Rattle.cil_names.specs.Rows.{AreWithin, lists_at};
    ghost use Rattle.cil_words.specs.Table.{could_in, word_ask};

    /// How many instances there are.
    pub fn len(&self) -> usize
        ensures { result ≡ length self.now }
    {
        self.starts.len()
    }

    /// For how many words of an instance there is a list.
    pub fn count(&self, at: usize) -> usize
        ensures { result ≡ length (get_or (could_in self.now) at []) }
    {
        let (start, end) = bounds(self.starts.as_slice(), &self.cells, at);
        end.saturating_sub(start)
    }

    /// The entries that a word of an instance could name, by its number in the instance; none where there is no such word.
    pub fn word(&self, at: usize, number: usize) -> &[u32]
        ensures { result.now ≡ get_or (get_or (could_in self.now) at []) number [] }
    {
        match place_in(self.starts.as_slice(), &self.cells, at, number) {
            None => &[],
            Some(place) => self.cells.row(place),
        }
    }

    /// The number that a permission of an instance has among those of its class, if the word of this number in the instance is a
    /// permission that its class has. The number is missing where the class word names what has no numbers.
    pub fn number(&self, at: usize, number: usize) -> Option<Option<usize>>
        ensures { result ≡ (get_or (get_or self.now at []) number (word_ask [])).number }
    {
        match place_in(self.starts.as_slice(), &self.cells, at, number) {
            None => None,
            Some(place) => self.cells.number(place),
        }
    }

    /// Where the row of each instance begins, and the rows, one after another.
    pub fn into_rows(self) -> (Vec<u32>, Cells)
        ensures rows { lists_at result.0.items result.1 ≡ self }
        ensures within { AreWithin (length result.1) result.0.items }
    {
        let Asks { starts, cells } = self;
        (starts, cells)
    }
}

/// The place of a word of an instance among all.
fn place_in(starts: &[u32], cells: &Cells, at: usize, number: usize) -> Option<usize>
    requires { AreWithin (length cells.now) starts.now }
    ensures { MatchOption result (word_ask [] ≡ get_or (get_or (lists_at starts.now cells.now) at []) number (word_ask []))
        (λ place. get_or cells.now place (word_ask []) ≡ get_or (get_or (lists_at starts.now cells.now) at []) number (word_ask [])) }
{
    let (start, end) = bounds(starts, cells, at);
    let Some(place) = start.checked_add(number) else {
        return None;
    };
    if place >= end {
        return None;
    }
    Some(place)
}

/// Where the row of a number begins and ends.
fn bounds(starts: &[u32], cells: &Cells, at: usize) -> (usize, usize)
    requires { AreWithin (length cells.now) starts.now }
    ensures row { slice_range cells.now result.0 result.1 ≡ get_or (lists_at starts.now cells.now) at [] }
    ensures within { result.1 ≤ length cells.now }
{
    let Some(start) = number_at(starts, at) else {
        return (0, 0);
    };
    let Some(end) = end_at(starts, at) else {
        return (start, cells.len());
    };
    (start, end)
}
