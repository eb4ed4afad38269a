//! The places of all that stands, one entry after another: each is reached from the place of the statement that opened it. A
//! block costs a hash, and a blockinherit a step.

ghost use Rattle.std.specs.Prelude.{◌≡◌, ◌≤◌, ◌<◌, IfOk, IfSome};
ghost use Rattle.cil_syntax.specs.Program.{IsNested, program_of};
ghost use Rattle.cil_blocks.specs.Entries.{AreOpened};
ghost use Rattle.cil_blocks.specs.Places.{ArePlaces, all_numbered};
ghost use Rattle.cil_blocks.specs.Placing.{IsInherited, IsRepeated};
ghost use Rattle.cil_blocks.specs.WrittenSpaces.{AreWritten};

use crate::entry::Entry;
use crate::names::{is_inheriting, keeps_place_at, name_at};
use crate::namespaces::Namespaces;
use crate::places::{Inside, Places};
use crate::written::WrittenSpaces;
use cil_base::NoMemory;
use cil_syntax::Statement;
use std::alloc::Global;

/// Namespaces, and the places in them of all that stands.
#[derive(Drop)]
pub struct Located<'a> {
    /// The namespaces.
    pub namespaces: Namespaces<'a>,
    /// The place of each entry, in their order.
    pub places: Places,
}

/// What places follow from.
#[derive(Drop)]
struct Source<'s, 'a> {
    statements: &'s [Statement<'a>],
    opened: &'s [Option<usize>],
    entries: &'s [Entry],
}

/// The places of some entries, where it is known what each statement opens. The namespaces are those that are written, and
/// behind them those that inheritance makes.
pub fn places_of<'a>(
    alloc: Global,
    statements: &[Statement<'a>],
    spaces: WrittenSpaces<'a>,
    opened: &[Option<usize>],
    entries: &[Entry],
) -> Result<Located<'a>, NoMemory>
    requires nested { IsNested statements.now }
    requires written { AreWritten (program_of statements.now) spaces }
    requires opened { AreOpened (program_of statements.now) opened.now }
    ensures { IfOk result (λ located. ArePlaces (program_of statements.now) entries.now located.namespaces (all_numbered located.namespaces located.places)) }
{
    let source = Source {
        statements,
        opened,
        entries,
    };
    let mut spaces = spaces;
    let mut places = Places::new(alloc);
    for rank in 0..entries.len() {
        source.add_place(&mut spaces, &mut places, rank)?;
    }
    Ok(Located {
        namespaces: spaces.namespaces,
        places,
    })
}

impl<'s, 'a> Source<'s, 'a> {
    ghost use Rattle.std.specs.Prelude.{◌≡◌, ◌≤◌, ◌<◌, ◌+◌, IfOk, OnOk, length, take};
    ghost use Rattle.cil_syntax.specs.Program.{IsNested, program_of};
    ghost use Rattle.cil_blocks.specs.Entries.{AreOpened};
    ghost use Rattle.cil_blocks.specs.Namespaces.{AreNamespaces, IsGrown};
    ghost use Rattle.cil_blocks.specs.Placing.{AreFirstReached, IsInside};
    ghost use Rattle.cil_blocks.specs.WrittenSpaces.{AreWritten};

    /// Adds the place of the next entry.
    fn add_place(
        &self,
        spaces: &mut WrittenSpaces<'a>,
        places: &mut Places,
        rank: usize,
    ) -> Result<(), NoMemory>
        requires nested { IsNested self.now.statements.now }
        requires opened { AreOpened (program_of self.now.statements.now) self.now.opened.now }
        requires next { rank < length self.now.entries.now }
        requires first { AreFirstReached (program_of self.now.statements.now) (take rank self.now.entries.now) spaces.old.namespaces places.old }
        requires written { AreWritten (program_of self.now.statements.now) spaces.old }
        ensures first { OnOk result (AreFirstReached (program_of self.now.statements.now) (take (rank + 1) self.now.entries.now) spaces.new.namespaces places.new) }
        ensures written { OnOk result (AreWritten (program_of self.now.statements.now) spaces.new) }
    {
        let Some(opener) = self.entries[rank].lower(rank) else {
            places.push_global()?;
            return Ok(());
        };
        if let Some(before) = repeated(self.entries, rank, opener) {
            places.push_again(before)?;
            return Ok(());
        }
        // What is in an optional or in a branch stands where the optional or the booleanif does.
        if keeps_place_at(self.statements, self.entries[opener].statement as usize) {
            places.push_again(opener)?;
            return Ok(());
        }
        let Some(outer) = places.space(opener) else {
            return Ok(());
        };
        let inside = self.inside(spaces, self.entries[opener].statement as usize, outer)?;
        places.push_inside(opener, inside)?;
        Ok(())
    }

    /// What the statement of a number opens where it is in the namespace of another number.
    fn inside(
        &self,
        spaces: &mut WrittenSpaces<'a>,
        number: usize,
        outer: usize,
    ) -> Result<Inside, NoMemory>
        requires nested { IsNested self.now.statements.now }
        requires opened { AreOpened (program_of self.now.statements.now) self.now.opened.now }
        requires space { outer ≤ length spaces.old.namespaces }
        requires written { AreWritten (program_of self.now.statements.now) spaces.old }
        ensures grown { OnOk result (IsGrown spaces.old.namespaces spaces.new.namespaces) }
        ensures inside { IfOk result (λ inside. IsInside (program_of self.now.statements.now) spaces.old.namespaces spaces.new.namespaces outer number inside.space inside.written) }
        ensures written { OnOk result (AreWritten (program_of self.now.statements.now) spaces.new) }
    {
        match inherited_at(self.statements, self.opened, number) {
            None => {
                let space = spaces
                    .namespaces
                    .number(outer, name_at(self.statements, number))?;
                Ok(Inside {
                    space,
                    written: None,
                })
            }
            Some(block) => Ok(Inside {
                space: outer,
                written: Some(spaces.round(self.statements, block)),
            }),
        }
    }
}

/// The rank of the entry before, if that was opened by this one too.
fn repeated(entries: &[Entry], rank: usize, opener: usize) -> Option<usize>
    ensures { IfSome result (IsRepeated entries.now rank opener) }
{
    let before = rank.checked_sub(1)?;
    let entry = entries.get(before)?;
    let same = entry.lower(before)?;
    if same == opener { Some(before) } else { None }
}

/// The number of the block that the statement of a number inherits.
fn inherited_at(statements: &[Statement], opened: &[Option<usize>], number: usize) -> Option<usize>
    requires nested { IsNested statements.now }
    requires opened { AreOpened (program_of statements.now) opened.now }
    ensures { IsInherited (program_of statements.now) number result }
{
    match statements.get(number) {
        None => None,
        Some(statement) => {
            if !is_inheriting(statement.keyword) {
                return None;
            }
            match opened.get(number) {
                None => None,
                Some(target) => *target,
            }
        }
    }
}
