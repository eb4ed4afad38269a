//! What stands, as it is kept.

ghost use Rattle.std.specs.Prelude.{◌≡◌, IfOk};

use cil_base::{NoMemory, short};

/// A statement as it stands somewhere. Its namespace, its scope and its chain follow from the one that opened it.
#[derive(Clone, Copy, Debug, PartialEq, Eq)]
pub struct Entry {
    /// The number of the statement.
    pub statement: u32,
    /// The place of the entry that opened it: a block, an optional, a booleanif, or a blockinherit; none at the top of a module.
    pub opener: Option<u32>,
}

// Policies have hundreds of thousands of them.
const _: () = prove!(size_of::<Entry>() <= 12);

impl Entry {
    ghost use Rattle.std.specs.Prelude.{◌≡◌, ◌≤◌, ◌<◌, IfOk, None};
    ghost use Rattle.cil_blocks.specs.Named.{rank};

    /// A statement by its number, and the place of what opened it. Error: out of memory, also for numbers from 4,294,967,296 on.
    pub fn of(statement: usize, opener: Option<usize>) -> Result<Entry, NoMemory>
        ensures { IfOk result (λ e. e ≡ record { statement = statement; opener = opener }) }
    {
        Ok(Entry {
            statement: short(statement)?,
            opener: small_place(opener)?,
        })
    }

    /// The place of the one that opened it, if it is lower than another one.
    pub fn lower(&self, limit: usize) -> Option<usize>
        ensures lower { rank result ≤ limit }
        ensures same { rank self.now.opener ≤ limit → result ≡ self.now.opener }
        ensures higher { limit < rank self.now.opener → result ≡ None }
    {
        let found = self.opener? as usize;
        if found < limit { Some(found) } else { None }
    }
}

/// A place in four bytes, if there is one.
fn small_place(place: Option<usize>) -> Result<Option<u32>, NoMemory>
    ensures { IfOk result (λ o. o ≡ place) }
{
    match place {
        None => Ok(None),
        Some(number) => Ok(Some(short(number)?)),
    }
}
