//! The statements at the top of the modules, and those directly in each statement. They cost one pass.

ghost use Rattle.std.specs.Prelude.{◌≡◌, ◌<◌, ◌++◌, ℕ, IfOk, OnOk, length};
ghost use Rattle.cil_syntax.specs.Program.{IsNested, program_of};
ghost use Rattle.cil_blocks.specs.Entries.{AreParts, IsWithin, parts_at, put_at, put_top};

use cil_base::NoMemory;
use cil_syntax::Statement;
use std::alloc::Global;

/// Statements by their numbers, in the order of writing.
#[derive(Debug, Drop)]
pub struct Parts {
    /// Those at the top of a module.
    pub tops: Vec<usize>,
    /// For each statement, those directly in it.
    pub inside: Vec<Vec<usize>>,
}

/// The parts of the statements of a program.
pub fn parts_of(alloc: Global, statements: &[Statement]) -> Result<Parts, NoMemory>
    requires { IsNested statements.now }
    ensures { IfOk result (AreParts (program_of statements.now)) }
{
    let inside = Vec::with_capacity(alloc, statements.len())?;
    let mut parts = Parts {
        tops: Vec::new(alloc),
        inside,
    };
    for (i, statement) in statements.iter().enumerate() {
        parts.add(alloc, i, statement.under)?;
    }
    Ok(parts)
}

impl Parts {
    ghost use Rattle.std.specs.Prelude.{◌≡◌, ◌++◌, ◌+◌, ℕ, OnOk, length};
    ghost use Rattle.cil_blocks.specs.Entries.{IsWithin, parts_at, put_at, put_top};

    /// Adds the statement of the next number.
    fn add(&mut self, alloc: Global, number: usize, under: Option<usize>) -> Result<(), NoMemory>
        requires { IsWithin under (length self.old.inside.items) }
        ensures tops { OnOk result (self.new.tops.items ≡ self.old.tops.items ++ put_top under number) }
        ensures inside { OnOk result ((k : ℕ) → parts_at self.new k ≡ parts_at self.old k ++ put_at under number k) }
        ensures length { OnOk result (length self.new.inside.items ≡ length self.old.inside.items + 1) }
    {
        self.inside.push(Vec::new(alloc))?;
        match under {
            None => {
                self.tops.push(number)?;
                Ok(())
            }
            Some(other) => {
                self.inside[other].push(number)?;
                Ok(())
            }
        }
    }
}
