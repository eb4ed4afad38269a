//! What stands in a program whose blocks are in order.

ghost use Rattle.std.specs.Prelude.{◌≡◌, ◌≤◌, IfNone, IfOk, IfSome, List, length};
ghost use Rattle.cil_base.specs.Lists.{Lists};
ghost use Rattle.cil_syntax.specs.Program.{IsNested, program_of};
ghost use Rattle.cil_blocks.specs.Contents.{Stands, standing_cmp};
ghost use Rattle.cil_blocks.specs.Entries.{AreOpened, AreParts, standings_of};
ghost use Rattle.cil_blocks.specs.InheritFaults.{IsOver};
ghost use Rattle.cil_blocks.specs.Laws.{HasNoFault, HasOneTarget};

use crate::entry::Entry;
use crate::laws;
use crate::parts::Parts;
use crate::walker::walk;
use cil_base::NoMemory;
use cil_syntax::Statement;
use std::alloc::Global;

/// All that stands in a program in which nothing is wrong with the blocks, in the order of the walk; or nothing where that is
/// more than the limit. A step for each entry is its cost.
pub fn contents_of(
    alloc: Global,
    statements: &[Statement],
    parts: &Parts,
    opened: &[Option<usize>],
    limit: usize,
) -> Result<Option<Vec<Entry>>, NoMemory>
    requires nested { IsNested statements.now }
    requires parts { AreParts (program_of statements.now) parts.now }
    requires opened { HasOneTarget (program_of statements.now) → AreOpened (program_of statements.now) opened.now }
    ensures all { IfOk result (λ o. IfSome o (λ v. HasNoFault (program_of statements.now) → Lists standing_cmp (Stands (program_of statements.now)) (standings_of (program_of statements.now) v.items))) }
    ensures few { IfOk result (λ o. IfSome o (λ v. length v.items ≤ limit)) }
    ensures many { IfOk result (λ o. IfNone o (HasNoFault (program_of statements.now) → IsOver standing_cmp (Stands (program_of statements.now)) limit)) }
{
    // Where nothing is wrong, each blockinherit has one target.
    laws::one_target();
    walk(alloc, parts, opened, limit)
}
