//! Laws of runs. The functions do nothing when they are called; the contract of each is a law, and a proof that needs the law calls
//! the function.

ghost use Rattle.cil_world.specs.Laws.{LoadAlike, NoneRefused, NothingChanges};

use cil_host::{modset_laws as bundles, tables_laws as policies};

/// Hosts that the same texts have reached, in whatever order and by whatever way, answer a load alike: with the same faults, or with the same
/// length and digest.
pub fn load_alike()
    ensures { LoadAlike }
{
    policies::one_table();
    policies::one_list_of_faults();
}

/// An event that is answered with out of memory changes nothing, nor does one whose host or export is not there.
pub fn nothing_changes()
    ensures { NothingChanges }
{}

/// No bundle that a host has exported is refused.
pub fn none_refused()
    ensures { NoneRefused }
{
    bundles::never_both();
}
