//! Laws that fix the answer of the compiler: it depends on the texts of the modules alone. Nothing here is run.

ghost use Rattle.cil_tables.specs.Laws.{AlwaysCompilesOrFails, HasAFamily, HasOneListOfFaults, HasOneTable};

use cil_blocks::laws as blocks;
use cil_macros::laws as macros;
use cil_optionals::laws as optionals;
use cil_syntax::laws as statements;

/// Modules compile to one table: two sets with the same texts have equal tables, in whatever order and how often
/// the texts came.
pub fn one_table()
    ensures { HasOneTable }
{}

/// Modules have one list of faults; where they compile, it is empty.
pub fn one_list_of_faults()
    ensures { HasOneListOfFaults }
{}

/// Readable modules compile to tables, or they have a list of faults, if they have no block, macro, optional or booleanif, forbid nothing, have
/// no constraint, and give no alias, attribute, class permission or class map what it stands for. So there are none of these for which every
/// correct compiler could only report that memory ran out.
pub fn always_compiles_or_fails()
    ensures { AlwaysCompilesOrFails }
{
    statements::always_program_or_faults();
    blocks::flat_contents();
    macros::flat_instances();
    optionals::flat_is_greatest();
}

/// Where no set depends on itself, which ranks show, some family of sets has the members that statements give. So tables that speak of
/// such families exist.
pub fn a_family_exists()
    ensures { HasAFamily }
{}
