//! The classes of a policy, or exactly what is wrong with them.

ghost use Rattle.std.specs.Prelude.{◌≡◌};
ghost use Rattle.cil_faults.specs.Refusal.{Answers};
ghost use Rattle.cil_macros.specs.Items.{items_in, namespaces_in};
ghost use Rattle.cil_names.specs.Entries.{AreEntries, is_in};
ghost use Rattle.cil_known.specs.Numbers.{AreApart, AreNumbers, names_of};
ghost use Rattle.cil_names.specs.Shared.{AreShared};
ghost use Rattle.cil_names.specs.Unresolved.{ArePermissions};
ghost use Rattle.cil_classes.specs.ClassRows.{AreRowsOf};
ghost use Rattle.cil_classes.specs.Faults.{ClassFault};

use crate::row::Classes;
use crate::rows::class_rows;
use crate::widths::check_classes;
use cil_base::Bytes;
use cil_faults::Failure;
use cil_known::Numbering;
use cil_macros::Instances;
use cil_names::{Lookup, Shared};
use std::alloc::Global;

/// The classes of a policy, where permissions are given as a list in byte order for each entry that is a class, and `shared` are
/// the classes and commons that statements join. A class costs a copy of its name and of its permissions, each class statement
/// one search by halving, and each statement that joins a common two look-ups of its words.
///
/// Errors: enabled classes with more permissions than a mask has bits, at each of their statements, classes with two
/// different commons, at each statement that joins one to them, and more classes than a policy may have; or out of memory.
pub fn classes(
    alloc: Global,
    instances: &Instances,
    lookup: &Lookup,
    numbering: &Numbering,
    permissions: &[Vec<Bytes>],
    shared: &[Shared],
) -> Result<Classes, Failure>
    requires namespaces { lookup.now.namespaces.now ≡ namespaces_in instances.now }
    requires entries { AreEntries lookup.now.namespaces.now (items_in instances.now) lookup.now.names.now }
    requires permissions { ArePermissions lookup.now.namespaces.now lookup.now.names.now (items_in instances.now) permissions.now }
    requires shared { AreShared (namespaces_in instances.now) lookup.now.names.now (items_in instances.now) shared.now }
    requires numbers { AreNumbers lookup.now.namespaces.now lookup.now.names.now (is_in lookup.now.enabled.now) (names_of numbering.now.sections) numbering.now.numbers.items }
    requires apart { AreApart lookup.now.names.now (is_in lookup.now.enabled.now) numbering.now.numbers.items }
    ensures { Answers (λ classes. AreRowsOf lookup.now.namespaces.now lookup.now.names.now (is_in lookup.now.enabled.now) permissions.now numbering.now.sections.classes.items classes.rows.items)
        (ClassFault (is_in lookup.now.enabled.now) (items_in instances.now)) result }
{
    let names = numbering.sections.classes.as_slice();
    check_classes(alloc, instances, lookup, permissions, shared, names)?;
    let rows = class_rows(alloc, lookup, numbering, permissions)?;
    Ok(Classes { rows })
}
