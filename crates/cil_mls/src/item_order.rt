//! The one order of sensitivities or of categories, as the statements of a policy fix it.

ghost use Rattle.std.specs.Prelude.{◌≡◌, ℕ, IfOk, List, MatchOption, false, map, true};
ghost use Rattle.cil_syntax.specs.declared.kind.Keyword.TheVariants as keywords;
ghost use Rattle.cil_syntax.specs.declared.kind.Kind.{Kind as AKind};
ghost use Rattle.cil_syntax.specs.declared.kind.Kind.TheVariants as kinds;
ghost use Rattle.cil_faults.specs.Refusal.{Answers};
ghost use Rattle.cil_attrs.specs.macros.Items.{items_in, may_say_lists, namespaces_in, says_as_written};
ghost use Rattle.cil_attrs.specs.known.Known.{IsKnown, enabled_in, row_in};
ghost use Rattle.cil_attrs.specs.known.Members.{space_of};
ghost use Rattle.cil_attrs.specs.known.Numbers.{AreApart, has_section, names_of};
ghost use Rattle.cil_attrs.specs.names.Resolves.{is_mapping};
ghost use Rattle.cil_attrs.specs.names.Rows.{IsTableOf};
ghost use Rattle.cil_attrs.specs.Members.{AreMembers};
ghost use Rattle.cil_attrs.specs.SetFaults.{SetFault};
ghost use Rattle.cil_mls.specs.Ordering.{AreNumbered, HasNoOrder, IsNumberedOrder};

use crate::order::order_of;
use crate::pairs::pairs_of;
use cil_attrs::{
    Categories, Instances, Known, Members, Sections, Sensitivities, members, standing_of,
};
use cil_base::{Bytes, NoMemory};
use cil_faults::Failure;
use cil_sets::Numbers;
use cil_syntax::{Keyword, Kind};
use std::alloc::Global;

/// The sensitivities from the lowest to the highest, by their numbers; none where the `sensitivityorder` statements fix no order, or
/// leave several. An alias stands for its sensitivity.
///
/// A statement costs a step, and each word that is listed two copies of a set of one number; then it costs what `order_of` costs.
///
/// Errors: the faults of aliases of sensitivities, without which no order is judged; or out of memory.
pub(crate) fn sensitivity_order(
    alloc: Global,
    instances: &Instances,
    known: &Known,
    sections: &Sections,
) -> Result<Option<Vec<usize>>, Failure>
    requires namespaces { known.now.lookup.namespaces.now ≡ namespaces_in instances.now }
    requires table { IsTableOf (map (row_in known.now) (items_in instances.now)) known.now.words.now }
    requires known { IsKnown known.now (items_in instances.now) (names_of sections.now) }
    requires apart { AreApart known.now.lookup.names.now (enabled_in known.now) known.now.numbers.now }
    ensures { Answers (λ order. MatchOption order (HasNoOrder (items_in instances.now) (enabled_in known.now) kinds.Sensitivity keywords.SensitivityOrder)
        (λ row. IsNumberedOrder (items_in instances.now) (enabled_in known.now) kinds.Sensitivity keywords.SensitivityOrder sections.now.sensitivities.items row.items))
        (SetFault (items_in instances.now) (enabled_in known.now) (space_of kinds.Sensitivity)) result }
{
    let names = sections.sensitivities.as_slice();
    let members = members::<Sensitivities>(alloc, instances, known, names)?;
    let order = order_by(
        alloc,
        instances,
        known,
        names,
        &members,
        Kind::Sensitivity,
        Keyword::SensitivityOrder,
    )?;
    Ok(order)
}

/// The categories from the lowest to the highest, by the `categoryorder` statements, as `sensitivity_order` answers sensitivities. Sets
/// of categories take no part.
///
/// Errors: the faults of aliases of categories, or out of memory.
pub(crate) fn category_order(
    alloc: Global,
    instances: &Instances,
    known: &Known,
    sections: &Sections,
) -> Result<Option<Vec<usize>>, Failure>
    requires namespaces { known.now.lookup.namespaces.now ≡ namespaces_in instances.now }
    requires table { IsTableOf (map (row_in known.now) (items_in instances.now)) known.now.words.now }
    requires known { IsKnown known.now (items_in instances.now) (names_of sections.now) }
    requires apart { AreApart known.now.lookup.names.now (enabled_in known.now) known.now.numbers.now }
    ensures { Answers (λ order. MatchOption order (HasNoOrder (items_in instances.now) (enabled_in known.now) kinds.Category keywords.CategoryOrder)
        (λ row. IsNumberedOrder (items_in instances.now) (enabled_in known.now) kinds.Category keywords.CategoryOrder sections.now.categories.items row.items))
        (SetFault (items_in instances.now) (enabled_in known.now) (space_of kinds.Category)) result }
{
    let names = sections.categories.as_slice();
    let members = members::<Categories>(alloc, instances, known, names)?;
    let order = order_by(
        alloc,
        instances,
        known,
        names,
        &members,
        Kind::Category,
        Keyword::CategoryOrder,
    )?;
    Ok(order)
}

/// The order of the items of a kind, by the statements of a keyword, where the aliases of the kind have these members. Error: out of
/// memory.
fn order_by(
    alloc: Global,
    instances: &Instances,
    known: &Known,
    names: &[Bytes],
    members: &Members,
    kind: Kind,
    keyword: Keyword,
) -> Result<Option<Vec<usize>>, NoMemory>
    requires table { IsTableOf (map (row_in known.now) (items_in instances.now)) known.now.words.now }
    requires apart { AreApart known.now.lookup.names.now (enabled_in known.now) known.now.numbers.now }
    requires members { (sections : AKind → List (List ℕ)) × IsKnown known.now (items_in instances.now) sections × (sections kind ≡ names.now)
        × AreMembers known.now (items_in instances.now) sections (space_of kind) members.now }
    requires section { has_section kind ≡ true }
    requires written { says_as_written keyword ≡ true }
    requires named { may_say_lists keyword ≡ false }
    requires plain { is_mapping keyword ≡ false }
    ensures { IfOk result (λ order. MatchOption order (HasNoOrder (items_in instances.now) (enabled_in known.now) kind keyword)
        (λ row. IsNumberedOrder (items_in instances.now) (enabled_in known.now) kind keyword names.now row.items)) }
{
    let standing = standing_of(alloc, members.held(), names.len())?;
    order_in(
        alloc,
        instances,
        known,
        names,
        standing.as_slice(),
        kind,
        keyword,
    )
}

/// The same, where the words of each declared name stand for these numbers.
fn order_in(
    alloc: Global,
    instances: &Instances,
    known: &Known,
    names: &[Bytes],
    standing: &[Numbers],
    kind: Kind,
    keyword: Keyword,
) -> Result<Option<Vec<usize>>, NoMemory>
    requires table { IsTableOf (map (row_in known.now) (items_in instances.now)) known.now.words.now }
    requires apart { AreApart known.now.lookup.names.now (enabled_in known.now) known.now.numbers.now }
    requires numbered { (sections : AKind → List (List ℕ)) × AreNumbered known.now (items_in instances.now) sections kind names.now standing.now }
    requires section { has_section kind ≡ true }
    requires written { says_as_written keyword ≡ true }
    requires named { may_say_lists keyword ≡ false }
    requires plain { is_mapping keyword ≡ false }
    ensures { IfOk result (λ order. MatchOption order (HasNoOrder (items_in instances.now) (enabled_in known.now) kind keyword)
        (λ row. IsNumberedOrder (items_in instances.now) (enabled_in known.now) kind keyword names.now row.items)) }
{
    let mut edges = pairs_of(alloc, instances, known, standing, keyword)?;
    order_of(alloc, edges.as_mut_slice(), names.len())
}
