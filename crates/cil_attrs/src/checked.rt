//! The members of all aliases and attributes of a name space, or exactly what is wrong with them.

ghost use Rattle.std.specs.Prelude.{◌≡◌, IfOk, List, map, ℕ};
ghost use Rattle.cil_faults.specs.Refusal.{Answers};
ghost use Rattle.cil_syntax.specs.declared.kind.Kind as kinds;
ghost use Rattle.cil_known.specs.macros.Items.{Kept, items_in, namespaces_in};
ghost use Rattle.cil_known.specs.declared.known.Known.{Known as Lookups};
ghost use Rattle.cil_known.specs.Known.{IsKnown, enabled_in, row_in};
ghost use Rattle.cil_known.specs.Numbers.{AreApart};
ghost use Rattle.cil_known.specs.names.Rows.{IsTableOf};
ghost use Rattle.cil_known.specs.Spaces.{SpaceOf};
ghost use Rattle.cil_attrs.specs.Givers.{AreGifts, AreWritten, HasKinds};
ghost use Rattle.cil_attrs.specs.Laws.{IsSpace};
ghost use Rattle.cil_attrs.specs.Made.{AreSetsAt, HaveMeanings};
ghost use Rattle.cil_attrs.specs.Members.{AreMade, AreMembers, IsIn, meaning_there};
ghost use Rattle.cil_attrs.specs.Order.{FallFor};
ghost use Rattle.cil_attrs.specs.Plain.{ArePlain};
ghost use Rattle.cil_attrs.specs.Limits.{said_limit};
ghost use Rattle.cil_attrs.specs.SetFaults.{SetFault, limit_of};

use crate::beginning::{all_items, begun};
use crate::evaluator::Held;
use crate::faults::check_sets;
use crate::giver::{SpaceKinds, givens_of};
use crate::held::Members;
use crate::making::{Given, made};
use crate::order::{cycles_of_sets, ranked};
use crate::plain::all_plain;
use crate::space::{Limit, Space};
use cil_base::{Bytes, NoMemory};
use cil_known::{Instances, Known, names_laws as laws};
use cil_syntax::{Failure, Sign};
use std::alloc::Global;

/// The members of all aliases and attributes of a name space, whose items have these names, or exactly what is wrong with them.
/// Faults are judged before any set is made, so no set has more members than items may be. Then each expression is evaluated once: a
/// statement that names one item costs a search by halving, and one that names a set a step for each of its blocks.
///
/// Errors: aliases without a target or with two different ones, sets that depend on themselves, too many items; or out of memory. An
/// expression over sets that named permissions would be out of memory too: there is none, since no statement of this kind is read so.
pub fn members<S: Space>(
    alloc: Global,
    instances: &Instances,
    known: &Known,
    names: &[Bytes],
) -> Result<Members, Failure>
    requires namespaces { known.now.lookup.namespaces.now ≡ namespaces_in instances.now }
    requires table { IsTableOf (map (row_in known.now) (items_in instances.now)) known.now.words.now }
    requires known { (sections : kinds.Kind → List (List ℕ)) × (which : SpaceOf) × IsIn known.now instances.now S.kinds names.now sections which }
    requires apart { AreApart known.now.lookup.names.now (enabled_in known.now) known.now.numbers.now }
    ensures { (sections : kinds.Kind → List (List ℕ)) (which : SpaceOf) → IsIn known.now instances.now S.kinds names.now sections which
        → Answers (AreMembers known.now (items_in instances.now) sections which) (SetFault (items_in instances.now) (enabled_in known.now) which) result }
{
    let space = S::kinds();
    members_of(
        alloc,
        instances,
        known,
        names,
        &space,
        S::sign(),
        S::limit(),
    )
}

/// The same for a name space with these kinds, sign and limit.
fn members_of(
    alloc: Global,
    instances: &Instances,
    known: &Known,
    names: &[Bytes],
    space: &SpaceKinds,
    sign: Sign,
    limit: Option<Limit>,
) -> Result<Members, Failure>
    requires namespaces { known.now.lookup.namespaces.now ≡ namespaces_in instances.now }
    requires table { IsTableOf (map (row_in known.now) (items_in instances.now)) known.now.words.now }
    requires space { IsSpace space.now sign }
    requires limit { limit_of space.now.item ≡ said_limit limit }
    requires known { (sections : kinds.Kind → List (List ℕ)) × (which : SpaceOf) × IsIn known.now instances.now space.now names.now sections which }
    requires apart { AreApart known.now.lookup.names.now (enabled_in known.now) known.now.numbers.now }
    ensures { (sections : kinds.Kind → List (List ℕ)) (which : SpaceOf) → IsIn known.now instances.now space.now names.now sections which
        → Answers (AreMembers known.now (items_in instances.now) sections which) (SetFault (items_in instances.now) (enabled_in known.now) which) result }
{
    // What is known of a word: it means the entry that it names.
    laws::means_what_it_names();
    let first = begun(alloc, known, space)?;
    let givens = plain_givens(alloc, instances, known, space)?;
    let cycles = cycles_of_sets(alloc, first.as_slice(), givens.as_slice())?;
    check_sets(
        alloc,
        instances,
        known,
        names,
        space,
        sign,
        limit,
        cycles.on.as_slice(),
    )?;
    let held = made_by_ranks(alloc, names, first, givens, cycles.ranks.as_slice())?;
    Ok(Members::of(held))
}

/// What all statements give sets, where no expression names permissions. Error: out of memory.
fn plain_givens<'s, 'k, 'a>(
    alloc: Global,
    instances: &Instances<'_, 's, 'a>,
    known: &Known<'k, '_>,
    of: &SpaceKinds,
) -> Result<Vec<Given<'s, 'k, 'a>>, NoMemory>
    requires table { IsTableOf (map (row_in known.now) (items_in instances.now)) known.now.words.now }
    requires written { AreWritten of.now }
    ensures gifts { IfOk result (λ givens. (sections : kinds.Kind → List (List ℕ)) (which : SpaceOf) → IsKnown known.now (items_in instances.now) sections → HasKinds of.now which
        → AreGifts known.now (items_in instances.now) which instances.now (items_in instances.now) givens.items) }
    ensures plain { IfOk result (λ givens. ArePlain givens.items) }
{
    let givens = givens_of(alloc, instances, known, of)?;
    if !all_plain(givens.as_slice()) {
        return Err(NoMemory);
    }
    Ok(givens)
}

/// The sets, made in the order of their ranks. Error: out of memory.
fn made_by_ranks(
    alloc: Global,
    names: &[Bytes],
    first: Vec<Held>,
    givens: Vec<Given>,
    ranks: &[usize],
) -> Result<Vec<Held>, NoMemory>
    requires sets { AreSetsAt first.items givens.items }
    requires fall { FallFor first.items givens.items ranks.now }
    ensures { IfOk result (λ held. (k : Lookups) (i : Kept) → HaveMeanings (meaning_there k i) givens.entry.items → AreMade k i names.now first.items givens.entry.items held.items) }
{
    let all = all_items(alloc, names)?;
    let ordered = ranked(givens, ranks);
    let held = made(alloc, &all, first, ordered.as_slice())?;
    Ok(held)
}
