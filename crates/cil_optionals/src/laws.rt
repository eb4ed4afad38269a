//! Laws that fix the definitions: there is one greatest set of optionals, and one policy. The functions of these do nothing. One
//! function finds the greatest set in the plainest way, in rounds, and its contract says that the set is the same.

ghost use Rattle.std.specs.Prelude.{◌≡◌, IfOk};
ghost use Rattle.cil_macros.specs.Item.{OptSet};
ghost use Rattle.cil_macros.specs.Items.{items_in, namespaces_in};
ghost use Rattle.cil_names.specs.Entries.{AreEntries, is_in};
ghost use Rattle.cil_names.specs.Unresolved.{ArePermissions};
ghost use Rattle.cil_optionals.specs.Certificate.{IsRight};
ghost use Rattle.cil_optionals.specs.Greatest.{IsGreatest};
ghost use Rattle.cil_optionals.specs.Laws.{FlatIsGreatest, HasOneFirst, HasOneGreatest, HasOnePolicy};
ghost use Rattle.cil_optionals.specs.Laws.{KeepsResolving, RightIsGreatest, TellsJudged, UnionIsGood};

use crate::chosen::Chosen;
use crate::parts::parts_of;
use crate::removal::by_removal;
use cil_base::NoMemory;
use cil_macros::Instances;
use cil_names::Names;
use cil_names::laws::resolves_by_candidates;
use cil_syntax::Bytes;
use cil_words::asks_of;
use std::alloc::Global;

/// A word that resolves goes on to resolve where more optionals are in, perhaps to a nearer name.
pub fn keeps_resolving()
    ensures { KeepsResolving }
{}

/// The union of all good sets of optionals is good.
pub fn union_is_good()
    ensures { UnionIsGood }
{}

/// The enabled set of a right choice is the greatest: reasons that hold one after the other show it.
pub fn right_is_greatest()
    ensures { RightIsGreatest }
{}

/// There is one greatest set of optionals.
pub fn one_greatest()
    ensures { HasOneGreatest }
{}

/// Modules have one policy.
pub fn one_policy()
    ensures { HasOnePolicy }
{}

/// Where no statement is an optional, the greatest set of optionals is the empty one.
pub fn flat_is_greatest()
    ensures { FlatIsGreatest }
{}

/// An optional has one first reason, where the same optionals are out.
pub fn one_first()
    ensures { HasOneFirst }
{}

/// The word of a first reason is judged: it is no permission of a class that is missing.
pub fn tells_judged()
    ensures { TellsJudged }
{}

/// The greatest set of optionals in rounds: each pass over all statements takes out the optionals for which it finds a reason,
/// until a pass finds none. There may be as many passes as optionals. It gives the set that `greatest` gives, which costs less.
/// Error: out of memory.
pub fn greatest_in_rounds<'r, 'a>(
    alloc: Global,
    instances: &'r Instances<'_, '_, 'a>,
    names: &'r Names<'a>,
    permissions: &'r [Vec<Bytes>],
) -> Result<Chosen, NoMemory>
    requires entries { AreEntries (namespaces_in instances.now) (items_in instances.now) names.now }
    requires permissions { ArePermissions (namespaces_in instances.now) names.now (items_in instances.now) permissions.now }
    ensures right { IfOk result (λ c. IsRight (items_in instances.now) (is_in c.enabled) c.reasons.items) }
    ensures one_set { IfOk result (λ c. (s : OptSet) → IsGreatest (items_in instances.now) s → s ≡ is_in c.enabled) }
{
    right_is_greatest();
    one_greatest();
    resolves_by_candidates();
    let asks = asks_of(alloc, instances, names, permissions)?;
    let parts = parts_of(instances, names, &asks);
    let chosen = by_removal(alloc, &parts, names.entries())?;
    Ok(chosen)
}
