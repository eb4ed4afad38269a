//! Which name a statement declares, by the number of its entry.

ghost use Rattle.std.specs.Prelude.{◌≡◌, ◌<◌, ℕ, List, MatchOption, length, true};
ghost use Rattle.cil_syntax.specs.declared.kind.Kind as kinds;
ghost use Rattle.cil_syntax.specs.Kinds.{is_wanted};
ghost use Rattle.cil_macros.specs.Items.{item_at, items_in, namespaces_in};
ghost use Rattle.cil_known.specs.Known.{IsKnown};
ghost use Rattle.cil_ranges.specs.DeclaredEntries.{DeclaresJust, DeclaresNone};

use cil_known::Known;
use cil_macros::Instances;
use cil_mls::declares;
use cil_syntax::{Kind, Sign};

/// The entry of a kind that the statement at a place declares, if it is an enabled one. The sign is one of words that may name this kind.
/// It costs a search by halving.
pub fn entry_declared(
    instances: &Instances,
    known: &Known,
    kind: Kind,
    sign: Sign,
    at: usize,
) -> Option<usize>
    requires namespaces { known.now.lookup.namespaces.now ≡ namespaces_in instances.now }
    requires known { (sections : kinds.Kind → List (List ℕ)) × IsKnown known.now (items_in instances.now) sections }
    requires wanted { is_wanted sign kind ≡ true }
    requires within { at < length (items_in instances.now) }
    ensures { MatchOption result (DeclaresNone known.now (items_in instances.now) kind (item_at instances.now at)) (DeclaresJust known.now (items_in instances.now) kind (item_at instances.now at)) }
{
    let statement = instances.statement_there(at);
    if !declares(statement.keyword, kind) {
        return None;
    }
    if !known.is_enabled(instances, at) {
        return None;
    }
    let Some(name) = statement.declared_name() else {
        return None;
    };
    let space = instances.space(at);
    known
        .lookup
        .names
        .entry(known.lookup.namespaces, space, name.bytes, sign)
}
