//! The pairs that statements join: users with roles, roles with types, and roles with those to which they may change. A statement costs
//! no look-up of a word. It joins each of the one set with each of the other: n statements over two full sets cost n steps for each holder
//! and each block of the other set.

ghost use Rattle.std.specs.Prelude.{◌≡◌, ◌<◌, [], get_or, length, ℕ, IfOk, List, MatchOption, map, true, false};
ghost use Rattle.cil_base.specs.Lists.{Lists};
ghost use Rattle.cil_syntax.specs.declared.kind.Kind as kinds;
ghost use Rattle.cil_macros.specs.Item.{Item};
ghost use Rattle.cil_macros.specs.Items.{item_at, items_in, may_say_lists, says_as_written};
ghost use Rattle.cil_names.specs.Resolves.{is_mapping};
ghost use Rattle.cil_names.specs.Rows.{IsTableOf};
ghost use Rattle.cil_tables.specs.Links.{IsLink, JoinsAll, JoinsNothing};
ghost use Rattle.cil_known.specs.Known.{AreStanding, IsKnown, enabled_in, row_in, set_meant};
ghost use Rattle.cil_tables.specs.Table.{link_cmp};

use crate::holders::Links;
use cil_base::NoMemory;
use cil_known::{Known, meaning_at};
use cil_macros::Instances;
use cil_names::{Meaning, same_keyword};
use cil_sets::Numbers;
use cil_syntax::{Keyword, Kind};
use std::alloc::Global;

/// Statements that join two symbols: their first word, and the kinds of the symbols.
#[derive(Clone, Copy)]
pub struct Joins {
    /// The first word of the statements.
    pub keyword: Keyword,
    /// The kind of the first symbol, which has the second.
    pub holder_kind: Kind,
    /// The kind of the second symbol.
    pub held_kind: Kind,
}

/// The numbers of the symbols that enabled statements join, by holder and what is held, where the words of each declared name stand
/// for these.
pub(crate) fn links_of(
    alloc: Global,
    instances: &Instances,
    known: &Known,
    joins: Joins,
    holders: &[Numbers],
    helds: &[Numbers],
) -> Result<Links, NoMemory>
    requires table { IsTableOf (map (row_in known.now) (items_in instances.now)) known.now.words.now }
    requires written { says_as_written joins.keyword ≡ true }
    requires named { may_say_lists joins.keyword ≡ false }
    requires plain { is_mapping joins.keyword ≡ false }
    ensures { IfOk result (λ links. (names : kinds.Kind → List (List ℕ)) → IsKnown known.now (items_in instances.now) names
        → AreStanding known.now (items_in instances.now) names joins.holder_kind holders.now → AreStanding known.now (items_in instances.now) names joins.held_kind helds.now
        → Lists link_cmp (IsLink (items_in instances.now) (enabled_in known.now) joins.keyword joins.holder_kind joins.held_kind (names joins.holder_kind) (names joins.held_kind)) links) }
{
    let mut links = Links::new(alloc);
    for at in 0..instances.len() {
        if let Some(joined) = joined_at(
            instances,
            at,
            known.words.row(at),
            known,
            joins,
            holders,
            helds,
        ) {
            links.join(alloc, joined.holders, joined.helds)?;
        }
    }
    Ok(links)
}

/// What a statement joins: each of some numbers with each of others.
#[derive(Clone, Copy)]
struct Joined<'s> {
    holders: &'s Numbers,
    helds: &'s Numbers,
}

/// What the statement at a place joins, by what its two words mean.
fn joined_at<'s>(
    instances: &Instances,
    at: usize,
    words: &[Meaning],
    known: &Known,
    joins: Joins,
    holders: &'s [Numbers],
    helds: &'s [Numbers],
) -> Option<Joined<'s>>
    requires within { at < length (items_in instances.now) }
    requires written { says_as_written joins.keyword ≡ true }
    requires named { may_say_lists joins.keyword ≡ false }
    requires plain { is_mapping joins.keyword ≡ false }
    ensures { (xs : List Item) (names : kinds.Kind → List (List ℕ)) → IsKnown known.now xs names → AreStanding known.now xs names joins.holder_kind holders.now
        → AreStanding known.now xs names joins.held_kind helds.now → words.now ≡ row_in known.now (item_at instances.now at)
        → MatchOption result (JoinsNothing xs (enabled_in known.now) joins.keyword joins.holder_kind joins.held_kind (names joins.holder_kind) (names joins.held_kind) (item_at instances.now at))
        (λ joined. JoinsAll xs (enabled_in known.now) joins.keyword joins.holder_kind joins.held_kind (names joins.holder_kind) (names joins.held_kind) (item_at instances.now at)
        joined.holders.now joined.helds.now) }
{
    let statement = instances.statement_there(at);
    if !same_keyword(statement.keyword, joins.keyword) {
        return None;
    }
    if !known.is_enabled(instances, at) {
        return None;
    }
    let _words = statement.two_words()?;
    let first = set_at(holders, meaning_at(words, 0))?;
    let second = set_at(helds, meaning_at(words, 1))?;
    Some(Joined {
        holders: first,
        helds: second,
    })
}

/// The set that is kept for what a word means.
fn set_at(sets: &[Numbers], meaning: Option<usize>) -> Option<&Numbers>
    ensures { MatchOption result (set_meant sets.now meaning ≡ []) (λ set. set.now ≡ set_meant sets.now meaning) }
{
    match meaning {
        Some(d) => set_of(sets, d),
        None => None,
    }
}

/// The set of this number.
fn set_of(sets: &[Numbers], d: usize) -> Option<&Numbers>
    ensures { MatchOption result (get_or sets.now d [] ≡ []) (λ set. set.now ≡ get_or sets.now d []) }
{
    match sets.get(d) {
        Some(set) => Some(set),
        None => None,
    }
}
