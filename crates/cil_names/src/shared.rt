//! The permissions that classes share by commons.

ghost use Rattle.std.specs.Prelude.{◌≡◌, ◌⊎◌, ◌+◌, ◌<◌, ◌≤◌, ◌++◌, All, IfOk, List, MatchOption, None, OnOk, Some, false, length, refl, take, true};
ghost use Rattle.std.specs.Cmp.{eq_by_cmp_equiv, partial_equiv_from_equiv, partial_order_from_total};
ghost use Rattle.std.specs.Ordering.{as_partial_cmp, eq_by_cmp};
ghost use Rattle.cil_macros.specs.Item.{Item, nobody};
ghost use Rattle.cil_macros.specs.Items.{item_at, items_in, namespaces_in, word_at};
ghost use Rattle.cil_names.specs.Entries.{AreEntries, AreOrdered, is_declared_at, listed, scoped};
ghost use Rattle.cil_names.specs.Resolves.{is_class_common as joins};
ghost use Rattle.cil_base.specs.Records.{AreRecordsOf, IsRecordOf};
ghost use Rattle.cil_names.specs.Shared.{AreShared, IsOutside, IsPairOf, Shares};
ghost use Rattle.cil_names.specs.SharedOrder.{shared_cmp, shared_total};

use crate::by_name::entry_in;
use crate::enabled::is_declared;
use crate::entry::Entry;
use crate::guesses::Guesses;
use crate::names::Names;
use crate::permission_word::class_named;
use cil_base::NoMemory;
use cil_macros::{Instances, Namespaces, ScopeList};
use cil_syntax::{Keyword, Sign, Word};
use std::alloc::Global;
use std::cmp::Ordering;

/// A class that shares the permissions of a common, by the numbers of their entries. Pairs are compared by the class, and then by
/// the common.
#[derive(Clone, Copy, Debug)]
pub struct Shared {
    /// The class.
    pub class: usize,
    /// The common.
    pub common: usize,
}

impl PartialEq for Shared {
    ghost eq = { eq_by_cmp shared_cmp };

    ghost laws = { partial_equiv_from_equiv (eq_by_cmp_equiv shared_total) };

    fn eq(&self, other: &Shared) -> bool {
        self.cmp(other) == Ordering::Equal
    }
}

impl Eq for Shared {
    ghost laws = { eq_by_cmp_equiv shared_total };
}

impl PartialOrd for Shared {
    ghost partial_cmp = { as_partial_cmp shared_cmp };

    ghost laws = { partial_order_from_total shared_total };

    fn partial_cmp(&self, other: &Shared) -> Option<Ordering> {
        Some(self.cmp(other))
    }
}

impl Ord for Shared {
    ghost cmp = { shared_cmp };

    ghost total = { shared_total };

    ghost matches_partial_cmp = { λ a b. refl };

    ghost matches_eq = { λ a b. refl };

    fn cmp(&self, other: &Shared) -> Ordering {
        self.class
            .cmp(&other.class)
            .then(self.common.cmp(&other.common))
    }
}

/// The classes and commons that classcommon statements join, by what their words name where no optional is enabled: rising, each
/// pair once. A statement costs a look-up of its two words; at the end the pairs are sorted. Error: out of memory.
pub fn commons_of(
    alloc: Global,
    instances: &Instances,
    names: &Names,
) -> Result<Vec<Shared>, NoMemory>
    requires { AreEntries (namespaces_in instances.now) (items_in instances.now) names.now }
    ensures { IfOk result (λ shared. AreShared (namespaces_in instances.now) names.now (items_in instances.now) shared.items) }
{
    let mut shared = all_shared(alloc, instances, names)?;
    shared.sort_unstable();
    shared.dedup();
    Ok(shared)
}

/// The same, in the order of the statements.
fn all_shared(alloc: Global, instances: &Instances, names: &Names) -> Result<Vec<Shared>, NoMemory>
    requires { AreEntries (namespaces_in instances.now) (items_in instances.now) names.now }
    ensures { IfOk result (λ shared. AreRecordsOf (Shares (items_in instances.now)) (IsPairOf (namespaces_in instances.now) names.now) (items_in instances.now) shared.items) }
{
    let mut shared = Vec::new(alloc);
    let mut scope = ScopeList::new(alloc);
    for at in 0..instances.len() {
        push_at(alloc, instances, names, at, &mut scope, &mut shared)?;
    }
    Ok(shared)
}

/// Adds the pair that the statement at a place joins, if it joins one.
fn push_at(
    alloc: Global,
    instances: &Instances,
    names: &Names,
    at: usize,
    scope: &mut ScopeList,
    shared: &mut Vec<Shared>,
) -> Result<(), NoMemory>
    requires entries { AreEntries (namespaces_in instances.now) (items_in instances.now) names.now }
    requires within { at < length (items_in instances.now) }
    ensures { OnOk result (AreRecordsOf (Shares (items_in instances.now)) (IsPairOf (namespaces_in instances.now) names.now) (take at (items_in instances.now)) shared.old.items
        → AreRecordsOf (Shares (items_in instances.now)) (IsPairOf (namespaces_in instances.now) names.now) (take (at + 1) (items_in instances.now)) shared.new.items) }
{
    let one = shared_at(alloc, instances, names, at, scope)?;
    push_shared(shared, one)
}

/// Adds a pair, if there is one.
fn push_shared(shared: &mut Vec<Shared>, one: Option<Shared>) -> Result<(), NoMemory>
    ensures { OnOk result (shared.new.items ≡ shared.old.items ++ listed one) }
{
    let Some(pair) = one else {
        return Ok(());
    };
    shared.push(pair)?;
    Ok(())
}

/// The class and the common that the statement at a place joins, if it is a classcommon statement whose words name both. Classes
/// and commons are declared outside all optionals.
pub fn shared_at(
    alloc: Global,
    instances: &Instances,
    names: &Names,
    at: usize,
    scope: &mut ScopeList,
) -> Result<Option<Shared>, NoMemory>
    requires entries { AreEntries (namespaces_in instances.now) (items_in instances.now) names.now }
    requires within { at < length (items_in instances.now) }
    ensures { IfOk result (IsRecordOf (Shares (items_in instances.now)) (IsPairOf (namespaces_in instances.now) names.now) (item_at instances.now at)) }
{
    let statement = instances.statement_there(at);
    if !is_class_common(statement.keyword) {
        return Ok(None);
    }
    if !instances.is_outside(at) {
        return Ok(None);
    }
    let Some(words) = statement.two_words() else {
        return Ok(None);
    };
    let class = named_at(
        alloc,
        instances,
        names,
        at,
        &words.first,
        Sign::PlainClass,
        scope,
    )?;
    let common = named_at(
        alloc,
        instances,
        names,
        at,
        &words.second,
        Sign::Commons,
        scope,
    )?;
    Ok(joined(class, common))
}

/// A class and a common, where both are there.
fn joined(class: Option<usize>, common: Option<usize>) -> Option<Shared>
    ensures { MatchOption result ((class ≡ None) ⊎ (common ≡ None)) (λ pair. (class ≡ Some pair.class) × (common ≡ Some pair.common)) }
{
    let class = class?;
    let common = common?;
    Some(Shared { class, common })
}

fn is_class_common(keyword: Keyword) -> bool
    ensures { result ≡ joins keyword }
{
    matches!(keyword, Keyword::ClassCommon)
}

/// The entry of a wanted kind that a word of the statement at a place names where no optional is enabled.
fn named_at<'a>(
    alloc: Global,
    instances: &Instances<'_, '_, 'a>,
    names: &Names,
    at: usize,
    word: &Word<'a>,
    sign: Sign,
    scope: &mut ScopeList,
) -> Result<Option<usize>, NoMemory>
    requires entries { AreEntries (namespaces_in instances.now) (items_in instances.now) names.now }
    requires within { at < length (items_in instances.now) }
    ensures { IfOk result (IsOutside (namespaces_in instances.now) names.now (items_in instances.now) sign (word_at instances.now at word.now)) }
{
    let placed = instances.word(at, word);
    instances.scope_into(alloc, placed.scope, scope)?;
    Ok(named_outside(
        instances.namespaces(),
        names.entries(),
        names.guesses(),
        &placed.word,
        scope.as_slice(),
        sign,
    ))
}

/// The entry of a wanted kind that a word names where no optional is enabled.
fn named_outside(
    namespaces: &Namespaces,
    entries: &[Entry],
    guesses: &Guesses,
    word: &Word,
    scope: &[usize],
    sign: Sign,
) -> Option<usize>
    requires entries { AreOrdered namespaces.now entries.now }
    requires within { All (λ k. k ≤ length namespaces.now) scope.now }
    ensures { (xs : List Item) → AreEntries namespaces.now xs entries.now → IsOutside namespaces.now entries.now xs sign (scoped namespaces.now scope.now word.now) result }
{
    namespaces.are_namespaces();
    let named = class_named(namespaces, entries, guesses, word, scope)?;
    let entry = &entries[named];
    let found = entry_in(entries, guesses, entry.space, entry.name.as_slice(), sign)?;
    where_always(entries, found)
}

/// The number of an entry, where it is declared with no optional enabled.
pub(crate) fn where_always(entries: &[Entry], number: usize) -> Option<usize>
    requires { number < length entries.now }
    ensures { MatchOption result (is_declared_at nobody entries.now number ≡ false) (λ d. (d ≡ number) × (is_declared_at nobody entries.now number ≡ true)) }
{
    if is_declared(&[], &entries[number]) {
        Some(number)
    } else {
        None
    }
}
