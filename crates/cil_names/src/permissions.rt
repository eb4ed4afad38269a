//! The permissions of classes, as statements list them.

ghost use Rattle.std.specs.Prelude.{◌≡◌, ◌<◌, ◌↔◌, ◌∷◌, ◌++◌, [], Contains, IfOk, IsTrue, List, MatchOption, None, OnOk, length, map, ℕ};
ghost use Rattle.std.specs.List.Sorted.{IsStrictlySortedBy};
ghost use Rattle.std.specs.Ordering.{on};
ghost use Rattle.cil_base.specs.Lists.{Lists, text_cmp};
ghost use Rattle.cil_syntax.specs.Said.{all_said};
ghost use Rattle.cil_macros.specs.Item.{Item, names_in};
ghost use Rattle.cil_macros.specs.Items.{item_at, items_in, namespaces_in};
ghost use Rattle.cil_names.specs.Entries.{AreEntries, AreOrdered, by_name_cmp, key_of};
ghost use Rattle.cil_names.specs.Permissions.{AreAdded, AreEmpty, AreListed, AreOwn, IsListing, ListsNothing, SaysList, SaysNoList, list_sign as the_list_sign};
ghost use Rattle.cil_names.specs.Shared.{AreShared};
ghost use Rattle.cil_names.specs.Unresolved.{ArePermissions};

use crate::by_name::entry_in;
use crate::commons::with_commons;
use crate::entry::Entry;
use crate::guesses::Guesses;
use crate::names::Names;
use crate::reading::is_at;
use crate::shared::Shared;
use cil_base::NoMemory;
use cil_macros::Instances;
use cil_syntax::{Bytes, DeclaredName, Keyword, Sign, Statement, Term};
use std::alloc::Global;
use std::mem;

/// The permissions of classes: for each declared name of a class those that statements outside all optionals list for the class
/// of this name, and those of the commons that it shares, in byte order, each once. Classes do not hang on optionals. Each
/// instance of a statement that lists permissions costs one search by halving, and a sort of what is listed for its name so
/// far, unless the last one for its name was of the same statement. What is shared costs what `with_commons` costs. Error: out
/// of memory.
pub fn permissions_of(
    alloc: Global,
    instances: &Instances,
    names: &Names,
    shared: &[Shared],
) -> Result<Vec<Vec<Bytes>>, NoMemory>
    requires entries { AreEntries (namespaces_in instances.now) (items_in instances.now) names.now }
    requires shared { AreShared (namespaces_in instances.now) names.now (items_in instances.now) shared.now }
    ensures len { IfOk result (λ lists. length lists.items ≡ length names.now) }
    ensures permissions { IfOk result (λ lists. ArePermissions (namespaces_in instances.now) names.now (items_in instances.now) lists.items) }
{
    // What is known of the numbers of namespaces.
    instances.namespaces();
    let own = own_lists(alloc, instances, names)?;
    let all = with_commons(alloc, own, shared)?;
    Ok(all)
}

/// What statements outside all optionals list: for each declared name of a class, a class map or a common its own permissions,
/// in byte order, each once; none for what is none of these.
fn own_lists(
    alloc: Global,
    instances: &Instances,
    names: &Names,
) -> Result<Vec<Vec<Bytes>>, NoMemory>
    requires ordered { AreOrdered (namespaces_in instances.now) names.now }
    ensures len { IfOk result (λ lists. length lists.items ≡ length names.now) }
    ensures own { IfOk result (λ lists. AreOwn (namespaces_in instances.now) names.now (items_in instances.now) lists.items) }
{
    let entries = names.entries();
    let mut lists = no_lists(alloc, entries)?;
    let mut last = no_statements(alloc, entries)?;
    let guesses = names.guesses();
    for at in 0..instances.len() {
        add_listed(
            alloc, instances, &mut lists, &mut last, entries, guesses, at,
        )?;
    }
    Ok(lists)
}

/// An empty list for each entry.
fn no_lists(alloc: Global, entries: &[Entry]) -> Result<Vec<Vec<Bytes>>, NoMemory>
    ensures { IfOk result (λ lists. AreEmpty entries.now lists.items) }
{
    let mut lists = Vec::new(alloc);
    for _entry in entries {
        lists.push(Vec::new(alloc))?;
    }
    Ok(lists)
}

/// For each entry no statement.
fn no_statements(alloc: Global, entries: &[Entry]) -> Result<Vec<Option<usize>>, NoMemory>
    ensures { IfOk result (λ last. last.items ≡ map (λ _. None) entries.now) }
{
    Ok(vec![in alloc; None; entries.len()]?)
}

/// Adds the permissions that the statement at a place lists for a class, a class map or a common, unless they were added: for
/// each entry the number of the statement is kept whose permissions were added last.
fn add_listed(
    alloc: Global,
    instances: &Instances,
    lists: &mut Vec<Vec<Bytes>>,
    last: &mut Vec<Option<usize>>,
    entries: &[Entry],
    guesses: &Guesses,
    at: usize,
) -> Result<(), NoMemory>
    requires rising { IsStrictlySortedBy (on key_of by_name_cmp) entries.now }
    requires len { length lists.old.items ≡ length entries.now }
    requires last_len { length last.old.items ≡ length entries.now }
    requires within { at < length (items_in instances.now) }
    ensures len { OnOk result (length lists.new.items ≡ length entries.now) }
    ensures last_len { OnOk result (length last.new.items ≡ length entries.now) }
    ensures last { OnOk result (AreOrdered (namespaces_in instances.now) entries.now → AreListed instances.now last.old.items lists.old.items → AreListed instances.now last.new.items lists.new.items) }
    ensures listed { OnOk result ((xs : List Item) → AreOrdered (namespaces_in instances.now) entries.now
        → AreListed instances.now last.old.items lists.old.items
        → AreOwn (namespaces_in instances.now) entries.now xs lists.old.items
        → AreOwn (namespaces_in instances.now) entries.now (xs ++ item_at instances.now at ∷ []) lists.new.items) }
{
    let Some(list) = listing_at(instances, entries, guesses, at) else {
        return Ok(());
    };
    if is_at(last[list.class], list.statement) {
        return Ok(());
    }
    add_names(alloc, lists, list.class, list.items)?;
    last[list.class] = Some(list.statement);
    Ok(())
}

/// Adds the names among terms to a list.
fn add_names(
    alloc: Global,
    lists: &mut Vec<Vec<Bytes>>,
    class: usize,
    items: &[Term],
) -> Result<(), NoMemory>
    requires { class < length lists.now.items }
    ensures { OnOk result (AreAdded class items.now lists.old.items lists.new.items) }
{
    let listed = mem::replace(&mut lists[class], Vec::new(alloc));
    lists[class] = with_names(alloc, listed, items)?;
    Ok(())
}

/// What a statement lists for a class, a class map or a common.
#[derive(Clone, Copy)]
pub struct Listing<'t, 'a> {
    /// The number of the entry for which it is listed.
    pub class: usize,
    /// What is listed.
    pub items: &'t [Term<'a>],
    /// The number of the statement.
    pub statement: usize,
}

/// What the statement at a place lists, if it is outside all optionals. It costs one search by halving.
fn listing_at<'p, 'a>(
    instances: &Instances<'_, 'p, 'a>,
    entries: &[Entry],
    guesses: &Guesses,
    at: usize,
) -> Option<Listing<'p, 'a>>
    requires rising { IsStrictlySortedBy (on key_of by_name_cmp) entries.now }
    requires within { at < length (items_in instances.now) }
    ensures { MatchOption result (ListsNothing instances.now entries.now at) (IsListing instances.now entries.now at) }
{
    // What is known of the numbers of namespaces.
    instances.namespaces();
    if !instances.is_outside(at) {
        return None;
    }
    let statement = instances.statement_there(at);
    let Some(list) = list_of(statement) else {
        return None;
    };
    let space = instances.space(at);
    let Some(class) = entry_in(entries, guesses, space, list.name.bytes, list.sign) else {
        return None;
    };
    let Some(items) = statement.listed_behind_name() else {
        return None;
    };
    Some(Listing {
        class,
        items,
        statement: instances.statement(at),
    })
}

/// The name of a list of permissions.
#[derive(Clone, Copy)]
struct ListName<'a> {
    /// How words may name what it is of: as a class, or as a common.
    sign: Sign,
    /// The name that is declared.
    name: DeclaredName<'a>,
}

/// The name that a statement declares with a list of permissions.
fn list_of<'a>(statement: &Statement<'a>) -> Option<ListName<'a>>
    ensures { MatchOption result (SaysNoList statement.now) (λ list. SaysList statement.now list.sign list.name.at list.name.bytes.now) }
{
    let sign = list_sign(statement.keyword)?;
    let name = statement.declared_name()?;
    Some(ListName { sign, name })
}

/// How words may name what a statement of this keyword declares with a list of permissions.
fn list_sign(keyword: Keyword) -> Option<Sign>
    ensures { result ≡ the_list_sign keyword }
{
    match keyword {
        Keyword::Class => Some(Sign::Classes),
        Keyword::ClassMap => Some(Sign::Classes),
        Keyword::Common => Some(Sign::Commons),
        _ => None,
    }
}

/// Some names and those among terms, in byte order, each once.
fn with_names(alloc: Global, mut names: Vec<Bytes>, terms: &[Term]) -> Result<Vec<Bytes>, NoMemory>
    ensures { IfOk result (λ all. (m : ℕ) → Lists text_cmp (Contains (names.items ++ names_in (all_said m terms.now))) all.items) }
{
    push_names(alloc, &mut names, terms)?;
    names.sort_unstable();
    names.dedup();
    Ok(names)
}

/// Adds the names among terms.
fn push_names(alloc: Global, names: &mut Vec<Bytes>, terms: &[Term]) -> Result<(), NoMemory>
    ensures { OnOk result ((m : ℕ) → names.new.items ≡ names.old.items ++ names_in (all_said m terms.now)) }
{
    for term in terms {
        push_name(alloc, names, term)?;
    }
    Ok(())
}

#[tactic(auto, unfolding(cil_macros::specs::Item::names_in))]
fn push_name(alloc: Global, names: &mut Vec<Bytes>, term: &Term) -> Result<(), NoMemory>
    ensures { OnOk result ((m : ℕ) → names.new.items ≡ names.old.items ++ names_in (all_said m (term.now ∷ []))) }
{
    match term {
        Term::Name(_, name) => names.push(Bytes::copy_of(alloc, name.as_slice())?)?,
        Term::Leaf(_) => {}
        Term::Form(_, _, _) => {}
    }
    Ok(())
}
