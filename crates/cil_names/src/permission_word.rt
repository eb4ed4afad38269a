//! Permission words: each names the class or class map of its class word, where that has the permission.

ghost use Rattle.std.specs.Prelude.{◌≡◌, ◌≤◌, ◌<◌, ◌∷◌, [], All, Contains, IfSome, List, MatchOption, None, Some, false, length, true, ℕ};
ghost use Rattle.std.specs.Global.{Vec as Vector};
ghost use Rattle.std.specs.List.{list_any};
ghost use Rattle.std.specs.List.Sorted.{IsStrictlySortedBy};
ghost use Rattle.std.specs.Option.{option_map};
ghost use Rattle.std.specs.Ordering.{on};
ghost use Rattle.cil_base.specs.Lists.{text_cmp};
ghost use Rattle.cil_base.specs.declared.bytes.Bytes.{Bytes as Text};
ghost use Rattle.cil_syntax.specs.Spelling.{same_bytes};
ghost use Rattle.cil_macros.specs.blocks.Space.{Space};
ghost use Rattle.cil_syntax.specs.Scopes.{ScopedWord};
ghost use Rattle.cil_names.specs.Classes.{IsClassFor, IsClassOf, is_class_at};
ghost use Rattle.cil_names.specs.declared.entry.Entry.{Entry as Declared};
ghost use Rattle.cil_names.specs.Entries.{AreEntries, AreOrdered, by_name_cmp, candidates_of, key_of, scoped};
ghost use Rattle.cil_macros.specs.Item.{Item, nobody};
ghost use Rattle.cil_names.specs.Meanings.{meant};
ghost use Rattle.cil_names.specs.PermissionWords.{class_with as the_class_with, has_permission_at, listed_of, number_with};
ghost use Rattle.cil_macros.specs.blocks.Namespaces.{AreNamespaces};
ghost use Rattle.cil_names.specs.Unresolved.{ArePermissions, listed_at as listed_for};

use crate::by_name::entry_in;
use crate::entry::Entry;
use crate::guesses::Guesses;
use crate::look::resolve;
use crate::name_places::{place_among, place_guessed};
use crate::shared::where_always;
use cil_macros::Namespaces;
use cil_syntax::{Bytes, Sign, Word};

/// The number of the class or class map that a class word names. Classes do not hang on optionals, so the word is looked
/// up where none is enabled.
pub fn class_named(
    namespaces: &Namespaces,
    entries: &[Entry],
    guesses: &Guesses,
    class: &Word,
    scope: &[usize],
) -> Option<usize>
    requires entries { AreOrdered namespaces.now entries.now }
    requires within { All (λ k. k ≤ length namespaces.now) scope.now }
    ensures value { result ≡ meant namespaces.now entries.now nobody (scoped namespaces.now scope.now class.now) }
    ensures within { IfSome result (λ d. d < length entries.now) }
{
    resolve(namespaces, entries, guesses, &[], class, scope)
}

/// The permissions of the class that has the name of an entry, in byte order; none where no class has it. They are given
/// as a list for each entry.
pub fn permissions_at<'s>(
    entries: &[Entry],
    guesses: &Guesses,
    permissions: &'s [Vec<Bytes>],
    d: usize,
) -> &'s [Bytes]
    requires rising { IsStrictlySortedBy (on key_of by_name_cmp) entries.now }
    requires sorted { (v : Vector Text) → Contains permissions.now v → IsStrictlySortedBy text_cmp v.items }
    requires within { d < length entries.now }
    ensures sorted { IsStrictlySortedBy text_cmp result.now }
    ensures numbered { is_class_at entries.now d ≡ true → result.now ≡ listed_of entries.now permissions.now d }
    ensures listed { (ss : List Space) (xs : List Item) → AreNamespaces ss → AreEntries ss xs entries.now → ArePermissions ss entries.now xs permissions.now
        → (p : List ℕ) → list_any (same_bytes p) result.now ≡ has_permission_at ss entries.now xs p d }
{
    let entry = &entries[d];
    if Sign::Classes.wants(entry.kind) {
        return listed_at(permissions, d);
    }
    let name = entry.name.as_slice();
    let Some(class) = entry_in(entries, guesses, entry.space, name, Sign::Classes) else {
        return &[];
    };
    listed_at(permissions, class)
}

/// Whether an entry is that of a class or class map. The permissions of such an entry have numbers.
fn has_numbers(entries: &[Entry], d: usize) -> bool
    requires { d < length entries.now }
    ensures { result ≡ is_class_at entries.now d }
{
    Sign::Classes.wants(entries[d].kind)
}

/// The list of an entry.
fn listed_at(permissions: &[Vec<Bytes>], entry: usize) -> &[Bytes]
    requires { (v : Vector Text) → Contains permissions.now v → IsStrictlySortedBy text_cmp v.items }
    ensures value { result.now ≡ listed_for permissions.now entry }
    ensures sorted { IsStrictlySortedBy text_cmp result.now }
{
    match permissions.get(entry) {
        Some(list) => list.as_slice(),
        None => &[],
    }
}

/// Whether a name is in a rising list of names.
pub fn is_listed(names: &[Bytes], name: &[u8]) -> bool
    requires { IsStrictlySortedBy text_cmp names.now }
    ensures { result ≡ list_any (same_bytes name.now) names.now }
{
    place_among(names, name).is_some()
}

/// A class or class map that a class word names.
#[derive(Clone, Copy)]
pub struct Class<'s> {
    /// The number of its entry.
    pub entry: usize,
    /// Its permissions, in byte order.
    pub permissions: &'s [Bytes],
    /// Whether the entry is that of a class or class map, so that the permissions have numbers.
    pub has_numbers: bool,
}

/// A permission of the class that a class word names.
#[derive(Clone, Copy)]
pub struct ClassPermission {
    /// The number of the entry of the class.
    pub entry: usize,
    /// The number of the permission among those of the class, in byte order.
    pub number: Option<usize>,
}

/// The class or class map that a class word names, with its permissions.
pub fn class_of<'s>(
    namespaces: &Namespaces,
    entries: &[Entry],
    guesses: &Guesses,
    permissions: &'s [Vec<Bytes>],
    class: &Word,
    scope: &[usize],
) -> Option<Class<'s>>
    requires entries { AreOrdered namespaces.now entries.now }
    requires sorted { (v : Vector Text) → Contains permissions.now v → IsStrictlySortedBy text_cmp v.items }
    requires within { All (λ k. k ≤ length namespaces.now) scope.now }
    ensures { IsClassFor namespaces.now entries.now permissions.now (scoped namespaces.now scope.now class.now) result }
{
    namespaces.are_namespaces();
    let entry = class_named(namespaces, entries, guesses, class, scope)?;
    Some(Class {
        entry,
        permissions: permissions_at(entries, guesses, permissions, entry),
        has_numbers: has_numbers(entries, entry),
    })
}

/// The same of a class word that could name just the entry of this number; none where that is not declared outside all
/// optionals. It costs no look-up.
pub fn class_at<'s>(
    namespaces: &Namespaces,
    entries: &[Entry],
    guesses: &Guesses,
    permissions: &'s [Vec<Bytes>],
    entry: usize,
) -> Option<Class<'s>>
    requires entries { AreOrdered namespaces.now entries.now }
    requires sorted { (v : Vector Text) → Contains permissions.now v → IsStrictlySortedBy text_cmp v.items }
    requires within { entry < length entries.now }
    ensures { IfSome result (λ k. (w : ScopedWord) → candidates_of namespaces.now entries.now w ≡ entry ∷ [] → IsClassOf namespaces.now entries.now permissions.now w k) }
{
    namespaces.are_namespaces();
    let entry = where_always(entries, entry)?;
    Some(Class {
        entry,
        permissions: permissions_at(entries, guesses, permissions, entry),
        has_numbers: has_numbers(entries, entry),
    })
}

/// The number of the class that was found for a class word, if it has a permission.
pub fn with_permission(class: Option<Class>, permission: &[u8]) -> Option<usize>
    requires { IfSome class (λ k. IsStrictlySortedBy text_cmp k.permissions.now) }
    ensures value { (ss : List Space) (es : List Declared) (lists : List (Vector Text)) (c p : ScopedWord) (xs : List Item) → IsClassFor ss es lists c class.entry → p.bytes ≡ permission.now
        → AreEntries ss xs es → ArePermissions ss es xs lists → result ≡ the_class_with ss es xs c p }
    ensures entry { IfSome result (λ d. MatchOption class.entry ⊥ (λ k. k.entry ≡ d)) }
{
    let found = class?;
    if !is_listed(found.permissions, permission) {
        return None;
    }
    Some(found.entry)
}

/// The permission of the class that was found for a class word, if the class has it. A number that it may have is given: it
/// costs one comparison where that is right, and else one search by halving.
pub fn permission_of(
    class: Option<Class>,
    permission: &[u8],
    guess: Option<usize>,
) -> Option<ClassPermission>
    requires { IfSome class (λ k. IsStrictlySortedBy text_cmp k.permissions.now) }
    ensures entry { (ss : List Space) (es : List Declared) (lists : List (Vector Text)) (c p : ScopedWord) (xs : List Item) → IsClassFor ss es lists c class.entry → p.bytes ≡ permission.now
        → AreEntries ss xs es → ArePermissions ss es xs lists → option_map (λ r. r.entry) result ≡ the_class_with ss es xs c p }
    ensures number { (ss : List Space) (es : List Declared) (lists : List (Vector Text)) (c p : ScopedWord) (xs : List Item) → IsClassFor ss es lists c class.entry → p.bytes ≡ permission.now
        → AreEntries ss xs es → ArePermissions ss es xs lists → option_map (λ r. r.number) result ≡ number_with ss es xs lists c p }
{
    let found = class?;
    let Some(place) = place_guessed(found.permissions, permission, guess) else {
        return None;
    };
    Some(ClassPermission {
        entry: found.entry,
        number: number_if(found.has_numbers, place),
    })
}

/// A number, if there are numbers.
fn number_if(has_numbers: bool, number: usize) -> Option<usize>
    ensures has { has_numbers ≡ true → result ≡ Some number }
    ensures has_none { has_numbers ≡ false → result ≡ None }
{
    if has_numbers { Some(number) } else { None }
}

/// The number of the class or class map that a permission word names.
pub fn class_with(
    namespaces: &Namespaces,
    entries: &[Entry],
    guesses: &Guesses,
    permissions: &[Vec<Bytes>],
    class: &Word,
    permission: &Word,
    scope: &[usize],
) -> Option<usize>
    requires entries { AreOrdered namespaces.now entries.now }
    requires sorted { (v : Vector Text) → Contains permissions.now v → IsStrictlySortedBy text_cmp v.items }
    requires within { All (λ k. k ≤ length namespaces.now) scope.now }
    ensures value { (xs : List Item) → AreEntries namespaces.now xs entries.now → ArePermissions namespaces.now entries.now xs permissions.now
        → result ≡ the_class_with namespaces.now entries.now xs (scoped namespaces.now scope.now class.now) (scoped namespaces.now scope.now permission.now) }
    ensures within { IfSome result (λ d. d < length entries.now) }
{
    let found = class_of(namespaces, entries, guesses, permissions, class, scope);
    with_permission(found, permission.bytes.as_slice())
}
