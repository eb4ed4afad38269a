//! Look-up of words in scopes of several namespaces: what they name where some optionals are enabled, and what they could name.

ghost use Rattle.std.specs.Prelude.{IfSome};
ghost use Rattle.cil_names.specs.Entries.{AreOrdered};

use crate::look_up_rows::{Ask, Declared, Found, Row, SPACES, Space, TABLES};
use crate::made_names::{are_numbers, names_with};
use cil_blocks::{Namespaces, ScopeList};
use cil_names::{Entry, Names, OptSet};
use cil_syntax::{Excerpt, Kind, Sign, Spot, Word};
use std::alloc::Global;
use std::test::Fail;

type Spaces = Namespaces<'static>;

/// Some namespaces, one after another. None where one does not get its number.
fn spaces_of(alloc: Global, rows: &[Space]) -> Option<Spaces> {
    let mut spaces = Namespaces::global(alloc);
    for &(outer, name, want) in rows {
        if outer > spaces.len() {
            return None;
        }
        match spaces.number(outer, name) {
            Ok(number) if number == want => {}
            _ => return None,
        }
    }
    Some(spaces)
}

/// The sets of optionals round the statements of a name. None where there is no memory.
fn rounds(alloc: Global, optionals: &[&[usize]]) -> Option<Vec<Vec<usize>>> {
    let mut rounds = Vec::new(alloc);
    for round in optionals {
        rounds.push(Vec::from_slice(alloc, round).ok()?).ok()?;
    }
    Some(rounds)
}

fn entry(alloc: Global, declared: &Declared) -> Option<Entry<'static>> {
    let &(space, name, kind, optionals) = declared;
    Some(Entry {
        space,
        name: Excerpt::of(name),
        kind,
        always: optionals.is_empty(),
        rounds: rounds(alloc, optionals)?,
    })
}

/// Declared names. None where they do not rise, or there is no memory.
fn names(alloc: Global, spaces: &Spaces, declared: &[Declared]) -> Option<Names<'static>>
    ensures { IfSome result (λ names. AreOrdered spaces.now names) }
{
    let mut entries = Vec::new(alloc);
    for one in declared {
        entries.push(entry(alloc, one)?).ok()?;
    }
    match names_with(alloc, spaces, entries) {
        Ok(found) => found,
        Err(_) => None,
    }
}

pub(crate) fn word(bytes: &'static [u8], sign: Sign) -> Word<'static> {
    Word {
        at: Spot::of(0, 0),
        bytes: Excerpt::of(bytes),
        sign,
    }
}

/// The scope with these namespaces, and with the global one behind them. None where there is no memory.
fn scope_of(alloc: Global, numbers: &[usize]) -> Option<ScopeList> {
    let mut scope = ScopeList::new(alloc);
    for &number in numbers {
        scope.add(number).ok()?;
    }
    scope.close().ok()?;
    Some(scope)
}

/// Whether a word could name these in a scope.
fn could(alloc: Global, spaces: &Spaces, names: &Names, row: &Row, want: &[usize]) -> bool
    requires { AreOrdered spaces.now names.now }
{
    if !are_numbers(spaces, row.2) {
        return false;
    }
    match names.candidates(alloc, spaces, &word(row.0, row.1), row.2) {
        Ok(found) => found.as_slice() == want,
        Err(_) => false,
    }
}

/// The same behind the number 9, where the scope is asked whether it has a namespace.
fn could_in(alloc: Global, spaces: &Spaces, names: &Names, row: &Row, scope: &ScopeList) -> bool
    requires { AreOrdered spaces.now names.now }
{
    let Ok(mut found) = Vec::from_slice(alloc, &[9]) else {
        return false;
    };
    let word = word(row.0, row.1);
    are_numbers(spaces, scope.as_slice())
        && matches!(
            names.push_candidates(&mut found, spaces, &word, scope),
            Ok(())
        )
        && are_behind_nine(found.as_slice(), row)
}

/// Whether these are the number 9 and what a word could name.
fn are_behind_nine(found: &[usize], row: &Row) -> bool {
    match (found, row.3) {
        ([9, behind @ ..], Ask::Could(want)) => behind == want,
        _ => false,
    }
}

/// What a word names in its scope where these optionals are enabled. None where there is no such scope, or no memory.
fn named(alloc: Global, spaces: &Spaces, names: &Names, row: &Row, flags: &[bool]) -> Option<Found>
    requires { AreOrdered spaces.now names.now }
{
    if !are_numbers(spaces, row.2) {
        return None;
    }
    let enabled = OptSet::of(Vec::from_slice(alloc, flags).ok()?);
    Some(names.resolve(spaces, &word(row.0, row.1), row.2, &enabled))
}

/// Whether a row holds of some names.
fn is_meant(alloc: Global, spaces: &Spaces, names: &Names, row: &Row) -> bool
    requires { AreOrdered spaces.now names.now }
{
    match row.3 {
        Ask::Names(flags, want) => named(alloc, spaces, names, row, flags) == Some(want),
        Ask::Could(want) => match scope_of(alloc, row.2) {
            Some(scope) => {
                could(alloc, spaces, names, row, want)
                    && could_in(alloc, spaces, names, row, &scope)
            }
            None => false,
        },
        Ask::Everywhere(want) => names.unscoped(&word(row.0, row.1)) == want,
    }
}

fn is_meant_here(alloc: Global, declared: &[Declared], row: &Row) -> Option<bool> {
    let spaces = spaces_of(alloc, SPACES)?;
    let names = names(alloc, &spaces, declared)?;
    Some(is_meant(alloc, &spaces, &names, row))
}

/// The number of the first word of a table that does not mean what the table says.
fn first_unlike(alloc: Global, declared: &[Declared], words: &[Row]) -> Option<usize> {
    for (i, row) in words.iter().enumerate() {
        if is_meant_here(alloc, declared, row) != Some(true) {
            return Some(i);
        }
    }
    None
}

/// The number of the first table with such a word, and that of the word.
fn first_wrong(alloc: Global, tables: &[(&[Declared], &[Row])]) -> Option<(usize, usize)> {
    for (i, (declared, words)) in tables.iter().enumerate() {
        if let Some(word) = first_unlike(alloc, declared, words) {
            return Some((i, word));
        }
    }
    None
}

#[test]
fn words_name_the_first_that_is_declared(rt: HostRuntime) {
    let wrong = first_wrong(rt.alloc(), TABLES);
    assert!(rt; wrong.is_none(), "table and word {wrong:?}");
}

/// A class behind the class `z` of the namespace 3, and whether both rise.
const ONE_MORE_NAME: &[(usize, &[u8], bool)] = &[
    (3, b"zz", true),
    (0, b"zz", true),
    (7, b"zz", false),
    (3, b"z", false),
    (2, b"z", false),
    (3, b"y", false),
];

#[test]
fn names_have_to_rise(rt: HostRuntime) -> Result<(), Fail> {
    let spaces = spaces_of(rt.alloc(), SPACES).ok_or("no memory")?;
    for &(space, name, is_made) in ONE_MORE_NAME {
        let declared: [Declared; 2] = [
            (3, b"z", Kind::Class, &[]),
            (space, name, Kind::Class, &[]),
        ];
        let is_so = names(rt.alloc(), &spaces, &declared).is_some() == is_made;
        assert!(rt; is_so, "{space} {name:?}");
    }
    Ok(())
}
