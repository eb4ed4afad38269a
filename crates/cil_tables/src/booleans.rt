//! The booleans of a policy, with what each is at first.

ghost use Rattle.std.specs.Prelude.{◌≡◌, ◌↔◌, ◌⊎◌, ◌<◌, ℕ, Contains, IfOk, List, MatchOption, None, OnOk, Some, length, true};
ghost use Rattle.cil_base.specs.Lists.{Lists, text_cmp};
ghost use Rattle.std.specs.List.Sorted.{IsStrictlySortedBy};
ghost use Rattle.cil_faults.specs.declared.spot.Spot.{Spot as ASpot};
ghost use Rattle.cil_syntax.specs.Said.{all_said};
ghost use Rattle.cil_syntax.specs.Terms.{Name, cons};
ghost use Rattle.cil_macros.specs.Items.{item_at, items_in, namespaces_in};
ghost use Rattle.cil_known.specs.Known.{enabled_in};
ghost use Rattle.cil_tables.specs.declared.tables.Boolean.{Boolean as ABoolean};
ghost use Rattle.cil_tables.specs.Booleans.{is_boolean, is_default_on, is_on_by, is_yes, named_on};
ghost use Rattle.cil_tables.specs.Table.{boolean_names};

use crate::tables::Boolean;
use cil_base::{Bytes, NoMemory, number_of};
use cil_known::Known;
use cil_known::spelled::spelled;
use cil_macros::Instances;
use cil_syntax::{Keyword, Op, Term};
use std::alloc::Global;

/// The booleans of these names, which rise. It costs a step for each statement, a sort of the names that are on, and a search by halving
/// for each boolean. Error: out of memory.
pub(crate) fn booleans_of(
    alloc: Global,
    instances: &Instances,
    known: &Known,
    names: &[Bytes],
) -> Result<Vec<Boolean>, NoMemory>
    requires namespaces { known.now.lookup.namespaces.now ≡ namespaces_in instances.now }
    ensures names { IfOk result (λ booleans. boolean_names booleans.items ≡ names.now) }
    ensures defaults { IfOk result (λ booleans. (b : ABoolean) → Contains booleans.items b → b.default ≡ is_default_on (items_in instances.now) (enabled_in known.now) b.name) }
{
    let on = names_on(alloc, instances, known)?;
    let booleans = with_defaults(alloc, names, on.as_slice())?;
    Ok(booleans)
}

/// Booleans of these names, of which these are on. Error: out of memory.
fn with_defaults(alloc: Global, names: &[Bytes], on: &[Bytes]) -> Result<Vec<Boolean>, NoMemory>
    requires { IsStrictlySortedBy text_cmp on.now }
    ensures names { IfOk result (λ booleans. boolean_names booleans.items ≡ names.now) }
    ensures defaults { IfOk result (λ booleans. (b : ABoolean) → Contains booleans.items b → (b.default ≡ true) ↔ Contains on.now b.name) }
{
    let mut booleans = Vec::with_capacity(alloc, names.len())?;
    for name in names {
        let default = is_among(on, name.as_slice());
        let name = Bytes::copy_of(alloc, name.as_slice())?;
        booleans.push(Boolean { name, default })?;
    }
    Ok(booleans)
}

/// Whether a name is among names that rise.
fn is_among(names: &[Bytes], name: &[u8]) -> bool
    requires { IsStrictlySortedBy text_cmp names.now }
    ensures { (result ≡ true) ↔ Contains names.now name.now }
{
    match number_of(names, name) {
        Some(_) => true,
        None => false,
    }
}

/// The qualified names of the booleans that are on at first, in byte order. Error: out of memory.
fn names_on(alloc: Global, instances: &Instances, known: &Known) -> Result<Vec<Bytes>, NoMemory>
    requires namespaces { known.now.lookup.namespaces.now ≡ namespaces_in instances.now }
    ensures { IfOk result (λ on. Lists text_cmp (λ name. is_default_on (items_in instances.now) (enabled_in known.now) name ≡ true) on.items) }
{
    let mut on = unsorted(alloc, instances, known)?;
    on.sort_unstable();
    on.dedup();
    Ok(on)
}

/// The same, in the order of the statements.
fn unsorted(alloc: Global, instances: &Instances, known: &Known) -> Result<Vec<Bytes>, NoMemory>
    requires namespaces { known.now.lookup.namespaces.now ≡ namespaces_in instances.now }
    ensures { IfOk result (λ on. (name : List ℕ) → Contains on.items name ↔ (is_default_on (items_in instances.now) (enabled_in known.now) name ≡ true)) }
{
    let mut on = Vec::new(alloc);
    for at in 0..instances.len() {
        push_on(alloc, instances, &mut on, known, at)?;
    }
    Ok(on)
}

/// Adds the name of the boolean that the statement at a place says to be on, if it is an enabled one.
fn push_on(
    alloc: Global,
    instances: &Instances,
    on: &mut Vec<Bytes>,
    known: &Known,
    at: usize,
) -> Result<(), NoMemory>
    requires namespaces { known.now.lookup.namespaces.now ≡ namespaces_in instances.now }
    requires within { at < length (items_in instances.now) }
    ensures { OnOk result ((name : List ℕ) → Contains on.new.items name ↔ (Contains on.old.items name ⊎ (is_on_by (enabled_in known.now) name (item_at instances.now at) ≡ true))) }
{
    let statement = instances.statement_there(at);
    if !is_boolean(statement.keyword) {
        return Ok(());
    }
    if !known.is_enabled(instances, at) {
        return Ok(());
    }
    let Some(name) = named_on(statement.args.as_slice(), statement.at.module) else {
        return Ok(());
    };
    let space = instances.space(at);
    on.push(spelled(alloc, known.lookup.namespaces, space, name)?)?;
    Ok(())
}

/// Whether a statement is one of a boolean.
fn is_boolean(keyword: Keyword) -> bool
    ensures { result ≡ is_boolean keyword }
{
    matches!(keyword, Keyword::Boolean)
}

/// The name of which terms say `true`.
fn named_on<'t>(terms: &'t [Term], module: u64) -> Option<&'t [u8]>
    ensures { MatchOption result (named_on (all_said «module» terms.now) ≡ None) (λ name. named_on (all_said «module» terms.now) ≡ Some name.now) }
{
    match terms {
        [] => None,
        [first, rest @ ..] => match first {
            Term::Name(_, name) => if_yes(rest, name.as_slice(), module),
            Term::Leaf(_) => None,
            Term::Form(_, _, _) => None,
        },
    }
}

/// That name, where the first of the terms behind it is `true`.
fn if_yes<'t>(terms: &[Term], name: &'t [u8], module: u64) -> Option<&'t [u8]>
    ensures { (at : ASpot) → MatchOption result (named_on (cons (Name at name.now) (all_said «module» terms.now)) ≡ None)
        (λ same. named_on (cons (Name at name.now) (all_said «module» terms.now)) ≡ Some same.now) }
{
    match terms {
        [] => None,
        [first, ..] => match first {
            Term::Form(op, _, _) => { if is_yes(*op) { Some(name) } else { None } }
            Term::Leaf(_) => None,
            Term::Name(_, _) => None,
        },
    }
}

/// Whether this is the word `true`.
fn is_yes(op: Op) -> bool
    ensures { result ≡ is_yes op }
{
    matches!(op, Op::Yes)
}
