//! What declarations say behind their names, compared part by part and without places.

ghost use Rattle.std.specs.Prelude.{◌≡◌, ◌↔◌, IfOk, IsTrue, List};
ghost use Rattle.cil_syntax.specs.Scopes.{Scope};
ghost use Rattle.cil_macros.specs.Items.{all_placed, namespaces_in, scope_by, scoped_by};
ghost use Rattle.cil_macros.specs.Listed.{closes as said_closes, opens as said_opens, text as said_text, word as said_word};
ghost use Rattle.cil_macros.specs.Placed.{Placed};
ghost use Rattle.cil_macros.specs.Walks.{IsScope};
ghost use Rattle.cil_names.specs.Declarations.{bare, nowhere};
ghost use Rattle.cil_declare.specs.Rows.{bare_part, bare_parts, unplaced};

use cil_base::NoMemory;
use cil_blocks::ScopeList;
use cil_macros::{Instances, Part, PlacedWord};
use cil_syntax::{Op, Sign};
use std::alloc::Global;

/// Whether some parts say the same as others, wherever they are written. It costs a step for each part, and two scopes for
/// each word.
pub fn are_same_parts<'a>(
    alloc: Global,
    instances: &Instances<'_, '_, 'a>,
    a: &[Part<'a>],
    b: &[Part<'a>],
) -> Result<bool, NoMemory>
    ensures { IfOk result (λ same. IsTrue same ↔ (bare_parts (all_placed instances.now) a.now ≡ bare_parts (all_placed instances.now) b.now)) }
{
    if a.len() != b.len() {
        return Ok(false);
    }
    for i in 0..a.len() {
        if !is_same_part(alloc, instances, &a[i], &b[i])? {
            return Ok(false);
        }
    }
    Ok(true)
}

fn is_same_part<'a>(
    alloc: Global,
    instances: &Instances<'_, '_, 'a>,
    a: &Part<'a>,
    b: &Part<'a>,
) -> Result<bool, NoMemory>
    ensures { IfOk result (λ same. IsTrue same ↔ (bare_part (all_placed instances.now) a.now ≡ bare_part (all_placed instances.now) b.now)) }
{
    match a {
        Part::Word(word) => is_word(alloc, instances, word, b),
        Part::Text(_, text) => Ok(is_text(text.as_slice(), b)),
        Part::Opens(_, op) => Ok(opens(*op, b)),
        Part::Closes => Ok(closes(b)),
    }
}

/// Whether a part is a word that says the same as this one.
fn is_word<'a>(
    alloc: Global,
    instances: &Instances<'_, '_, 'a>,
    word: &PlacedWord<'a>,
    part: &Part<'a>,
) -> Result<bool, NoMemory>
    ensures { IfOk result (λ same. IsTrue same ↔ (unplaced (said_word (scoped_by (all_placed instances.now) word.now)) ≡ bare_part (all_placed instances.now) part.now)) }
{
    match part {
        Part::Word(other) => is_same_placed(alloc, instances, word, other),
        Part::Text(_, _) => Ok(false),
        Part::Opens(_, _) => Ok(false),
        Part::Closes => Ok(false),
    }
}

/// Whether a part is a string of these bytes.
fn is_text(bytes: &[u8], part: &Part) -> bool
    ensures { (ps : List Placed) → IsTrue result ↔ (said_text nowhere bytes.now ≡ bare_part ps part.now) }
{
    match part {
        Part::Word(_) => false,
        Part::Text(_, text) => is_same_text(bytes, text.as_slice()),
        Part::Opens(_, _) => false,
        Part::Closes => false,
    }
}

/// Whether a list begins at a part whose items are joined so.
fn opens(op: Op, part: &Part) -> bool
    ensures { (ps : List Placed) → IsTrue result ↔ (said_opens nowhere op ≡ bare_part ps part.now) }
{
    match part {
        Part::Word(_) => false,
        Part::Text(_, _) => false,
        Part::Opens(_, other) => is_same_op(op, *other),
        Part::Closes => false,
    }
}

/// Whether a list ends at a part.
fn closes(part: &Part) -> bool
    ensures { (ps : List Placed) → IsTrue result ↔ (said_closes ≡ bare_part ps part.now) }
{
    match part {
        Part::Word(_) => false,
        Part::Text(_, _) => false,
        Part::Opens(_, _) => false,
        Part::Closes => true,
    }
}

/// Whether two words have the same bytes, want the same and are looked up in the same namespaces.
fn is_same_placed(
    alloc: Global,
    instances: &Instances,
    a: &PlacedWord,
    b: &PlacedWord,
) -> Result<bool, NoMemory>
    ensures { IfOk result (λ same. IsTrue same ↔ (bare (scoped_by (all_placed instances.now) a.now) ≡ bare (scoped_by (all_placed instances.now) b.now))) }
{
    if !is_same_text(a.word.bytes.as_slice(), b.word.bytes.as_slice()) {
        return Ok(false);
    }
    if !is_same_sign(a.word.sign, b.word.sign) {
        return Ok(false);
    }
    is_same_scope(alloc, instances, a.scope, b.scope)
}

/// Whether two places have the same scope.
fn is_same_scope(
    alloc: Global,
    instances: &Instances,
    a: Option<usize>,
    b: Option<usize>,
) -> Result<bool, NoMemory>
    ensures { IfOk result (λ same. IsTrue same ↔ (scope_by (all_placed instances.now) a ≡ scope_by (all_placed instances.now) b)) }
{
    let one = scope_of(alloc, instances, a)?;
    has_scope(alloc, instances, one.as_slice(), b)
}

/// Whether a place has a scope, which is given by the numbers of its namespaces.
fn has_scope(
    alloc: Global,
    instances: &Instances,
    one: &[usize],
    at: Option<usize>,
) -> Result<bool, NoMemory>
    ensures { IfOk result (λ same. (scope : Scope) → IsScope (namespaces_in instances.now) scope one.now → IsTrue same ↔ (scope ≡ scope_by (all_placed instances.now) at)) }
{
    // Numbers of namespaces are one to one.
    instances.namespaces().are_namespaces();
    let other = scope_of(alloc, instances, at)?;
    Ok(is_same_list(one, other.as_slice()))
}

/// The scope of a place.
fn scope_of(alloc: Global, instances: &Instances, at: Option<usize>) -> Result<ScopeList, NoMemory>
    ensures { IfOk result (IsScope (namespaces_in instances.now) (scope_by (all_placed instances.now) at)) }
{
    let mut scope = ScopeList::new(alloc);
    instances.scope_into(alloc, at, &mut scope)?;
    Ok(scope)
}

fn is_same_list(a: &[usize], b: &[usize]) -> bool
    ensures { IsTrue result ↔ (a.now ≡ b.now) }
{
    a == b
}

fn is_same_text(a: &[u8], b: &[u8]) -> bool
    ensures { IsTrue result ↔ (a.now ≡ b.now) }
{
    a == b
}

fn is_same_sign(a: Sign, b: Sign) -> bool
    ensures { IsTrue result ↔ (a ≡ b) }
{
    a == b
}

fn is_same_op(a: Op, b: Op) -> bool
    ensures { IsTrue result ↔ (a ≡ b) }
{
    a == b
}
