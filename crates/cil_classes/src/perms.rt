//! What a class permission gives, as masks: one for each class, classes rising.

ghost use Rattle.std.specs.Prelude.{◌≡◌, ℕ, IfOk, List, OnOk, get_or};
ghost use Rattle.std.specs.List.Sorted.{IsStrictlySortedBy};
ghost use Rattle.cil_syntax.specs.declared.kind.Kind as kinds;
ghost use Rattle.cil_syntax.specs.declared.kind.Kind.TheVariants as variants;
ghost use Rattle.cil_syntax.specs.declared.term.Word.{Word as AWord};
ghost use Rattle.cil_syntax.specs.Said.{said_of};
ghost use Rattle.cil_syntax.specs.Scopes.{ScopedWord};
ghost use Rattle.cil_macros.specs.Item.{Item};
ghost use Rattle.cil_known.specs.Known.{BeginWith, IsKnown, enabled_in};
ghost use Rattle.cil_known.specs.Numbers.{AreApart};
ghost use Rattle.cil_names.specs.Unresolved.{term_with};
ghost use Rattle.cil_classes.specs.ClassRows.{AreClasses};
ghost use Rattle.cil_classes.specs.Held.{IsAssigned};
ghost use Rattle.cil_classes.specs.NodeOrder.{node_cmp};
ghost use Rattle.cil_classes.specs.Perms.{AreAdded, AreMasksOf};
ghost use Rattle.cil_classes.specs.Pushed.{ArePushed, IsPartPushed, IsPushed, IsUnionOf};
ghost use Rattle.cil_classes.specs.Row.{AreOrderlyRows};

use crate::assigned::Part;
use crate::held::{ClassMasks, GivenPermissions};
use crate::parts::part_of;
use crate::row::{Class, ClassId};
use cil_base::NoMemory;
use cil_known::Known;
use cil_names::Meaning;
use cil_syntax::Term;
use std::alloc::Global;

/// Adds the masks of a class permission of a statement of this module, by meanings that begin with those of its words: one for
/// each class of which it gives permissions, classes rising. Bit i is the i-th permission of the class, and no mask is 0. A list
/// on a class costs a step for each permission word, and no look-up; a name, or a list on a class map, a step for each class of
/// which some statement gives permissions and for each node that it has. Error: out of memory.
pub fn push_perms(
    alloc: Global,
    out: &mut Vec<(ClassId, u32)>,
    known: &Known,
    classes: &[Class],
    given: &GivenPermissions,
    term: &Term,
    module: u64,
    words: &[Meaning],
) -> Result<(), NoMemory>
    requires rows { AreOrderlyRows classes.now }
    requires rising { IsStrictlySortedBy node_cmp given.now.nodes.items }
    ensures { OnOk result ((xs : List Item) (names : kinds.Kind → List (List ℕ)) (f : AWord → ScopedWord) → IsKnown known.now xs names
        → AreApart known.now.lookup.names.now (enabled_in known.now) known.now.numbers.now → AreClasses xs (enabled_in known.now) (names variants.Class) classes.now
        → IsAssigned known.now xs classes.now given.now → BeginWith known.now f (said_of «module» term.now) words.now
        → AreAdded xs (enabled_in known.now) classes.now (term_with f «module» term.now) out.old.items out.new.items) }
{
    let part = part_of(
        alloc,
        known,
        classes,
        given.nodes.as_slice(),
        term,
        module,
        words,
    )?;
    push_part(out, given.held.as_slice(), &part)
}

/// The same masks in a list of their own. Error: out of memory.
pub fn expand_perms(
    alloc: Global,
    known: &Known,
    classes: &[Class],
    given: &GivenPermissions,
    term: &Term,
    module: u64,
    words: &[Meaning],
) -> Result<Vec<(ClassId, u32)>, NoMemory>
    requires rows { AreOrderlyRows classes.now }
    requires rising { IsStrictlySortedBy node_cmp given.now.nodes.items }
    ensures { IfOk result (λ masks. (xs : List Item) (names : kinds.Kind → List (List ℕ)) (f : AWord → ScopedWord) → IsKnown known.now xs names
        → AreApart known.now.lookup.names.now (enabled_in known.now) known.now.numbers.now → AreClasses xs (enabled_in known.now) (names variants.Class) classes.now
        → IsAssigned known.now xs classes.now given.now → BeginWith known.now f (said_of «module» term.now) words.now
        → AreMasksOf xs (enabled_in known.now) classes.now (term_with f «module» term.now) masks.items) }
{
    let mut masks = Vec::new(alloc);
    push_perms(
        alloc, &mut masks, known, classes, given, term, module, words,
    )?;
    Ok(masks)
}

/// Adds a class with the permissions that are given of it, or the masks of the nodes that give them.
fn push_part(
    out: &mut Vec<(ClassId, u32)>,
    held: &[ClassMasks],
    part: &Part,
) -> Result<(), NoMemory>
    ensures { OnOk result (IsPartPushed held.now part.now out.old.items out.new.items) }
{
    if part.mask == 0 {
        return push_held(out, held, part.from.as_slice());
    }
    let class = ClassId { number: part.class };
    out.push((class, part.mask))?;
    Ok(())
}

/// Adds the masks of all classes of which some of these nodes has permissions.
fn push_held(
    out: &mut Vec<(ClassId, u32)>,
    held: &[ClassMasks],
    from: &[usize],
) -> Result<(), NoMemory>
    ensures { OnOk result (ArePushed held.now from.now out.old.items out.new.items) }
{
    for one in held {
        push_union(out, one, from)?;
    }
    Ok(())
}

/// Adds a class with the permissions that some of these nodes has, if there are any.
fn push_union(
    out: &mut Vec<(ClassId, u32)>,
    one: &ClassMasks,
    from: &[usize],
) -> Result<(), NoMemory>
    ensures { OnOk result (IsPushed one.now from.now out.old.items out.new.items) }
{
    let mask = union_of(one.masks.as_slice(), from);
    if mask == 0 {
        return Ok(());
    }
    let class = ClassId { number: one.class };
    out.push((class, mask))?;
    Ok(())
}

/// The union of the masks of some nodes.
fn union_of(masks: &[u32], from: &[usize]) -> u32
    ensures { IsUnionOf masks.now from.now result }
{
    let mut mask = 0;
    for node in from {
        mask |= mask_at(masks, *node);
    }
    mask
}

/// The mask of a node.
fn mask_at(masks: &[u32], node: usize) -> u32
    ensures { result ≡ get_or masks.now node 0 }
{
    match masks.get(node) {
        Some(mask) => *mask,
        None => 0,
    }
}
