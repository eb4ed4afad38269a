//! The permissions of class permissions and of permissions of class maps: masks for each class, made once for all rules.

ghost use Rattle.std.specs.Prelude.{◌≡◌, ◌<◌, ℕ, All, Contains, IfOk, List, OnOk, map};
ghost use Rattle.std.specs.List.Sorted.{IsNonDecreasingBy, IsStrictlySortedBy};
ghost use Rattle.std.specs.Ordering.{nat_cmp};
ghost use Rattle.cil_settle.specs.Settled.{leads_within};
ghost use Rattle.cil_syntax.specs.declared.kind.Kind as kinds;
ghost use Rattle.cil_syntax.specs.declared.kind.Kind.TheVariants as variants;
ghost use Rattle.cil_macros.specs.Items.{items_in};
ghost use Rattle.cil_known.specs.Known.{IsKnown, enabled_in, row_in};
ghost use Rattle.cil_known.specs.Numbers.{AreApart};
ghost use Rattle.cil_names.specs.Rows.{IsTableOf};
ghost use Rattle.cil_classes.specs.declared.assigned.Given.{Given as AGiven};
ghost use Rattle.cil_classes.specs.Assigned.{AreEdges, IsWithin};
ghost use Rattle.cil_classes.specs.ClassRows.{AreClasses};
ghost use Rattle.cil_classes.specs.Held.{AreHeld, IsAssigned};
ghost use Rattle.cil_classes.specs.Row.{AreOrderlyRows};

use crate::assigned::{Given, edges_of, masks_of};
use crate::givens::{givens_of, nodes_of};
use crate::nodes::Node;
use crate::row::Class;
use cil_base::NoMemory;
use cil_known::Known;
use cil_macros::Instances;
use cil_settle::Edge;
use std::alloc::Global;

/// The permissions of one class that nodes have.
#[derive(Drop)]
pub struct ClassMasks {
    /// The number of the class.
    pub class: usize,
    /// A mask of its permissions for each node.
    pub masks: Vec<u32>,
}

/// What enabled statements give to class permissions and to permissions of class maps.
#[derive(Drop)]
pub struct GivenPermissions {
    /// The nodes of all that are given something: rising, each once.
    pub nodes: Vec<Node>,
    /// What they have, for each class of which some statement gives permissions, classes rising.
    pub held: Vec<ClassMasks>,
}

/// What the enabled statements of a policy give to class permissions and to permissions of class maps: the least that satisfies all
/// of them. A policy without such statements costs a step for each statement. Each class of which something is given costs a step
/// for each node and each statement that gives something, and the walk of the masks. Error: out of memory.
pub fn given_permissions(
    alloc: Global,
    instances: &Instances,
    known: &Known,
    classes: &[Class],
) -> Result<GivenPermissions, NoMemory>
    requires table { IsTableOf (map (row_in known.now) (items_in instances.now)) known.now.words.now }
    requires rows { AreOrderlyRows classes.now }
    requires known { (names : kinds.Kind → List (List ℕ)) × IsKnown known.now (items_in instances.now) names × AreClasses (items_in instances.now) (enabled_in known.now) (names variants.Class) classes.now }
    requires apart { AreApart known.now.lookup.names.now (enabled_in known.now) known.now.numbers.now }
    ensures { IfOk result (IsAssigned known.now (items_in instances.now) classes.now) }
{
    let nodes = nodes_of(alloc, instances, known)?;
    let givens = givens_of(alloc, instances, known, classes, nodes.as_slice())?;
    let held = held_of(alloc, givens.as_slice(), nodes.len())?;
    Ok(GivenPermissions { nodes, held })
}

/// The masks of each class of which some statement gives permissions.
fn held_of(alloc: Global, givens: &[Given], count: usize) -> Result<Vec<ClassMasks>, NoMemory>
    requires { All (IsWithin count) givens.now }
    ensures { IfOk result (λ held. AreHeld givens.now count held.items) }
{
    let edges = edges_of(alloc, givens)?;
    let classes = classes_given(alloc, givens)?;
    masks_of_each(alloc, givens, edges.as_slice(), classes.as_slice(), count)
}

/// The masks of each of these classes, which are all of which some statement gives permissions by itself.
fn masks_of_each(
    alloc: Global,
    givens: &[Given],
    edges: &[Edge],
    classes: &[usize],
    count: usize,
) -> Result<Vec<ClassMasks>, NoMemory>
    requires sorted { IsNonDecreasingBy (λ e. e.from) edges.now }
    requires edges { AreEdges givens.now edges.now }
    requires within { All (IsWithin count) givens.now }
    requires rising { IsStrictlySortedBy nat_cmp classes.now }
    requires all { (g : AGiven) → Contains givens.now g → (g.part.mask ≡ 0 → ⊥) → Contains classes.now g.part.class }
    ensures { IfOk result (λ held. AreHeld givens.now count held.items) }
{
    let mut held = Vec::new(alloc);
    for class in classes {
        let masks = masks_of(alloc, givens, edges, *class, count)?;
        held.push(ClassMasks {
            class: *class,
            masks,
        })?;
    }
    Ok(held)
}

/// The classes of which some statement gives permissions by itself, rising, each once.
fn classes_given(alloc: Global, givens: &[Given]) -> Result<Vec<usize>, NoMemory>
    ensures rising { IfOk result (λ classes. IsStrictlySortedBy nat_cmp classes.items) }
    ensures all { IfOk result (λ classes. (g : AGiven) → Contains givens.now g → (g.part.mask ≡ 0 → ⊥) → Contains classes.items g.part.class) }
{
    let mut classes = Vec::new(alloc);
    for given in givens {
        push_class(&mut classes, given)?;
    }
    classes.sort_unstable();
    classes.dedup();
    Ok(classes)
}

/// Adds the class of which a statement gives permissions by itself, if it gives some.
fn push_class(classes: &mut Vec<usize>, given: &Given) -> Result<(), NoMemory>
    ensures old { OnOk result ((class : ℕ) → Contains classes.old.items class → Contains classes.new.items class) }
    ensures new { OnOk result ((given.now.part.mask ≡ 0 → ⊥) → Contains classes.new.items given.now.part.class) }
{
    if given.part.mask == 0 {
        return Ok(());
    }
    classes.push(given.part.class)?;
    Ok(())
}
