//! What a class permission gives, as masks of the classes.

ghost use Rattle.std.specs.Prelude.{IfOk};
ghost use Rattle.std.specs.List.Sorted.{IsStrictlySortedBy};
ghost use Rattle.cil_classes.specs.NodeOrder.{node_cmp};

use crate::answers::{ByNames, Named, NamedQuestion, is_answer};
use cil_base::NoMemory;
use cil_classes::{ClassId, ClassMasks, GivenPermissions, Node, expand_perms};
use cil_known::Known;
use cil_names::{Lookup, Meaning, OptSet, Words};
use cil_syntax::{Excerpt, LookedUp, Sign, Term};
use std::alloc::Global;

/// They are the entries 1 and 2, behind `object_r`.
const TEXT: &str = "(classpermission p)(classpermission q)";

/// A class, and what the class permissions `p` and `q` have of it.
const HELD: &[(usize, u32, u32)] = &[(0, 0x5, 0x1), (3, 0, 0x2), (7, 0x8000_0001, 0)];

/// A node for each class permission. Errors: out of memory.
fn nodes(alloc: Global) -> Result<Vec<Node>, NoMemory>
    ensures { IfOk result (λ nodes. IsStrictlySortedBy node_cmp nodes.items) }
{
    let mut nodes = Vec::new(alloc);
    for entry in 1..3 {
        nodes.push(Node { entry, number: 0 })?;
    }
    nodes.sort_unstable();
    nodes.dedup();
    Ok(nodes)
}

fn given(alloc: Global) -> Result<GivenPermissions, NoMemory>
    ensures { IfOk result (λ given. IsStrictlySortedBy node_cmp given.nodes.items) }
{
    let mut held = Vec::new(alloc);
    for &(class, p, q) in HELD {
        let masks = Vec::from_slice(alloc, &[p, q])?;
        held.push(ClassMasks { class, masks })?;
    }
    let nodes = nodes(alloc)?;
    Ok(GivenPermissions { nodes, held })
}

/// The number of the entry that is a class permission, and the masks that it gives.
#[derive(Drop)]
struct Gives(usize, &'static [(ClassId, u32)]);

impl NamedQuestion for Gives {
    fn answer(&self, alloc: Global, all: &Named, _out: &mut String) -> bool {
        match given(alloc) {
            Ok(given) => is_given(alloc, all, &given, self),
            Err(_) => false,
        }
    }
}

fn is_given(alloc: Global, all: &Named, given: &GivenPermissions, want: &Gives) -> bool
    requires { IsStrictlySortedBy node_cmp given.now.nodes.items }
{
    let enabled = OptSet::of(Vec::new(alloc));
    let words = Words::of(Vec::new(alloc), Vec::new(alloc));
    let lookup = Lookup {
        namespaces: all.instances.namespaces(),
        names: &*all.names,
        enabled: &enabled,
    };
    let known = Known {
        lookup,
        words: &words,
        numbers: &[0, 0, 0],
        permissions: &[],
    };
    are_masks(alloc, &known, given, want)
}

fn are_masks(alloc: Global, known: &Known, given: &GivenPermissions, want: &Gives) -> bool
    requires { IsStrictlySortedBy node_cmp given.now.nodes.items }
{
    let Ok(meaning) = Meaning::of(Some(want.0)) else {
        return false;
    };
    let term = Term::Leaf(LookedUp {
        bytes: Excerpt::of(b"p"),
        at: 0,
        sign: Sign::ClassPermissions,
    });
    match expand_perms(alloc, known, &[], given, &term, 0, &[meaning]) {
        Ok(masks) => masks.as_slice() == want.1,
        Err(_) => false,
    }
}

const P: &[(ClassId, u32)] = &[
    (ClassId { number: 0 }, 0x5),
    (ClassId { number: 7 }, 0x8000_0001),
];

const Q: &[(ClassId, u32)] = &[(ClassId { number: 0 }, 0x1), (ClassId { number: 3 }, 0x2)];

#[test]
fn a_class_permission_gives_masks_of_its_classes(rt: HostRuntime) {
    assert!(rt; is_answer(rt.alloc(), &[TEXT], &ByNames(Gives(1, P)), ""));
    assert!(rt; is_answer(rt.alloc(), &[TEXT], &ByNames(Gives(2, Q)), ""));
}
