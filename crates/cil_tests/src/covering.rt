//! What rules cover, by their index and one by one: for one type, several types and `self` on both sides, and with each growth refused. Each
//! pair of six types is in `rows/attributes.session`.

ghost use Rattle.std.specs.List.Sorted.{IsStrictlySortedBy};
ghost use Rattle.cil_conditions.specs.Order.{branch_cmp};

use cil_conditions::{Branch, Settings};
use cil_server::{Asked, NamedRule, NamedRules, Reach, Sections, covers};
use cil_sets::{Joining, Numbers};
use std::alloc::Global;
use std::test::Fail;

/// A set of types: all from the first number on that are below the second.
type Range = (usize, usize);

/// The sources of a rule, its targets or none for `self`, its class, and its permissions.
type Row = (Range, Option<Range>, u32, u32);

/// Sets of one type, of several, of none, and of types far apart in numbers; classes in no order; a rule twice, two that differ in
/// permissions alone, and classes of great numbers.
const ROWS: &[Row] = &[
    ((2, 3), Some((3, 4)), 1, 0x1),
    ((2, 3), Some((0, 5)), 1, 0x2),
    ((0, 4), Some((3, 4)), 1, 0x4),
    ((1, 5), Some((2, 6)), 1, 0x8),
    ((2, 3), None, 1, 0x10),
    ((0, 6), None, 1, 0x20),
    ((2, 3), Some((3, 4)), 1, 0x1),
    ((2, 3), Some((3, 4)), 1, 0x40),
    ((2, 3), Some((3, 4)), 0, 0x1),
    ((0, 6), Some((0, 6)), 2, 0x8000_0000),
    ((5, 6), Some((5, 6)), 2, 0x4000_0000),
    ((5, 5), Some((0, 6)), 2, 0x2),
    ((0, 6), Some((4, 4)), 2, 0x4),
    ((70_000, 70_001), Some((69_990, 70_010)), 0, 0x8),
    ((3, 4), Some((3, 4)), 7, 0x1),
    ((1, 4), None, u32::MAX, 0x2),
];

/// The source, the target and the class that are asked of, and the permissions that the rules cover, also of types and classes that are not
/// there.
const COVERED: &[(usize, usize, usize, u32)] = &[
    (2, 3, 1, 0x4f),
    (3, 3, 1, 0x2c),
    (5, 5, 2, 0xC000_0000),
    (6, 6, 2, 0),
    (70_000, 69_989, 0, 0),
    (70_000, 69_990, 0, 0x8),
    (70_000, 70_009, 0, 0x8),
    (70_000, 70_010, 0, 0),
    (69_999, 70_000, 0, 0),
    (3, 3, 7, 0x1),
    (3, 3, u32::MAX as usize, 0x2),
    (3, 3, usize::MAX, 0),
    (usize::MAX, usize::MAX, 1, 0),
];

fn numbers_of(alloc: Global, range: Range) -> Option<Numbers> {
    let before = Numbers::below(alloc, range.0).ok()?;
    let all = Numbers::below(alloc, range.1).ok()?;
    all.joined(alloc, Joining::Without, &before).ok()
}

/// Adds the types of a range, and answers their number. None where there is no memory.
fn push_set(alloc: Global, sets: &mut Vec<Numbers>, range: Range) -> Option<u32> {
    let number = sets.len();
    if number > u32::MAX as usize {
        return None;
    }
    let numbers = numbers_of(alloc, range)?;
    match sets.push(numbers) {
        Ok(()) => Some(number as u32),
        Err(_) => None,
    }
}

/// The rule of a row, whose sets have numbers of their own. None where there is no memory.
fn rule_of(alloc: Global, sets: &mut Vec<Numbers>, row: &Row) -> Option<NamedRule> {
    let &(source, target, class, mask) = row;
    let target = match target {
        Some(range) => Reach::Types(push_set(alloc, &mut *sets, range)?),
        None => Reach::Itself,
    };
    Some(NamedRule {
        instance: 0,
        branch: 0,
        source: push_set(alloc, sets, source)?,
        target,
        class,
        mask,
    })
}

/// The rules of all rows, as rules that allow. None where there is no memory.
fn rules_of(alloc: Global, sets: &mut Vec<Numbers>, rows: &[Row]) -> Option<NamedRules> {
    let mut allow = Vec::new(alloc);
    for row in rows {
        allow.push(rule_of(alloc, &mut *sets, row)?).ok()?;
    }
    Some(NamedRules {
        allow,
        auditallow: Vec::new(alloc),
        dontaudit: Vec::new(alloc),
    })
}

/// No branches: all rules count always, since what conditions do a session shows.
fn no_branches(alloc: Global) -> Vec<Branch>
    ensures { IsStrictlySortedBy branch_cmp result.items }
{
    Vec::new(alloc)
}

/// The permissions that rules cover, rule by rule and bit by bit.
fn walked(
    sets: &[Numbers],
    rules: &[NamedRule],
    source: usize,
    target: usize,
    class: usize,
) -> u32 {
    let mut mask = 0;
    for rule in rules {
        for bit in 0..32 {
            if covers(sets, rule, source, target, class, bit) {
                mask |= 1 << bit;
            }
        }
    }
    mask
}

/// The permissions that rules cover, by their index. None where they are others by the records one by one.
fn covered(sections: &Sections, source: usize, target: usize, class: usize) -> Option<u32> {
    let settings = Settings::all_off();
    let asked = Asked {
        source,
        target,
        class,
    };
    let mut mask = 0;
    for place in 0..sections.allow_len() {
        mask |= sections.allowed_at(&settings, &asked, place);
    }
    if sections.allowed(&settings, &asked) == mask {
        Some(mask)
    } else {
        None
    }
}

/// Whether rules cover what they have to, each once, with their index and without. None where there is no memory.
fn are_covered(alloc: Global, sets: &[Numbers], rules: &NamedRules) -> Option<bool> {
    let sections = Sections::of(alloc, rules, sets, no_branches(alloc)).ok()?;
    for &(source, target, class, mask) in COVERED {
        if covered(&sections, source, target, class) != Some(mask) {
            return Some(false);
        }
        if walked(sets, rules.allow.as_slice(), source, target, class) != mask {
            return Some(false);
        }
    }
    Some(sections.allow_len() == ROWS.len() - 1)
}

/// The same of the rules of all rows.
fn is_covered(alloc: Global) -> Option<bool> {
    let mut sets = Vec::new(alloc);
    let rules = rules_of(alloc, &mut sets, ROWS)?;
    are_covered(alloc, sets.as_slice(), &rules)
}

#[test]
fn a_refused_growth_leaves_no_rule_out(rt: HostRuntime) {
    let is_so = match is_covered(rt.alloc()) {
        Some(is_so) => is_so,
        None => is_covered(rt.alloc()) == Some(true),
    };
    assert!(rt; is_so);
}

#[test]
fn there_may_be_no_rules(rt: HostRuntime) -> Result<(), Fail> {
    let rules = rules_of(rt.alloc(), &mut Vec::new(rt.alloc()), &[]).ok_or("no memory")?;
    let none = Sections::of(rt.alloc(), &rules, &[], no_branches(rt.alloc())).ok();
    let none = none.ok_or("no memory")?;
    assert!(rt; none.allow_len() == 0 && covered(&none, 0, 0, 0) == Some(0));
    Ok(())
}
