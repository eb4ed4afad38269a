//! Where the statements of rules are written, and in which namespaces they are placed.

use crate::answers::{Question, is_answer};
use crate::places::show_space;
use cil_macros::Instances;
use cil_rules::{NamedRule, Reach, Rules};
use std::alloc::Global;

/// For a rule of each instance its module, its place and its namespace; a dot alone is the global one.
struct Written;

impl Question for Written {
    fn answer(&self, alloc: Global, instances: &Instances, out: &mut String) -> bool {
        for at in 0..instances.len() {
            if !show_rule(alloc, instances, out, at) {
                return false;
            }
        }
        true
    }
}

/// Adds what is known of a rule of the instance of this number.
fn show_rule(alloc: Global, instances: &Instances, out: &mut String, instance: usize) -> bool {
    if instance >= instances.len() || instance > u32::MAX as usize {
        return false;
    }
    let rule = NamedRule {
        instance: instance as u32,
        branch: 0,
        source: 0,
        target: Reach::Itself,
        class: 0,
        mask: 1,
    };
    let mut list = Vec::new(alloc);
    if list.push(rule).is_err() {
        return false;
    }
    show_first(alloc, instances, out, &Rules::of(list))
}

/// Adds what is known of the first of some rules.
fn show_first(alloc: Global, instances: &Instances, out: &mut String, rules: &Rules) -> bool {
    let Some(first) = rules.as_slice().first() else {
        return false;
    };
    if first.instance as usize >= instances.len() {
        return false;
    }
    let at = rules.at(instances, 0);
    let (module, place) = (at.module, at.at);
    let space = rules.space(instances, 0);
    write!(out, "{module}:{place} ").is_ok()
        && show_space(alloc, out, instances.namespaces(), space)
        && out.push_str("\n").is_ok()
}

/// Modules, and for each instance in order where its statement is written and in which namespace it is placed.
const WRITTEN: &[(&[&str], &str)] = &[
    (&[], ""),
    (
        &["(type z)", "(block b (allow x y (c (p))))(type a)"],
        "0:0 .\n0:29 .\n1:0 .\n0:9 b\n",
    ),
    // What a call brings is written in the body, and placed where the call is.
    (
        &["(macro m () (type x))(block n (call m ()))"],
        "0:0 .\n0:21 .\n0:30 n\n0:12 n\n",
    ),
];

#[test]
fn a_rule_tells_where_its_statement_is(rt: HostRuntime) {
    for &(texts, want) in WRITTEN {
        assert!(rt; is_answer(rt.alloc(), texts, &Written, want), "{want}");
    }
}
