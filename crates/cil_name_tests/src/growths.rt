//! A test that passes with every growth allowed, and with any one of them refused (`scripts/refuse-growths` does so in turn): the call that
//! lost it says so, so what is placed is asked once more.

use crate::answers::{Question, row_holds, show_counts};
use cil_macros::Instances;
use std::alloc::Global;

/// Blocks by several ways and calls in two namespaces: how many statements are there by blocks, and how many calls bring.
const PLACED: &[&str] = &[
    "(block p (blockabstract p)(block x (type y))(macro m ()))(block q (blockinherit p)(block k (blockinherit .p.x)))(block n (blockinherit p)(blockinherit q.k)) => 19 0",
    "(role r)(type z)(type w)(macro a ((type t)) (type x)(roletype r t))(macro b ((type t)) (call a (t))(type y))(block n (call b (z)))(call b (z))(call a (w)) => 9 10",
    // A list that is handed on, and a booleanif in the body that gets it.
    "(sensitivity s)(category c)(boolean b true)(type t)(class f (p))(macro k ((categoryset x)) (level l (s (not x)))(booleanif b (true (allow t t (f (p))))))(macro m ((categoryset y)) (call k (y)))(call m ((c all))) => 8 4",
];

struct Counts;

impl Question for Counts {
    fn answer(&self, _alloc: Global, instances: &Instances, out: &mut String) -> bool {
        let entries = instances.spaces().entries().len();
        show_counts(out, entries as u64, instances.called().len() as u64)
    }
}

#[test]
fn a_refused_growth_brings_all_statements(rt: HostRuntime) {
    let alloc = rt.alloc();
    for row in PLACED {
        let holds = row_holds(alloc, row, &Counts) || row_holds(alloc, row, &Counts);
        assert!(rt; holds, "{row}");
    }
}
