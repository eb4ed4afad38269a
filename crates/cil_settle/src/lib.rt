//! Three questions to a graph: which nodes go out, and in what order, where a node goes out as soon as it has lost as many
//! supports as it needs; which nodes lie on a cycle, with ranks that fall along each edge where none does; and which bits each
//! node has, where bits flow along edges.
//!
//! Start at `settled.rt`: `settle` is one walk in n log n steps. `specs/Settled.antt` says which order is right, `specs/Laws.antt`
//! that only one set of nodes is, and `specs/Sums.antt` what the edges of several passes say together. `cycles_of`, in `cycles.rt`,
//! guesses, and checks the guess by two such walks; `specs/Cycles.antt` says what a cycle is. `spread`, in `flow.rt`, walks each
//! edge 32 times at most, and `specs/Spread.antt` says which bits a node has. A node is a number here; the crates above say what it
//! stands for, as an optional, a declared name, a word or a set of a policy.
#![tactic(auto)]

mod check;
mod cycles;
mod edge;
mod flow;
mod guess;
pub mod laws;
mod plain;
mod reach;
mod settled;
mod supports;

pub use cycles::{Cycles, cycles_of, guessed_cycles};
pub use edge::{Edge, leaving_from, sort_edges};
pub use flow::spread;
pub use plain::searched_cycles;
pub use settled::{Settled, settle};
