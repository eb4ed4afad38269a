//! The program: it compiles the SELinux policy modules that it is given, and answers queries.
//!
//! Start at `run` in `program.rt`, which is the program over its words and its streams, and at `run_session` in
//! `session.rt` and `run_check` in `check.rt`. `specs/Ends.antt` says what each end is called and which number it has. Requests and their
//! replies are a crate below.
#![tactic(auto)]

#[cfg(test)]
mod argument_tests;
mod arguments;
mod capacity;
mod check;
mod compile;
mod decide;
mod ended;
mod error;
mod help;
#[cfg(test)]
mod in_memory;
mod locate;
mod modules;
mod program;
#[cfg(test)]
mod search_tests;
mod session;
mod status;
mod system;
#[cfg(test)]
mod table_tests;
#[cfg(test)]
mod tests;

use crate::arguments::words;
use crate::program::{Streams, run};
use crate::system::Machine;
use cil_commands::Counted;
use std::process::ExitCode;

fn main(rt: HostRuntime) -> ExitCode {
    let mut streams = Streams {
        input: Counted::new(rt.stdin()),
        output: Counted::new(rt.stdout()),
        messages: rt.stderr(),
    };
    let status = match words(&rt) {
        Ok(words) => run(
            rt.alloc(),
            words.as_slice(),
            &mut Machine::new(&rt),
            &mut streams,
        ),
        Err(error) => error.report(&mut streams.messages),
    };
    ExitCode::from(status.number())
}
