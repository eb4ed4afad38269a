//! The libraries in use: one policy is compiled and asked, and the faults of another are printed.
//!
//! `stdout` has what it prints, and the gate compares.
#![tactic(auto)]

use cil_base::NoMemory;
use cil_decide::{class_named, decide, defaults, parse_context, permission_at};
use cil_faults::{Failure, render};
use cil_modset::ModuleSet;
use cil_sexpr::ReadError;
use cil_tables::{Tables, compile};
use std::alloc::Global;
use std::io::{self, Write};
use std::process::ExitCode;
use thiserror::Error;

/// Two modules: what is declared, and what an application may do with its log.
const POLICY: [&str; 2] = [
    "(class file (open read write))
     (user u)(role r)(userrole u r)
     (type app_t)(roletype r app_t)
     (type log_t)(roletype r log_t)",
    "(allow app_t log_t (file (open write)))",
];

/// Two modules with three faults. In byte order `(type 1b)(foo)` is module 0, and `(type a b)` is module 1.
const FAULTY: [&str; 2] = ["(type a b)", "(type 1b)(foo)"];

/// Why the example stops early.
#[derive(Debug, Drop, Error)]
enum ExampleError {
    #[error("a module cannot be read: {0}")]
    Read(#[from] ReadError),
    #[error("the policy has no such user, role, type or class")]
    Undeclared,
    #[error(transparent)]
    NoMemory(#[from] NoMemory),
    #[error("the output failed: {0}")]
    Output(#[from] io::Error),
}

/// The set of modules with these texts. Their order does not matter.
fn modules_of(alloc: Global, texts: &[&str]) -> Result<ModuleSet, ExampleError> {
    let mut modules = ModuleSet::new(alloc);
    for text in texts {
        modules.install(alloc, text.as_bytes())?;
    }
    Ok(modules)
}

/// Prints each permission of the class `file`, and whether the application has it on its log.
fn print_decision<W: Write>(out: &mut W, tables: &Tables) -> Result<(), ExampleError> {
    let source = parse_context(tables, b"u:r:app_t").ok_or(ExampleError::Undeclared)?;
    let target = parse_context(tables, b"u:r:log_t").ok_or(ExampleError::Undeclared)?;
    let class = class_named(tables, b"file").ok_or(ExampleError::Undeclared)?;
    let settings = defaults(tables);
    let decision = decide(tables, &settings, &source, &target, class);
    for bit in 0..32 {
        if let Some(permission) = permission_at(tables, class, bit) {
            let is_allowed = decision.allowed & (1 << bit) != 0;
            out.write_all(permission)?;
            out.write_all(if is_allowed {
                b": allowed\n"
            } else {
                b": denied\n"
            })?;
        }
    }
    Ok(())
}

/// Compiles the modules. Prints a decision of their policy, or their faults.
fn print_answer<W: Write>(out: &mut W, alloc: Global, texts: &[&str]) -> Result<(), ExampleError> {
    let modules = modules_of(alloc, texts)?;
    match compile(alloc, &modules) {
        Ok(compiled) => print_decision(out, &compiled.tables),
        Err(Failure::Faults(faults)) => Ok(out.write_all(render(alloc, &faults)?.as_slice())?),
        Err(Failure::NoMemory) => Err(ExampleError::NoMemory(NoMemory)),
    }
}

/// Prints the answers to both policies.
fn run<W: Write>(out: &mut W, alloc: Global) -> Result<(), ExampleError> {
    print_answer(out, alloc, &POLICY)?;
    print_answer(out, alloc, &FAULTY)
}

fn main(rt: HostRuntime) -> ExitCode {
    match run(&mut rt.stdout(), rt.alloc()) {
        Ok(()) => ExitCode::SUCCESS,
        Err(error) => {
            let _ = eprintln!(rt; "example: {error}");
            ExitCode::FAILURE
        }
    }
}
