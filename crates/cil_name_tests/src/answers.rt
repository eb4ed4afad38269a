//! What tests ask of all that is placed in modules. Each function holds one value that it made or two, since each way out lets go of all.

ghost use Rattle.cil_macros.specs.Items.{items_in, namespaces_in};
ghost use Rattle.cil_names.specs.Entries.{AreEntries};
ghost use Rattle.cil_names.specs.Unresolved.{ArePermissions};

use cil_blocks::{Spaces, inherit};
use cil_declare::declare;
use cil_macros::{Instances, expand};
use cil_modset::ModuleSet;
use cil_names::{Names, commons_of, permissions_of};
use cil_syntax::{Bytes, FaultList, Program, render, written};
use cil_text_tests::set_of;
use std::alloc::Global;

/// The words of a text that is a part of another.
pub(crate) fn text_of(bytes: &[u8]) -> &str {
    match str::from_utf8(bytes) {
        Ok(text) => text,
        Err(_) => "no text",
    }
}

/// Adds two numbers. What holds values calls it, since to write is dear where they are held.
pub(crate) fn show_counts(out: &mut String, first: u64, second: u64) -> bool {
    write!(out, "{first} {second}").is_ok()
}

/// Adds the lines of faults. False where there is no memory.
pub(crate) fn show_faults(alloc: Global, faults: &FaultList, out: &mut String) -> bool {
    match render(alloc, faults) {
        Ok(lines) => out.push_str(text_of(lines.as_slice())).is_ok(),
        Err(_) => false,
    }
}

/// A question about all that is placed.
pub(crate) trait Question {
    /// Adds the answer in words. False where there is none, or no memory.
    fn answer(&self, alloc: Global, instances: &Instances, out: &mut String) -> bool;
}

/// All that is placed, with its names and the permissions of classes.
#[derive(Clone, Copy)]
pub(crate) struct Named<'r, 's, 't, 'a> {
    pub(crate) instances: &'r Instances<'s, 't, 'a>,
    pub(crate) names: &'r Names<'a>,
    pub(crate) permissions: &'r [Vec<Bytes>],
}

pub(crate) trait NamedQuestion {
    /// Adds the answer in words. False where there is none, or no memory.
    fn answer(&self, alloc: Global, all: &Named, out: &mut String) -> bool
        requires entries { AreEntries (namespaces_in all.now.instances.now) (items_in all.now.instances.now) all.now.names.now }
        requires permissions { ArePermissions (namespaces_in all.now.instances.now) all.now.names.now (items_in all.now.instances.now) all.now.permissions.now };
}

#[derive(Drop)]
pub(crate) struct ByNames<Q>(pub(crate) Q);

impl<Q: NamedQuestion> Question for ByNames<Q> {
    fn answer(&self, alloc: Global, instances: &Instances, out: &mut String) -> bool {
        match declare(alloc, instances) {
            Ok(names) => ask_by_names(alloc, &*instances, &names, &self.0, out),
            Err(_) => false,
        }
    }
}

/// Adds the answer to a question by declared names. The permissions of a class are its own and those of its common.
fn ask_by_names<'r, 'a, Q: NamedQuestion>(
    alloc: Global,
    instances: &'r Instances<'_, '_, 'a>,
    names: &'r Names<'a>,
    question: &Q,
    out: &mut String,
) -> bool
    requires { AreEntries (namespaces_in instances.now) (items_in instances.now) names.now }
{
    let Ok(shared) = commons_of(alloc, instances, names) else {
        return false;
    };
    let Ok(lists) = permissions_of(alloc, instances, names, shared.as_slice()) else {
        return false;
    };
    let permissions = lists.as_slice();
    let all = Named {
        instances,
        names,
        permissions,
    };
    question.answer(alloc, &all, out)
}

/// Adds the answer for what stands in blocks. False where a call is wrong, or there is no memory.
fn ask_spaces<Q: Question>(alloc: Global, spaces: &Spaces, ask: &Q, out: &mut String) -> bool {
    match expand(alloc, spaces) {
        Ok(instances) => ask.answer(alloc, &instances, out),
        Err(_) => false,
    }
}

fn ask_program<Q: Question>(alloc: Global, program: &Program, ask: &Q, out: &mut String) -> bool {
    match inherit(alloc, program) {
        Ok(spaces) => ask_spaces(alloc, &spaces, ask, out),
        Err(_) => false,
    }
}

fn ask_modules<Q: Question>(alloc: Global, modules: &ModuleSet, ask: &Q, out: &mut String) -> bool {
    match written(alloc, modules) {
        Ok(program) => ask_program(alloc, &program, ask, out),
        Err(_) => false,
    }
}

fn ask_texts<Q: Question>(alloc: Global, texts: &[&str], ask: &Q, out: &mut String) -> bool {
    match set_of(alloc, texts) {
        Ok(modules) => ask_modules(alloc, &modules, ask, out),
        Err(_) => false,
    }
}

/// Whether this is the answer for some texts.
pub(crate) fn is_answer<Q: Question>(alloc: Global, texts: &[&str], ask: &Q, want: &str) -> bool {
    let mut out = String::new(alloc);
    ask_texts(alloc, texts, ask, &mut out) && out.as_str() == want
}

/// Whether a row holds: a text, and behind an arrow the answer for it.
pub(crate) fn row_holds<Q: Question>(alloc: Global, row: &str, question: &Q) -> bool {
    match row.split_once(" => ") {
        Some((text, want)) => is_answer(alloc, &[text], question, want),
        None => false,
    }
}

/// A module with a class, a user, a role, two types and a rule: 123 bytes.
pub(crate) const FIRST: &str =
    "(class file (open read))(user u)(role r)(type a)(type b)(userrole u r)(roletype r a)(roletype r b)(allow a b (file (read)))";
