//! The requests, each asked of the host and answered. None is begun once the writer has failed.

ghost use Rattle.std.specs.Prelude.{◌≡◌, false};
ghost use Rattle.cil_server.specs.Asked.Request.{Asks, Checks, Exports, Imports, Installs, Lists, Loads, AsksOptionals, AsksWhy, Sets};
ghost use Rattle.cil_server.specs.Load.{IsLoaded};
ghost use Rattle.cil_server.specs.Streams.{Tells};
ghost use Rattle.cil_server.specs.Turns.{IsAnswered};
ghost use Rattle.cil_server.specs.Views.{plain_request};

use crate::decision_replies::put_decision;
use crate::devices::Sink;
use crate::line::{Plain, Query};
use crate::loading::LoadEnd;
use crate::optional_replies::{put_optionals, put_why};
use crate::output::Output;
use crate::replies::{
    put_bundle, put_checked, put_faults, put_host_error, put_imported, put_installed, put_lines,
    put_loaded, put_query_fault, put_refused,
};
use cil_base::NoMemory;
use cil_host::Host;
use cil_syntax::{Failure, render};
use std::alloc::Global;
use std::hash::BuildHasher;

/// Answers a request without a body.
pub(crate) fn reply<S: BuildHasher + Drop, W: Sink>(
    alloc: Global,
    host: &mut Host<S>,
    output: &mut Output<'_, W>,
    plain: Plain<'_>,
)
    requires { output.old.has_failed ≡ false }
    ensures { IsAnswered host.old (plain_request plain.entry) host.new (Tells output.old output.new) }
{
    match plain {
        Plain::Export => export(alloc, host, output),
        Plain::List => list(alloc, host, output),
        Plain::Load => {
            load(alloc, host, output);
        }
        Plain::Optionals => optionals(alloc, host, output),
        Plain::Why => why(alloc, host, output),
        Plain::Ask(
            Query {
                source,
                target,
                class,
            },
        ) => { ask(host, output, source, target, class) }
        Plain::Check(query, permission) => check(host, output, query, permission),
        Plain::Set(name, value) => set(host, output, name, value),
        Plain::Unknown => put_refused(output, 81),
    }
}

/// INSTALL: hands a text to the host, and replies whether it was new.
pub(crate) fn install<S: BuildHasher + Drop, W: Sink>(
    alloc: Global,
    host: &mut Host<S>,
    output: &mut Output<'_, W>,
    text: &[u8],
)
    requires { output.old.has_failed ≡ false }
    ensures { IsAnswered host.old (Installs text.now) host.new (Tells output.old output.new) }
{
    let installed = host.install(alloc, text);
    put_installed(output, installed);
}

/// IMPORT: hands a bundle to the host, and replies how many modules were new.
pub(crate) fn import<S: BuildHasher + Drop, W: Sink>(
    alloc: Global,
    host: &mut Host<S>,
    output: &mut Output<'_, W>,
    bytes: &[u8],
)
    requires { output.old.has_failed ≡ false }
    ensures { IsAnswered host.old (Imports bytes.now) host.new (Tells output.old output.new) }
{
    let imported = host.import(alloc, bytes);
    put_imported(output, imported);
}

/// EXPORT: tells the bundle of the modules.
fn export<S: BuildHasher + Drop, W: Sink>(alloc: Global, host: &Host<S>, output: &mut Output<'_, W>)
    requires { output.old.has_failed ≡ false }
    ensures { IsAnswered host.now Exports host.now (Tells output.old output.new) }
{
    match host.export(alloc) {
        Ok(bytes) => put_bundle(output, bytes.as_slice()),
        Err(NoMemory) => put_refused(output, 0),
    }
}

/// LIST: tells a line for each module.
fn list<S: BuildHasher + Drop, W: Sink>(alloc: Global, host: &Host<S>, output: &mut Output<'_, W>)
    requires { output.old.has_failed ≡ false }
    ensures { IsAnswered host.now Lists host.now (Tells output.old output.new) }
{
    match host.list(alloc) {
        Ok(lines) => put_lines(output, lines.as_slice()),
        Err(NoMemory) => put_refused(output, 0),
    }
}

/// LOAD: loads the modules, and tells the length and the digest of their tables; or tells their faults. Returns how it ended;
/// whether the writer fails does not count.
pub(crate) fn load<S: BuildHasher + Drop, W: Sink>(
    alloc: Global,
    host: &mut Host<S>,
    output: &mut Output<'_, W>,
) -> LoadEnd
    requires { output.old.has_failed ≡ false }
    ensures answers { IsAnswered host.old Loads host.new (Tells output.old output.new) }
    ensures loads { IsLoaded host.old host.new (Tells output.old output.new) result }
{
    match host.load(alloc) {
        Ok(loaded) => {
            put_loaded(output, loaded);
            LoadEnd::Loaded
        }
        Err(Failure::Faults(faults)) => match render(alloc, &faults) {
            Ok(lines) => {
                put_faults(output, faults.len(), lines.as_slice());
                LoadEnd::Refused
            }
            Err(NoMemory) => {
                put_refused(output, 0);
                LoadEnd::NoMemory
            }
        },
        Err(Failure::NoMemory) => {
            put_refused(output, 0);
            LoadEnd::NoMemory
        }
    }
}

/// OPTIONALS: tells a line for each optional of the loaded policy.
fn optionals<S: BuildHasher + Drop, W: Sink>(
    alloc: Global,
    host: &Host<S>,
    output: &mut Output<'_, W>,
)
    requires { output.old.has_failed ≡ false }
    ensures { IsAnswered host.now AsksOptionals host.now (Tells output.old output.new) }
{
    match host.optionals(alloc) {
        Ok(lines) => put_optionals(output, lines.as_slice()),
        Err(error) => put_host_error(output, error),
    }
}

/// WHY: tells a line for each optional that is left out.
fn why<S: BuildHasher + Drop, W: Sink>(alloc: Global, host: &Host<S>, output: &mut Output<'_, W>)
    requires { output.old.has_failed ≡ false }
    ensures { IsAnswered host.now AsksWhy host.now (Tells output.old output.new) }
{
    match host.why(alloc) {
        Ok(lines) => put_why(output, lines.as_slice()),
        Err(error) => put_host_error(output, error),
    }
}

/// CHECK: tells whether a permission is allowed, or why there is no answer.
fn check<S: BuildHasher + Drop, W: Sink>(
    host: &mut Host<S>,
    output: &mut Output<'_, W>,
    query: Query<'_>,
    permission: &[u8],
)
    requires { output.old.has_failed ≡ false }
    ensures { IsAnswered host.old (Checks query.entry.source.now query.entry.target.now query.entry.class.now permission.now) host.new
        (Tells output.old output.new) }
{
    match host.check(query.source, query.target, query.class, permission) {
        Ok(is_allowed) => put_checked(output, is_allowed),
        Err(fault) => put_query_fault(output, fault),
    }
}

/// SET: turns a boolean on or off, or tells why it cannot.
fn set<S: BuildHasher + Drop, W: Sink>(
    host: &mut Host<S>,
    output: &mut Output<'_, W>,
    name: &[u8],
    value: bool,
)
    requires { output.old.has_failed ≡ false }
    ensures { IsAnswered host.old (Sets name.now value) host.new (Tells output.old output.new) }
{
    match host.set_boolean(name, value) {
        Ok(()) => output.put(b"OK\n"),
        Err(fault) => put_query_fault(output, fault),
    }
}

/// AV: tells a decision, or why there is none.
fn ask<S: BuildHasher + Drop, W: Sink>(
    host: &mut Host<S>,
    output: &mut Output<'_, W>,
    source: &[u8],
    target: &[u8],
    class: &[u8],
)
    requires { output.old.has_failed ≡ false }
    ensures { IsAnswered host.old (Asks source.now target.now class.now) host.new
        (Tells output.old output.new) }
{
    match host.query(source, target, class) {
        Ok(decision) => put_decision(output, host, class, decision),
        Err(fault) => put_query_fault(output, fault),
    }
}
