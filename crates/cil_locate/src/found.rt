//! What is wrong with some files, before any of it is written.

ghost use Rattle.std.specs.Prelude.{◌≡◌, ◌↔◌, IfOk, IsTrue, List};
ghost use Rattle.std.specs.List.Sorted.{IsStrictlySortedBy};
ghost use Rattle.cil_locate.specs.Counts.{AreTold, unread};
ghost use Rattle.cil_locate.specs.Files.{SourceFile};
ghost use Rattle.cil_locate.specs.Order.{told_cmp};
ghost use Rattle.cil_locate.specs.Found.{IsEnd, IsFound, IsFoundOf};
ghost use Rattle.cil_locate.specs.Readings.{AreAllRead, AreTexts};

use crate::faults::order_of_faults;
use crate::file::File;
use crate::notes::order_of_notes;
use crate::origins::origins_of;
use crate::reading::{Readings, read_all};
use crate::search::Located;
use crate::told::Told;
use cil_base::NoMemory;
use cil_faults::{Failure, FaultList};
use cil_modset::ModuleSet;
use cil_server::{Compiled, compile};
use cil_sexpr::ReadFault;
use std::alloc::Global;

/// What is wrong with some files.
#[derive(Drop)]
pub(crate) enum Found {
    /// Some cannot be read as texts: the first fault of each of these.
    Unreadable(Vec<Option<ReadFault>>),
    /// Their policy is refused for these faults, which are told in this order.
    Refused(FaultList, Vec<Told>),
    /// Nothing; and the order in which it is told why optionals are left out.
    Accepted(Compiled, Vec<Told>),
}

impl Found {
    /// How the search ends where all of it was written.
    pub(crate) fn end(&self) -> Located
        requires { (files : List SourceFile) × IsFound files self.now }
        ensures { IsEnd self.now result }
    {
        match self {
            Found::Unreadable(faults) => {
                let count = unreadable(faults.as_slice());
                Located::Faults {
                    faults: count,
                    files: count,
                }
            }
            Found::Refused(faults, order) => Located::Faults {
                faults: faults.len(),
                files: files_in(order.as_slice()),
            },
            Found::Accepted(_, _) => Located::Accepted,
        }
    }
}

/// What is wrong with some files. Errors: out of memory.
pub(crate) fn found_in(alloc: Global, files: &[File<'_>]) -> Result<Found, NoMemory>
    ensures { IfOk result (IsFound files.now) }
{
    let Readings { modules, faults } = read_all(alloc, files)?;
    if are_all_read(faults.as_slice()) {
        found_of(alloc, files, &modules)
    } else {
        Ok(Found::Unreadable(faults))
    }
}

/// What is wrong with the policy of these modules, which are the texts of the files. Errors: out of memory.
fn found_of(alloc: Global, files: &[File<'_>], modules: &ModuleSet) -> Result<Found, NoMemory>
    ensures { IfOk result (IsFoundOf files.now modules.now) }
{
    let origins = origins_of(alloc, files, modules)?;
    match compile(alloc, modules) {
        Ok(compiled) => {
            let order = order_of_notes(alloc, origins.as_slice(), compiled.reasons.as_slice())?;
            Ok(Found::Accepted(compiled, order))
        }
        Err(Failure::Faults(faults)) => {
            let order = order_of_faults(alloc, origins.as_slice(), faults.as_slice())?;
            Ok(Found::Refused(faults, order))
        }
        Err(Failure::NoMemory) => Err(NoMemory),
    }
}

/// Whether no file has a fault.
fn are_all_read(faults: &[Option<ReadFault>]) -> bool
    ensures { IsTrue result ↔ AreAllRead faults.now }
{
    for fault in faults {
        if fault.is_some() {
            return false;
        }
    }
    true
}

/// How many files have a fault.
fn unreadable(faults: &[Option<ReadFault>]) -> usize
    ensures { result ≡ unread faults.now }
{
    let mut count = 0;
    for fault in faults {
        if fault.is_some() {
            count += 1;
        }
    }
    count
}

/// How many files are told of, in this order.
fn files_in(order: &[Told]) -> usize
    requires { IsStrictlySortedBy told_cmp order.now }
    ensures { AreTold order.now result }
{
    let (mut count, mut last) = (0, 0);
    for told in order {
        if told.origin != last {
            last = told.origin;
            count += 1;
        }
    }
    count
}
