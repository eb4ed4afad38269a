//! Reads bundles: one pass over the modules of the bundle and over ours.

ghost use Rattle.std.specs.Prelude.{◌≡◌, ◌+◌, ◌<◌, ◌≤◌, ◌↔◌, length, IsTrue, IfOk, IfErr, OnOk, IfSome, IfNone};
ghost use Rattle.cil_sexpr.specs.Text.{IsReadable};
ghost use Rattle.cil_modset.specs.Faults.{HasHeader, HasModule, IsCut, number_at, promised};
ghost use Rattle.cil_modset.specs.Modules.{AreModules, IsBelow, texts_of};
ghost use Rattle.cil_modset.specs.NewTexts.{IsImportOf, IsImportedUpTo, RefusesModule};
ghost use Rattle.cil_modset.specs.Refusal.{RefusesBundle};

use crate::error::{BundleError, BundleFault};
use crate::new_texts::NewTexts;
use crate::order::is_below;
use crate::texts::Texts;
use cil_sexpr::{ReadError, read};
use std::alloc::Global;

/// The first bytes of a bundle.
const MAGIC: [u8; 5] = *b"CILB\x01";

/// How far an import has read.
#[derive(Drop)]
struct Progress {
    /// The byte offset of the text of the last module.
    start: usize,
    /// The byte offset after that module.
    at: usize,
    /// The modules that we do not have.
    walk: NewTexts,
}

/// The modules of a bundle that we do not have.
pub(crate) fn new_texts_of(
    alloc: Global,
    ours: &Texts,
    bytes: &[u8],
) -> Result<Vec<Vec<u8>>, BundleError>
    requires { AreModules ours.now }
    ensures found { IfOk result (λ fresh. IsImportOf bytes.now ours.now (texts_of fresh.items)) }
    ensures refusal { IfErr result (RefusesBundle bytes.now) }
{
    let count = read_header(bytes)?;
    let mut progress = Progress {
        start: 13,
        at: 13,
        walk: NewTexts::new(alloc),
    };
    for index in 0..count {
        take_module(alloc, ours, bytes, index, &mut progress)?;
    }
    if progress.at < bytes.len() {
        return Err(BundleError::Fault(BundleFault::Trailing));
    }
    Ok(progress.walk.fresh)
}

/// Reads the header, and returns the number of modules in it.
fn read_header(bytes: &[u8]) -> Result<u64, BundleError>
    ensures header { OnOk result (HasHeader bytes.now) }
    ensures count { IfOk result (λ count. count ≡ promised bytes.now) }
    ensures refusal { IfErr result (RefusesBundle bytes.now) }
{
    for i in 0..5 {
        if i < bytes.len() && bytes[i] != MAGIC[i] {
            return Err(BundleError::Fault(BundleFault::BadMagic));
        }
    }
    if bytes.len() < 13 {
        return Err(BundleError::Fault(BundleFault::Short));
    }
    Ok(read_number(bytes, 5))
}

/// The big-endian number in the eight bytes at an offset.
fn read_number(bytes: &[u8], at: usize) -> u64
    requires { at + 8 ≤ length bytes.now }
    ensures { result ≡ number_at bytes.now at }
{
    let b = &bytes[at..at + 8];
    u64::from_be_bytes([b[0], b[1], b[2], b[3], b[4], b[5], b[6], b[7]])
}

/// The module at an offset; none if the bytes end inside it.
fn module_at(bytes: &[u8], at: usize) -> Option<&[u8]>
    requires { at ≤ length bytes.now }
    ensures found { IfSome result (λ text. HasModule bytes.now at text.now) }
    ensures none { IfNone result (IsCut bytes.now at) }
{
    let left = bytes.len() - at;
    if left < 8 {
        return None;
    }
    let size = read_number(bytes, at);
    if ((left - 8) as u64) < size {
        return None;
    }
    Some(&bytes[at + 8..at + 8 + size as usize])
}

/// Reads the next module of the bundle.
fn take_module(
    alloc: Global,
    ours: &Texts,
    bytes: &[u8],
    index: u64,
    progress: &mut Progress,
) -> Result<(), BundleError>
    requires ours { AreModules ours.now }
    requires promised { index < promised bytes.now }
    requires before { IsImportedUpTo bytes.now ours.now (texts_of progress.old.walk.fresh.items)
        index progress.old.start progress.old.at progress.old.walk.passed }
    ensures ok { OnOk result (IsImportedUpTo bytes.now ours.now (texts_of progress.new.walk.fresh.items)
        (index + 1) progress.new.start progress.new.at progress.new.walk.passed) }
    ensures refusal { IfErr result (RefusesBundle bytes.now) }
{
    let Some(text) = module_at(bytes, progress.at) else {
        return Err(BundleError::Fault(BundleFault::Short));
    };
    let last = &bytes[progress.start..progress.at];
    if !comes_next(index, last, text) {
        return Err(BundleError::Fault(BundleFault::NotRising));
    }
    progress.start = progress.at + 8;
    progress.at = progress.start + text.len();
    if progress.walk.knows(ours, text) {
        return Ok(());
    }
    check_module(alloc, index, text)?;
    progress.walk.keep(alloc, text)?;
    Ok(())
}

/// Whether a module is after the last one in byte order, if there was one.
fn comes_next(index: u64, last: &[u8], text: &[u8]) -> bool
    ensures { IsTrue result ↔ (0 < index → IsBelow last.now text.now) }
{
    index == 0 || is_below(last, text)
}

/// Checks that a module is a readable text.
fn check_module(alloc: Global, index: u64, text: &[u8]) -> Result<(), BundleError>
    ensures readable { OnOk result (IsReadable text.now) }
    ensures refusal { IfErr result (RefusesModule index text.now) }
{
    match read(alloc, text) {
        Ok(_) => Ok(()),
        Err(ReadError::Fault(fault)) => {
            Err(BundleError::Fault(BundleFault::BadModule { index, fault }))
        }
        Err(ReadError::NoMemory) => Err(BundleError::NoMemory),
    }
}
