//! The replies, written piece by piece, so that none of them needs memory.

ghost use Rattle.std.specs.Prelude.{◌++◌, codes, decimal};
ghost use Rattle.hex.specs.Hex.{encode_lower};
ghost use Rattle.cil_server.specs.Replies.{newline, of_bundle_fault, of_check, of_export, of_host_error, of_import, of_install, of_line, of_list, of_loaded, of_query_fault, ok_number, refused, refused_at, spaced};
ghost use Rattle.cil_server.specs.Streams.{Tells};

use crate::devices::Sink;
use crate::output::Output;
use cil_host::{HostError, ListLine, Loaded, QueryFault};
use cil_modset::{BundleError, BundleFault, Installed};
use cil_sexpr::ReadError;
use itoa::Buffer;

pub(crate) fn put_decimal<W: Sink>(output: &mut Output<'_, W>, number: u64)
    ensures { Tells output.old output.new (decimal number) }
{
    let mut buffer = Buffer::new();
    output.put(buffer.format(number).as_bytes());
}

/// A number behind a space.
pub(crate) fn put_number<W: Sink>(output: &mut Output<'_, W>, number: u64)
    ensures { Tells output.old output.new (spaced number) }
{
    output.put(b" ");
    put_decimal(output, number);
}

pub(crate) fn put_ok_number<W: Sink>(output: &mut Output<'_, W>, number: u64)
    ensures { Tells output.old output.new (ok_number number) }
{
    output.put(b"OK");
    put_number(output, number);
    output.put(b"\n");
}

/// A refusal by its number.
pub fn put_refused<W: Sink>(output: &mut Output<'_, W>, code: u32)
    ensures { Tells output.old output.new (refused code) }
{
    output.put(b"ERR");
    put_number(output, code as u64);
    output.put(b"\n");
}

/// A refusal by its number, with a place.
fn put_refused_at<W: Sink>(output: &mut Output<'_, W>, code: u32, at: u64)
    ensures { Tells output.old output.new (refused_at code at) }
{
    output.put(b"ERR");
    put_number(output, code as u64);
    put_number(output, at);
    output.put(b"\n");
}

pub(crate) fn put_installed<W: Sink>(
    output: &mut Output<'_, W>,
    installed: Result<Installed, ReadError>,
)
    ensures { Tells output.old output.new (of_install installed) }
{
    match installed {
        Ok(Installed::New) => output.put(b"OK new\n"),
        Ok(Installed::Known) => output.put(b"OK known\n"),
        Err(ReadError::Fault(fault)) => put_refused_at(output, fault.code.number(), fault.at),
        Err(ReadError::NoMemory) => put_refused(output, 0),
    }
}

fn put_bundle_fault<W: Sink>(output: &mut Output<'_, W>, fault: BundleFault)
    ensures { Tells output.old output.new (of_bundle_fault fault) }
{
    match fault {
        BundleFault::BadModule { index, fault } => {
            output.put(b"ERR");
            put_number(output, 14);
            put_number(output, index);
            put_number(output, fault.code.number() as u64);
            put_number(output, fault.at);
            output.put(b"\n");
        }
        BundleFault::BadMagic => put_refused(output, fault.number()),
        BundleFault::Short => put_refused(output, fault.number()),
        BundleFault::NotRising => put_refused(output, fault.number()),
        BundleFault::Trailing => put_refused(output, fault.number()),
    }
}

pub(crate) fn put_imported<W: Sink>(output: &mut Output<'_, W>, imported: Result<u64, BundleError>)
    ensures { Tells output.old output.new (of_import imported) }
{
    match imported {
        Ok(added) => put_ok_number(output, added),
        Err(BundleError::Fault(fault)) => put_bundle_fault(output, fault),
        Err(BundleError::NoMemory) => put_refused(output, 0),
    }
}

pub(crate) fn put_bundle<W: Sink>(output: &mut Output<'_, W>, bytes: &[u8])
    ensures { Tells output.old output.new (of_export bytes.now) }
{
    put_ok_number(output, bytes.len() as u64);
    output.put(bytes);
}

pub(crate) fn put_lines<W: Sink>(output: &mut Output<'_, W>, lines: &[ListLine])
    ensures { Tells output.old output.new (of_list lines.now) }
{
    put_ok_number(output, lines.len() as u64);
    for line in lines {
        put_line(output, line);
    }
}

fn put_line<W: Sink>(output: &mut Output<'_, W>, line: &ListLine)
    ensures { Tells output.old output.new (of_line line.now) }
{
    put_digest(output, line.digest);
    put_number(output, line.length);
    output.put(b"\n");
}

/// A digest in hexadecimal.
fn put_digest<W: Sink>(output: &mut Output<'_, W>, digest: [u8; 32])
    ensures { Tells output.old output.new (encode_lower digest) }
{
    let mut digits = [0u8; 64];
    if hex::encode_to_slice(digest.as_slice(), &mut digits).is_err() {
        return;
    }
    output.put(&digits);
}

/// What a load is told by: how many bytes the tables have, and the digest of these.
pub fn put_loaded<W: Sink>(output: &mut Output<'_, W>, loaded: Loaded)
    ensures { Tells output.old output.new (of_loaded loaded) }
{
    output.put(b"OK");
    put_number(output, loaded.length);
    output.put(b" ");
    put_digest(output, loaded.digest);
    output.put(b"\n");
}

/// The lines of some faults, and how many there are.
pub fn put_faults<W: Sink>(output: &mut Output<'_, W>, count: usize, lines: &[u8])
    ensures { Tells output.old output.new (codes "FAULTS" ++ spaced count ++ newline ++ lines.now) }
{
    output.put(b"FAULTS");
    put_number(output, count as u64);
    output.put(b"\n");
    output.put(lines);
}

pub(crate) fn put_host_error<W: Sink>(output: &mut Output<'_, W>, error: HostError)
    ensures { Tells output.old output.new (of_host_error error) }
{
    match error {
        HostError::Query(fault) => put_query_fault(output, fault),
        HostError::NoMemory => put_refused(output, 0),
    }
}

pub fn put_query_fault<W: Sink>(output: &mut Output<'_, W>, fault: QueryFault)
    ensures { Tells output.old output.new (of_query_fault fault) }
{
    match fault {
        QueryFault::BadSource => put_refused_at(output, fault.number(), 1),
        QueryFault::BadTarget => put_refused_at(output, fault.number(), 2),
        QueryFault::NoPolicy => put_refused(output, fault.number()),
        QueryFault::NoClass => put_refused(output, fault.number()),
        QueryFault::NoPermission => put_refused(output, fault.number()),
        QueryFault::NoBoolean => put_refused(output, fault.number()),
    }
}

/// Whether a permission is allowed.
pub(crate) fn put_checked<W: Sink>(output: &mut Output<'_, W>, is_allowed: bool)
    ensures { Tells output.old output.new (of_check is_allowed) }
{
    if is_allowed {
        output.put(b"OK yes\n");
    } else {
        output.put(b"OK no\n");
    }
}
