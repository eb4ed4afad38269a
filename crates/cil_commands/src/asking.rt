//! A query of the bytes of tables.

ghost use Rattle.std.specs.Prelude.{◌≡◌, ◌<◌, ◌+◌, List, ℕ};
ghost use Rattle.cil_commands.specs.Asked.{LeavesAnswer, Replies};
ghost use Rattle.cil_commands.specs.Told.{IsOrderly, Says, end_failures, end_of};
ghost use Rattle.cil_server.specs.Devices.{most_failures};

use crate::reply::{End, Reply, tell};
use cil_base::NoMemory;
use cil_server::{
    QueryFault, Sink, TableError, Tables, class_named, decide, decode, defaults, new_chunk,
    parse_context,
};
use std::alloc::Global;

/// Reads tables from their bytes, and writes what they reply to a query of a source, a target and a class where each boolean has its
/// default: the reply of AV. For bytes that are no tables it writes `ERR` and the number of the first fault from the left.
///
/// After the first call of the writer that fails it is not called again.
pub fn ask<W: Sink>(
    alloc: Global,
    bytes: &[u8],
    source: &[u8],
    target: &[u8],
    class: &[u8],
    writer: &mut W,
) -> End
    requires { W.failed writer.old < most_failures }
    ensures answer { LeavesAnswer bytes.now source.now target.now class.now (W.contents writer.old) (W.contents writer.new) result }
    // Exactly one call failed if the result says so, and none otherwise.
    ensures failed { W.failed writer.new ≡ W.failed writer.old + end_failures result }
{
    let chunk = match new_chunk(alloc) {
        Ok(chunk) => chunk,
        Err(NoMemory) => return End::NoMemory,
    };
    match decode(alloc, bytes) {
        Ok(tables) => tell(replied(&tables, source, target, class), chunk, writer),
        Err(TableError::Fault(fault)) => tell(Reply::Unreadable(fault), chunk, writer),
        Err(TableError::NoMemory) => End::NoMemory,
    }
}

/// What tables reply to a query: a decision, or the first fault (the source is not a valid context, the target is not one, there is no class of
/// this name). It takes no memory.
fn replied<'t>(tables: &'t Tables, source: &[u8], target: &[u8], class: &[u8]) -> Reply<'t>
    ensures says { (bytes : List ℕ) → Says result bytes → Replies tables.now source.now target.now class.now bytes (end_of result) }
    ensures orderly { IsOrderly result }
{
    let Some(from) = parse_context(tables, source) else {
        return Reply::Declined(QueryFault::BadSource);
    };
    let Some(onto) = parse_context(tables, target) else {
        return Reply::Declined(QueryFault::BadTarget);
    };
    let Some(class) = class_named(tables, class) else {
        return Reply::Declined(QueryFault::NoClass);
    };
    let Some(row) = tables.classes().get(class.number) else {
        return Reply::Declined(QueryFault::NoClass);
    };
    let decision = decide(tables, &defaults(tables), &from, &onto, class);
    Reply::Decided(row.permissions.as_slice(), decision)
}
