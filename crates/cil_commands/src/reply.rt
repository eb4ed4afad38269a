//! The reply of a command, and how the command ends.

ghost use Rattle.std.specs.Prelude.{◌≡◌, ◌<◌, ◌+◌, [], false, true, ℕ, List};
ghost use Rattle.cil_commands.specs.Told.{IsOrderly, IsSent, LeavesReply, Says, TellsReply, end_failures, end_of, sent_end};
ghost use Rattle.cil_server.specs.Devices.{most_failures};
ghost use Rattle.cil_server.specs.Streams.{OutputState, Tells};

use cil_base::Bytes;
use cil_server::{
    Decision, Loaded, Output, QueryFault, Sink, TableFault, put_faults, put_loaded, put_masks,
    put_query_fault, put_refused,
};

/// How a command ended that writes one reply.
#[derive(Clone, Copy, Debug, PartialEq, Eq)]
pub enum End {
    /// What was asked for is done, and the reply says so.
    Done,
    /// It was refused, and the reply says why.
    Refused,
    /// Out of memory.
    NoMemory,
    /// The writer failed. What the reply was is not known then.
    WriteFailed,
}

/// The one reply of a command.
#[derive(Clone, Copy)]
pub enum Reply<'a> {
    /// That of LOAD, where the modules are accepted.
    Loaded(Loaded),
    /// That of LOAD to modules with this many faults, which have these lines.
    Faults(usize, &'a [u8]),
    /// That of LOAD out of memory.
    NoMemory,
    /// That of AV with a decision on a class whose permissions have these names, in byte order.
    Decided(&'a [Bytes], Decision),
    /// That of AV without one.
    Declined(QueryFault),
    /// That to bytes that are no tables.
    Unreadable(TableFault),
}

/// How a command with this reply ends.
fn end_of(reply: Reply<'_>) -> End
    ensures { result ≡ end_of reply.entry }
{
    match reply {
        Reply::Loaded(_) | Reply::Decided(_, _) => End::Done,
        Reply::Faults(_, _) | Reply::Declined(_) | Reply::Unreadable(_) => End::Refused,
        Reply::NoMemory => End::NoMemory,
    }
}

/// Writes a reply, with memory for the buffer, and says how the command ends. It takes no other memory.
///
/// After the first call of the writer that fails it is not called again.
pub fn tell<W: Sink>(reply: Reply<'_>, chunk: Vec<u8>, writer: &mut W) -> End
    requires orderly { IsOrderly reply }
    requires empty { chunk.items ≡ [] }
    requires sound { W.failed writer.old < most_failures }
    ensures reply { LeavesReply (Says reply.entry) (W.contents writer.old) (W.contents writer.new) (end_of reply.entry) result }
    // Exactly one call failed if the result says so, and none otherwise.
    ensures failed { W.failed writer.new ≡ W.failed writer.old + end_failures result }
{
    let mut output = Output::new(writer, chunk);
    let end = tell_all(reply, &mut output);
    let writer = output.into_writer();
    // No effect at run time. The proof reads here what the reply left of the writer.
    let _ = &*writer;
    end
}

/// Writes all of a reply, and says how the command ends.
fn tell_all<W: Sink>(reply: Reply<'_>, output: &mut Output<'_, W>) -> End
    requires orderly { IsOrderly reply }
    requires sound { output.old.has_failed ≡ false }
    requires empty { output.old.waiting ≡ [] }
    ensures reply { LeavesReply (Says reply.entry) output.old.written output.new.written (end_of reply.entry) result }
    ensures failed { output.new.failures ≡ output.old.failures + end_failures result }
    ensures writer { output.new.writer ≡ output.old.writer }
{
    put(reply, output);
    let is_sent = send(output);
    sent_end(is_sent, end_of(reply))
}

/// Tells a reply.
fn put<W: Sink>(reply: Reply<'_>, output: &mut Output<'_, W>)
    requires { IsOrderly reply }
    ensures { TellsReply reply.entry (Tells output.old output.new) }
{
    match reply {
        Reply::Loaded(loaded) => put_loaded(output, loaded),
        Reply::Faults(count, lines) => put_faults(output, count, lines),
        Reply::NoMemory => put_refused(output, 0),
        Reply::Decided(permissions, decision) => put_masks(output, permissions, decision),
        Reply::Declined(fault) => put_query_fault(output, fault),
        Reply::Unreadable(fault) => put_refused(output, fault.code()),
    }
}

/// Writes what waits behind a reply. Returns whether all of the reply is written.
fn send<W: Sink>(output: &mut Output<'_, W>) -> bool
    ensures writer { output.new.writer ≡ output.old.writer }
    ensures sent { (before : OutputState) (reply : List ℕ) → before.has_failed ≡ false → before.waiting ≡ [] → Tells before output.old reply
        → IsSent before output.new reply result }
{
    output.flush();
    !output.has_failed()
}

/// How a command ends whose reply is written, or not all of it.
fn sent_end(is_sent: bool, end: End) -> End
    ensures { result ≡ sent_end is_sent end }
{
    if is_sent { end } else { End::WriteFailed }
}
