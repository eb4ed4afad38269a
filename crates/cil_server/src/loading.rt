//! LOAD alone: a host loads its modules, and the reply goes to a writer.

ghost use Rattle.std.specs.Prelude.{◌≡◌, ◌<◌, ◌+◌, [], false};
ghost use Rattle.cil_server.specs.Devices.{most_failures};
ghost use Rattle.cil_server.specs.Load.{LeavesLoad, load_failures};
ghost use Rattle.cil_server.specs.declared.loading.LoadEnd.{LoadEnd};

use crate::devices::Sink;
use crate::output::{Output, new_chunk};
use crate::requests;
use cil_base::NoMemory;
use cil_host::Host;
use std::alloc::Global;
use std::hash::BuildHasher;

/// How a load ended.
#[derive(Clone, Copy, Debug, PartialEq, Eq)]
pub enum LoadEnd {
    /// The modules are loaded.
    Loaded,
    /// The modules are refused, for the faults that the reply has.
    Refused,
    /// Out of memory. The reply says so, unless there was no memory for the buffer: then nothing is written.
    NoMemory,
    /// The writer failed. What the reply was is not known then.
    WriteFailed,
}

/// Loads the modules of a host, and writes the reply of LOAD, as a session does. The policy is replaced where the modules are
/// accepted, and else the host is as it was.
///
/// After the first call of the writer that fails it is not called again.
pub fn load<S: BuildHasher + Drop, W: Sink>(
    alloc: Global,
    host: &mut Host<S>,
    writer: &mut W,
) -> LoadEnd
    requires { W.failed writer.old < most_failures }
    // Exactly one call failed if the result says so, and none otherwise.
    ensures failed { W.failed writer.new ≡ W.failed writer.old + load_failures result }
    ensures load { LeavesLoad host.old host.new (W.contents writer.old) (W.contents writer.new) result }
{
    match new_chunk(alloc) {
        Ok(chunk) => load_with(alloc, host, writer, chunk),
        Err(NoMemory) => LoadEnd::NoMemory,
    }
}

/// Loads the modules with the memory for the buffer.
fn load_with<S: BuildHasher + Drop, W: Sink>(
    alloc: Global,
    host: &mut Host<S>,
    writer: &mut W,
    chunk: Vec<u8>,
) -> LoadEnd
    requires empty { chunk.items ≡ [] }
    requires writer { W.failed writer.old < most_failures }
    ensures failed { W.failed writer.new ≡ W.failed writer.old + load_failures result }
    ensures load { LeavesLoad host.old host.new (W.contents writer.old) (W.contents writer.new) result }
{
    let mut output = Output::new(writer, chunk);
    let end = finish(alloc, host, &mut output);
    let writer = output.into_writer();
    // No effect at run time. The proof reads here what the load left of the writer.
    let _ = &*writer;
    end
}

/// Loads the modules, and writes all of the reply.
fn finish<S: BuildHasher + Drop, W: Sink>(
    alloc: Global,
    host: &mut Host<S>,
    output: &mut Output<'_, W>,
) -> LoadEnd
    requires sound { output.old.has_failed ≡ false }
    requires empty { output.old.waiting ≡ [] }
    ensures writer { output.new.writer ≡ output.old.writer }
    ensures failed { output.new.failures ≡ output.old.failures + load_failures result }
    ensures load { LeavesLoad host.old host.new output.old.written output.new.written result }
{
    let end = requests::load(alloc, host, output);
    output.flush();
    if output.has_failed() {
        return LoadEnd::WriteFailed;
    }
    end
}
