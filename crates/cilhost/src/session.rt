//! The subcommand `session`: a host that is given files, and then serves requests.

ghost use Rattle.std.specs.Prelude.{◌≡◌, ◌<◌, ◌≤◌, ◌+◌, ◌⊎◌, ℕ, [], None, IfErr, IfOk, OnErr, OnOk};
ghost use Rattle.cil_modset.specs.Modules.{AreModules};
ghost use Rattle.cil_commands.specs.server.Devices.{most_failures};
ghost use Rattle.cilhost.specs.Ends.{HasServedNothing, status_of};
ghost use Rattle.cilhost.specs.Reading.{Adds, HasFailed, HasJust, HasRefused, IsDue, IsDueAt, StopsAt};
ghost use Rattle.cilhost.specs.Sessions.{IsSession};

use crate::error::{Error, STREAMS};
use crate::program::Streams;
use crate::status::Status;
use crate::system::System;
use cil_commands::{Host, Served, Sink, Source, serve};
use cil_sexpr::LONGEST_TEXT;
use std::alloc::Global;
use std::hash::BuildHasher;
use std::io::Write;

/// How many bytes of a file are read: one more than a module may have, so that the host refuses a longer one.
pub(crate) const LONGEST: u64 = LONGEST_TEXT as u64 + 1;

/// Installs the files from the left, each read and installed before the next, and then serves the requests of
/// the input on the output. The host's cache may hold `capacity` decisions, from 1 to 65,536. A file that is refused, or cannot be
/// opened or read, ends the session before anything is served. Returns the status to end with.
pub fn run_session<Y: System, R: Source, W: Sink, E: Write>(
    alloc: Global,
    capacity: usize,
    files: &[&str],
    system: &mut Y,
    streams: &mut Streams<R, W, E>,
) -> Status
    requires least { 1 ≤ capacity }
    requires most { capacity ≤ 65536 }
    requires reader { R.failed streams.old.input < most_failures }
    requires writer { W.failed streams.old.output < most_failures }
    ensures session { IsSession (Y.holds system.old) (Y.failure system.old) (Y.failure system.new) files.now
        (record { bytes = R.rest streams.old.input; failures = R.failed streams.old.input }) (record { bytes = R.rest streams.new.input; failures = R.failed streams.new.input })
        (record { bytes = W.contents streams.old.output; failures = W.failed streams.old.output }) (record { bytes = W.contents streams.new.output; failures = W.failed streams.new.output }) result }
    ensures failed { result ≡ Status.Failed → HasFailed (Y.failure system.new)
        ⊎ ((R.failed streams.new.input ≡ R.failed streams.old.input + 1) ⊎ (W.failed streams.new.output ≡ W.failed streams.old.output + 1)) }
    ensures refused { result ≡ Status.Refused → HasRefused (Y.holds system.old) files.now }
    ensures unserved { result ≡ Status.Refused → HasServedNothing streams.old streams.new }
{
    match prepared(alloc, capacity, files, system) {
        Ok(mut host) => {
            let served = serve(alloc, &mut host, &mut streams.input, &mut streams.output);
            end(served, &mut streams.messages)
        }
        Err(error) => error.report(&mut streams.messages),
    }
}

/// A host with just the files, no policy yet, and an empty cache for `capacity` decisions, from 1 to 65,536.
pub fn prepared<'a, Y: System>(
    alloc: Global,
    capacity: usize,
    files: &[&'a str],
    system: &mut Y,
) -> Result<Host<Y::Hasher>, Error<'a>>
    requires least { 1 ≤ capacity }
    requires most { capacity ≤ 65536 }
    ensures installed { IfOk result (λ host. HasJust (Y.holds system.old) files.now host.modules) }
    ensures no_policy { IfOk result (λ host. host.loaded ≡ None) }
    ensures sound { OnOk result (Y.failure system.new ≡ Y.failure system.old) }
    ensures due { IfErr result (IsDue (Y.holds system.old) (Y.failure system.old) (Y.failure system.new) files.now) }
{
    let hasher = match system.hasher() {
        Ok(hasher) => hasher,
        Err(error) => return Err(Error::failed(STREAMS, error)),
    };
    let mut host = Host::new(alloc, capacity, hasher)?;
    install_all(alloc, &mut host, system, files)?;
    Ok(host)
}

/// Installs the files from the left on a host without modules, each read and installed before the next. The host then has just these.
fn install_all<'a, S: BuildHasher + Drop, Y: System>(
    alloc: Global,
    host: &mut Host<S>,
    system: &mut Y,
    files: &[&'a str],
) -> Result<(), Error<'a>>
    requires { host.old.modules ≡ [] }
    ensures installed { OnOk result (HasJust (Y.holds system.old) files.now host.new.modules) }
    ensures loaded { host.new.loaded ≡ host.old.loaded }
    ensures sound { OnOk result (Y.failure system.new ≡ Y.failure system.old) }
    ensures due { IfErr result (λ error. (place : ℕ)
        × StopsAt (Y.holds system.old) (Y.failure system.old) (Y.failure system.new) files.now place error) }
{
    for file in files {
        install(alloc, host, system, file)?;
    }
    Ok(())
}

/// Reads a file and installs it.
fn install<'a, S: BuildHasher + Drop, Y: System>(
    alloc: Global,
    host: &mut Host<S>,
    system: &mut Y,
    file: &'a str,
) -> Result<(), Error<'a>>
    ensures adds { OnOk result (Adds (Y.holds system.old file.now) host.old.modules host.new.modules) }
    ensures modules { AreModules host.old.modules → AreModules host.new.modules }
    ensures loaded { host.new.loaded ≡ host.old.loaded }
    ensures due { IfErr result (IsDueAt (Y.holds system.old file.now) (Y.failure system.old) (Y.failure system.new) file.entry) }
    ensures err { OnErr result (host.new ≡ host.old) }
    ensures sound { OnOk result (Y.failure system.new ≡ Y.failure system.old) }
    ensures stays { Y.holds system.new ≡ Y.holds system.old }
{
    let text = match system.read(alloc, file, LONGEST) {
        Ok(text) => text,
        Err(error) => return Err(Error::failed(file, error)),
    };
    match host.install(alloc, text.as_slice()) {
        Ok(_) => Ok(()),
        Err(error) => Err(Error::refused(file, error)),
    }
}

/// The status after a session with this end, and its line where it has one.
pub fn end<E: Write>(served: Served, messages: &mut E) -> Status
    ensures { result ≡ status_of served }
{
    match served {
        Served::Fault(0) => Error::NoMemory.report(messages),
        Served::ReadFailed | Served::WriteFailed => Error::Failed(STREAMS).report(messages),
        _ => Status::after(served),
    }
}
