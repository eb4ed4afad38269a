//! What follows a line: its body, and the reply.

ghost use Rattle.std.specs.Prelude.{◌≡◌, ◌<◌, ℕ, length, List, [], false, IfErr, IfOk, OnOk};
ghost use Rattle.std.specs.Io.KnownBytes.{Consumes};
ghost use Rattle.cil_host.specs.Machine.{State};
ghost use Rattle.cil_server.specs.Asked.{Line as said};
ghost use Rattle.cil_server.specs.Devices.{most_failures};
ghost use Rattle.cil_server.specs.Replies.{refused};
ghost use Rattle.cil_server.specs.Streams.{Tells, unread};
ghost use Rattle.cil_server.specs.Turns.{Announces, AnswersLine, Goes, IsTurnedAt, body_turn, turn_losses};
ghost use Rattle.cil_server.specs.Views.{line_of};
ghost use Rattle.cil_server.specs.declared.served.Served.{Served};
ghost use Rattle.cil_server.specs.declared.turn.Turn.{Turn};

use crate::devices::{Sink, Source};
use crate::line::Line;
use crate::replies::put_refused;
use crate::requests::{import, install, reply};
use crate::served::Served;
use crate::streams::{Body, Streams};
use cil_host::Host;
use std::alloc::Global;
use std::hash::BuildHasher;

/// Whether a session goes on.
#[derive(Clone, Copy)]
pub(crate) enum Turn {
    Next,
    Ended(Served),
}

impl<'r, 'w, R: Source, W: Sink> Streams<'r, 'w, R, W> {
    /// Answers a line, and reads the body that follows it.
    pub(crate) fn answer<S: BuildHasher + Drop>(
        &mut self,
        alloc: Global,
        host: &mut Host<S>,
        line: Line<'_>,
    ) -> Turn
        requires reader { self.old.input.failures < most_failures }
        requires writer { self.old.output.has_failed ≡ false }
        ensures answers { AnswersLine (line_of line.entry) (unread self.old.input) (unread self.new.input) host.old host.new
            (Tells self.old.output self.new.output) result }
        ensures goes { Goes self.old.input self.old.output self.new.input self.new.output (turn_losses result) }
        ensures at { IsTurnedAt result self.new.input self.new.output }
    {
        match line {
            Line::Plain(plain) => reply(alloc, host, &mut self.output, plain),
            Line::Install(count) => match self.body_behind(alloc, count) {
                Ok(text) => install(alloc, host, &mut self.output, text.as_slice()),
                Err(turn) => return turn,
            },
            Line::Import(count) => match self.body_behind(alloc, count) {
                Ok(bundle) => import(alloc, host, &mut self.output, bundle.as_slice()),
                Err(turn) => return turn,
            },
            Line::TooBig => return self.refuse(84),
            Line::Quit => {
                self.output.put(b"OK\n");
                return Turn::Ended(Served::Quit);
            }
        }
        Turn::Next
    }

    /// The bytes that follow a line; or what to do if the input ends, a stream fails or there is no memory for them.
    fn body_behind(&mut self, alloc: Global, count: usize) -> Result<Vec<u8>, Turn>
        requires reader { self.old.input.failures < most_failures }
        requires writer { self.old.output.has_failed ≡ false }
        ensures body { IfOk result (λ bytes. Consumes (unread self.old.input) (unread self.new.input) bytes.items × (length bytes.items ≡ count)) }
        ensures told { OnOk result (Tells self.old.output self.new.output []) }
        ensures sound { OnOk result (self.new.output.has_failed ≡ false) }
        ensures turn { IfErr result (λ turn. (line : said) (h : State) → Announces line count
            → AnswersLine line (unread self.old.input) (unread self.new.input) h h (Tells self.old.output self.new.output) turn) }
        ensures goes { Goes self.old.input self.old.output self.new.input self.new.output (turn_losses (body_turn result)) }
        ensures at { IsTurnedAt (body_turn result) self.new.input self.new.output }
    {
        match self.take_body(alloc, count) {
            Body::Whole(bytes) => Ok(bytes),
            Body::Dropped => {
                put_refused(&mut self.output, 0);
                Err(Turn::Next)
            }
            Body::Cut => Err(self.refuse(83)),
            Body::Failed(broken) => Err(Turn::Ended(broken.ending())),
        }
    }

    /// Ends the session by a fault.
    pub(crate) fn refuse(&mut self, code: u32) -> Turn
        ensures turn { result ≡ Turn.Ended (Served.Fault code) }
        ensures told { Tells self.old.output self.new.output (refused code) }
        ensures input { self.new.input ≡ self.old.input }
    {
        put_refused(&mut self.output, code);
        Turn::Ended(Served::Fault(code))
    }
}
