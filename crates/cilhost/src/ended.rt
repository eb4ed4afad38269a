//! How a command ends that writes one reply.

ghost use Rattle.std.specs.Prelude.{◌≡◌};
ghost use Rattle.cilhost.specs.Ends.{end_status};

use crate::error::{Error, STREAMS};
use crate::status::Status;
use cil_commands::End;
use std::io::Write;

/// The status after a command with this end, and its line where it has one.
pub(crate) fn finish<E: Write>(end: End, messages: &mut E) -> Status
    ensures { result ≡ end_status end }
{
    match end {
        End::Done => Status::Done,
        End::Refused => Status::Refused,
        End::NoMemory => Error::NoMemory.report(messages),
        End::WriteFailed => Error::Failed(STREAMS).report(messages),
    }
}
