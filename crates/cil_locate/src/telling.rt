//! The faults of a policy, written in an order.

ghost use Rattle.std.specs.Prelude.{◌≡◌, ◌≤◌, List, [], length};
ghost use Rattle.std.specs.Option.{option_map};
ghost use Rattle.cil_server.specs.Streams.{Tells};
ghost use Rattle.cil_locate.specs.Files.{IsLast, SourceFile, file_at, text_at};
ghost use Rattle.cil_locate.specs.Lines.{place_in};
ghost use Rattle.cil_locate.specs.Located.{faults_told, told_lines};
ghost use Rattle.cil_locate.specs.Positions.{position_of};
ghost use Rattle.cil_locate.specs.Readings.{reading_told, readings_told};

use crate::file::File;
use crate::lines::{put_fault, put_policy, put_reading};
use crate::position::Position;
use crate::told::Told;
use cil_faults::Fault;
use cil_server::{Output, Sink};
use cil_sexpr::ReadFault;

/// The place that was told last, with its file, so that each text is gone through once for all its faults.
#[derive(Clone, Copy)]
pub(crate) struct Last {
    pub(crate) origin: usize,
    pub(crate) position: Position,
}

impl Last {
    /// Before all files.
    pub(crate) fn start() -> Last
        ensures { (files : List SourceFile) → IsLast files result }
    {
        Last {
            origin: 0,
            position: Position::start(),
        }
    }

    /// A place of a file.
    pub(crate) fn moved_to(self, files: &[File<'_>], origin: usize, text: &[u8], at: u64) -> Last
        requires last { IsLast files.now self }
        requires text { text.now ≡ text_at files.now origin }
        ensures origin { result.origin ≡ origin }
        ensures position { result.position ≡ position_of text.now (place_in text.now at) }
        ensures last { IsLast files.now result }
    {
        let at = (at as usize).min(text.len());
        let from = if self.origin == origin {
            self.position
        } else {
            Position::start()
        };
        Last {
            origin,
            position: from.moved_to(text, at),
        }
    }
}

/// Writes the faults in this order.
pub(crate) fn put_faults<W: Sink>(
    output: &mut Output<'_, W>,
    files: &[File<'_>],
    faults: &[Fault],
    order: &[Told],
)
    ensures { Tells output.old output.new (faults_told files.now faults.now order.now) }
{
    let mut last = Last::start();
    for told in order {
        last = put_told(output, files, faults, *told, last);
    }
}

/// Writes one fault.
fn put_told<W: Sink>(
    output: &mut Output<'_, W>,
    files: &[File<'_>],
    faults: &[Fault],
    told: Told,
    last: Last,
) -> Last
    requires { IsLast files.now last }
    ensures told { Tells output.old output.new (told_lines files.now faults.now told) }
    ensures last { IsLast files.now result }
{
    let Some(fault) = faults.get(told.number) else {
        return last;
    };
    let Some(file) = file_of(files, told.origin) else {
        put_policy(output, fault);
        return last;
    };
    let moved = last.moved_to(files, told.origin, file.text(), told.at);
    put_fault(output, file.name(), file.text(), moved.position, fault);
    moved
}

/// The file that something is told of; none for the policy.
pub(crate) fn file_of<'f, 'a>(files: &'f [File<'a>], origin: usize) -> Option<&'f File<'a>>
    ensures { option_map (λ f. f.now) result ≡ file_at files.now origin }
{
    if origin == 0 {
        return None;
    }
    files.get(origin - 1)
}

/// Writes why files cannot be read as texts.
pub(crate) fn put_readings<W: Sink>(
    output: &mut Output<'_, W>,
    files: &[File<'_>],
    faults: &[Option<ReadFault>],
)
    requires { length faults.now ≡ length files.now }
    ensures { Tells output.old output.new (readings_told files.now faults.now) }
{
    for number in 0..files.len() {
        put_file(output, &files[number], faults[number]);
    }
}

/// Writes why a file cannot be read as a text, where it cannot.
fn put_file<W: Sink>(output: &mut Output<'_, W>, file: &File<'_>, fault: Option<ReadFault>)
    ensures { Tells output.old output.new (reading_told file.now fault) }
{
    let Some(fault) = fault else {
        return;
    };
    let text = file.text();
    let at = (fault.at as usize).min(text.len());
    let position = Position::start().moved_to(text, at);
    put_reading(output, file.name(), text, position, fault);
}
