//! Which optionals are left out, and why.

ghost use Rattle.std.specs.Prelude.{◌≡◌, IfOk, map};
ghost use Rattle.cil_server.specs.Streams.{Tells};
ghost use Rattle.cil_locate.specs.Files.{IsLast};
ghost use Rattle.cil_locate.specs.Located.{key_of_note, note_at, notes_told};
ghost use Rattle.cil_locate.specs.Order.{AreInOrder};

use crate::faults::{origin_of, push_told};
use crate::file::File;
use crate::lines::{put_note, put_place};
use crate::telling::{Last, file_of};
use crate::told::{Told, in_order};
use cil_base::NoMemory;
use cil_server::{Output, Sink, WhyLine};
use std::alloc::Global;

/// The optionals that are left out, in the order of the files and of their places. Errors: out of memory.
pub(crate) fn order_of_notes(
    alloc: Global,
    origins: &[usize],
    lines: &[WhyLine],
) -> Result<Vec<Told>, NoMemory>
    ensures { IfOk result (λ told. AreInOrder (map (key_of_note origins.now) lines.now) told.items) }
{
    let mut told = Vec::with_capacity(alloc, lines.len())?;
    for line in lines {
        push_told(&mut told, origin_of(origins, line.module), line.at)?;
    }
    Ok(in_order(told))
}

/// Writes a line for each, in this order.
pub(crate) fn put_notes<W: Sink>(
    output: &mut Output<'_, W>,
    files: &[File<'_>],
    lines: &[WhyLine],
    order: &[Told],
)
    ensures { Tells output.old output.new (notes_told files.now lines.now order.now) }
{
    let mut last = Last::start();
    for told in order {
        last = put_one(output, files, lines, *told, last);
    }
}

/// Writes one line.
fn put_one<W: Sink>(
    output: &mut Output<'_, W>,
    files: &[File<'_>],
    lines: &[WhyLine],
    told: Told,
    last: Last,
) -> Last
    requires { IsLast files.now last }
    ensures told { Tells output.old output.new (note_at files.now lines.now told) }
    ensures last { IsLast files.now result }
{
    let Some(line) = lines.get(told.number) else {
        return last;
    };
    let Some(file) = file_of(files, told.origin) else {
        return last;
    };
    let moved = last.moved_to(files, told.origin, file.text(), told.at);
    put_place(output, file.name(), moved.position);
    put_note(
        output,
        line.label.as_slice(),
        line.missing.as_ref(),
        line.space.as_slice(),
    );
    moved
}
