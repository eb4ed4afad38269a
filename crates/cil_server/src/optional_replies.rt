//! The replies on optionals: which are in force, and why others are not.

ghost use Rattle.std.specs.Prelude.{◌≡◌, ◌∷◌};
ghost use Rattle.cil_faults.specs.Printed.{printed_space};
ghost use Rattle.cil_server.specs.Replies.{of_optional, of_optional_line, of_optionals, of_reason, of_standing, of_why, of_why_line};
ghost use Rattle.cil_server.specs.Streams.{Tells};

use crate::devices::Sink;
use crate::output::Output;
use crate::replies::{put_decimal, put_number, put_ok_number};
use cil_base::Bytes;
use cil_host::{OptionalLine, WhyLine};

pub(crate) fn put_optionals<W: Sink>(output: &mut Output<'_, W>, lines: &[OptionalLine])
    ensures { Tells output.old output.new (of_optionals lines.now) }
{
    put_ok_number(output, lines.len() as u64);
    for line in lines {
        put_optional_line(output, line);
    }
}

fn put_optional_line<W: Sink>(output: &mut Output<'_, W>, line: &OptionalLine)
    ensures { Tells output.old output.new (of_optional_line line.now) }
{
    put_optional(output, line.module, line.at, &line.space, &line.label);
    put_standing(output, line.enabled);
}

/// Whether an optional is in force.
fn put_standing<W: Sink>(output: &mut Output<'_, W>, enabled: bool)
    ensures { Tells output.old output.new (of_standing enabled) }
{
    if enabled {
        output.put(b" in\n");
    } else {
        output.put(b" out\n");
    }
}

pub(crate) fn put_why<W: Sink>(output: &mut Output<'_, W>, lines: &[WhyLine])
    ensures { Tells output.old output.new (of_why lines.now) }
{
    put_ok_number(output, lines.len() as u64);
    for line in lines {
        put_why_line(output, line);
    }
}

fn put_why_line<W: Sink>(output: &mut Output<'_, W>, line: &WhyLine)
    ensures { Tells output.old output.new (of_why_line line.now) }
{
    put_optional(output, line.module, line.at, &line.space, &line.label);
    put_reason(output, &line.missing);
}

/// Why an optional is left out.
fn put_reason<W: Sink>(output: &mut Output<'_, W>, missing: &Option<Bytes>)
    ensures { Tells output.old output.new (of_reason missing.now) }
{
    match missing {
        None => output.put(b" parent\n"),
        Some(word) => {
            output.put(b" missing");
            put_word(output, word.as_slice());
            output.put(b"\n");
        }
    }
}

/// An optional, by the number of its module, its place there, its namespace and its label.
fn put_optional<W: Sink>(
    output: &mut Output<'_, W>,
    number: u64,
    at: u64,
    space: &Bytes,
    label: &Bytes,
)
    ensures { Tells output.old output.new (of_optional number at space.now label.now) }
{
    put_decimal(output, number);
    put_number(output, at);
    put_word(output, printed_space(space.as_slice()));
    put_word(output, label.as_slice());
}

/// A word behind a space.
fn put_word<W: Sink>(output: &mut Output<'_, W>, word: &[u8])
    ensures { Tells output.old output.new (32 ∷ word.now) }
{
    output.put(b" ");
    output.put(word);
}

/// A namespace as it is printed: a dot for the global one.
fn printed_space(space: &[u8]) -> &[u8]
    ensures { result.now ≡ printed_space space.now }
{
    match space {
        [] => b".".as_slice(),
        names => names,
    }
}
