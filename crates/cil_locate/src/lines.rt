//! What is written of a fault, piece by piece, so that none of it needs memory.

ghost use Rattle.std.specs.Prelude.{◌≡◌, ◌≤◌, ◌+◌, ◌++◌, ℕ, List, Option, length, map, replicate, suc, decimal, codes};
ghost use Rattle.std.specs.Option.{option_map};
ghost use Rattle.cil_sexpr.specs.Text.{longest_text};
ghost use Rattle.cil_server.specs.Streams.{Tells};
ghost use Rattle.cil_locate.specs.Lines.{bar, behind_colon, blank, cause_text, fault_lines, fault_text, mark, missing_text, newline, note_text, padded, place_text, policy_line, reading_lines, source_line, source_lines, space_text, visible, word_text};
ghost use Rattle.cil_locate.specs.Positions.{IsSmall, position_of};

use crate::position::Position;
use crate::sentences::{sentence, sentence_of_reading};
use crate::window::{Window, window_of};
use cil_base::Bytes;
use cil_faults::Fault;
use cil_server::{Output, Sink};
use cil_sexpr::ReadFault;
use itoa::Buffer;

/// In how many places the number of a line is printed, at the right.
const PLACES: usize = 5;

/// A fault of a file, and its line.
pub(crate) fn put_fault<W: Sink>(
    output: &mut Output<'_, W>,
    name: &str,
    text: &[u8],
    position: Position,
    fault: &Fault,
)
    requires here { position ≡ position_of text.now position.at }
    requires within { position.at ≤ length text.now }
    requires short { length text.now ≤ suc longest_text }
    ensures { Tells output.old output.new (fault_lines name.now text.now position fault.now) }
{
    put_place(output, name, position);
    put_fault_text(output, fault);
    put_source(output, text, position);
}

/// A fault of the whole policy.
pub(crate) fn put_policy<W: Sink>(output: &mut Output<'_, W>, fault: &Fault)
    ensures { Tells output.old output.new (policy_line fault.now) }
{
    output.put(b"policy: ");
    put_fault_text(output, fault);
}

/// Why a file cannot be read as a text, and the line.
pub(crate) fn put_reading<W: Sink>(
    output: &mut Output<'_, W>,
    name: &str,
    text: &[u8],
    position: Position,
    fault: ReadFault,
)
    requires here { position ≡ position_of text.now position.at }
    requires within { position.at ≤ length text.now }
    requires short { length text.now ≤ suc longest_text }
    ensures { Tells output.old output.new (reading_lines name.now text.now position fault) }
{
    put_place(output, name, position);
    put_cause(output, fault.code.number(), sentence_of_reading(fault.code));
    output.put(b"\n");
    put_source(output, text, position);
}

/// An optional that is left out, behind its place: its label, why, and its namespace.
pub(crate) fn put_note<W: Sink>(
    output: &mut Output<'_, W>,
    label: &[u8],
    missing: Option<&Bytes>,
    space: &[u8],
)
    ensures { Tells output.old output.new (note_text label.now (option_map (λ w. w.now) missing.entry) space.now) }
{
    output.put(b"note: optional ");
    output.put(label);
    output.put(b" is left out: ");
    put_missing(output, missing);
    put_space(output, space);
    output.put(b"\n");
}

/// Why an optional is left out.
fn put_missing<W: Sink>(output: &mut Output<'_, W>, missing: Option<&Bytes>)
    ensures { Tells output.old output.new (missing_text (option_map (λ w. w.now) missing.entry)) }
{
    match missing {
        None => output.put(b"the optional round it is left out"),
        Some(word) => {
            output.put(b"nothing in force declares ");
            put_visible(output, word.as_slice());
        }
    }
}

/// Where something is: `FILE:LINE:COLUMN: `.
pub(crate) fn put_place<W: Sink>(output: &mut Output<'_, W>, name: &str, position: Position)
    requires { IsSmall position }
    ensures { Tells output.old output.new (place_text name.now position) }
{
    output.put(name.as_bytes());
    put_behind_colon(output, position.newlines as u64 + 1);
    put_behind_colon(output, (position.at - position.begin) as u64 + 1);
    output.put(b": ");
}

/// A fault without its place.
fn put_fault_text<W: Sink>(output: &mut Output<'_, W>, fault: &Fault)
    ensures { Tells output.old output.new (fault_text fault.now) }
{
    put_cause(output, fault.code.number(), sentence(fault.code));
    put_word(output, fault.word.as_slice());
    put_space(output, fault.space.as_slice());
    output.put(b"\n");
}

/// What is wrong: `CODE: SENTENCE`.
fn put_cause<W: Sink>(output: &mut Output<'_, W>, code: u32, sentence: &str)
    ensures { Tells output.old output.new (cause_text code sentence.now) }
{
    put_decimal(output, code as u64);
    output.put(b": ");
    output.put(sentence.as_bytes());
}

/// The word at fault, where there is one: `: WORD`.
fn put_word<W: Sink>(output: &mut Output<'_, W>, word: &[u8])
    ensures { Tells output.old output.new (word_text word.now) }
{
    if word.is_empty() {
        return;
    }
    output.put(b": ");
    put_visible(output, word);
}

/// The namespace, where it is not the global one: ` (in SPACE)`.
fn put_space<W: Sink>(output: &mut Output<'_, W>, space: &[u8])
    ensures { Tells output.old output.new (space_text space.now) }
{
    if space.is_empty() {
        return;
    }
    output.put(b" (in ");
    output.put(space);
    output.put(b")");
}

/// The line of a place, and a line with a mark below it.
fn put_source<W: Sink>(output: &mut Output<'_, W>, text: &[u8], position: Position)
    requires here { position ≡ position_of text.now position.at }
    requires within { position.at ≤ length text.now }
    requires small { IsSmall position }
    ensures { Tells output.old output.new (source_lines text.now position) }
{
    let window = window_of(text, position);
    put_source_line(output, text, position, window);
    put_gutter(output, position.newlines as u64 + 1);
    put_mark(output, window);
}

/// The shown part of a line, behind the number of the line.
fn put_source_line<W: Sink>(
    output: &mut Output<'_, W>,
    text: &[u8],
    position: Position,
    window: Window,
)
    requires small { IsSmall position }
    requires before { window.before ≤ position.at }
    requires behind { position.at + window.behind ≤ length text.now }
    ensures { Tells output.old output.new (source_line text.now position window) }
{
    put_padded(output, position.newlines as u64 + 1);
    output.put(b" | ");
    put_visible(
        output,
        &text[position.at - window.before..position.at + window.behind],
    );
    output.put(b"\n");
}

/// What is below the number of a line.
fn put_gutter<W: Sink>(output: &mut Output<'_, W>, number: u64)
    ensures { Tells output.old output.new (blank number ++ bar) }
{
    let mut buffer = Buffer::new();
    let digits = buffer.format(number).len();
    put_repeated(output, b' ', PLACES.saturating_sub(digits) + digits);
    output.put(b" | ");
}

/// The mark below a word.
fn put_mark<W: Sink>(output: &mut Output<'_, W>, window: Window)
    ensures { Tells output.old output.new (mark window) }
{
    put_repeated(output, b' ', window.before);
    output.put(b"^");
    put_repeated(output, b'~', window.marked.saturating_sub(1));
    output.put(b"\n");
}

/// A number, at the right of five places.
fn put_padded<W: Sink>(output: &mut Output<'_, W>, number: u64)
    ensures { Tells output.old output.new (padded number) }
{
    let mut buffer = Buffer::new();
    let digits = buffer.format(number).as_bytes();
    put_repeated(output, b' ', PLACES.saturating_sub(digits.len()));
    output.put(digits);
}

fn put_behind_colon<W: Sink>(output: &mut Output<'_, W>, number: u64)
    ensures { Tells output.old output.new (behind_colon number) }
{
    output.put(b":");
    put_decimal(output, number);
}

fn put_decimal<W: Sink>(output: &mut Output<'_, W>, number: u64)
    ensures { Tells output.old output.new (decimal number) }
{
    let mut buffer = Buffer::new();
    output.put(buffer.format(number).as_bytes());
}

/// A byte, so many times.
fn put_repeated<W: Sink>(output: &mut Output<'_, W>, byte: u8, count: usize)
    ensures { Tells output.old output.new (replicate count byte) }
{
    for _turn in 0..count {
        output.put(&[byte]);
    }
}

/// Some bytes as they are shown.
fn put_visible<W: Sink>(output: &mut Output<'_, W>, bytes: &[u8])
    ensures { Tells output.old output.new (map visible bytes.now) }
{
    for byte in bytes {
        output.put(&[visible_byte(*byte)]);
    }
}

fn visible_byte(byte: u8) -> u8
    ensures { result ≡ visible byte }
{
    if byte >= 0x20 && byte <= 0x7E {
        byte
    } else {
        b' '
    }
}
