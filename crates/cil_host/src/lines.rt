//! Copies of the lines that a host keeps.

ghost use Rattle.std.specs.Prelude.{◌≡◌, IfOk};

use cil_base::{Bytes, NoMemory};
use cil_table_bytes::{OptionalLine, WhyLine};
use std::alloc::Global;

/// A copy of the lines of optionals. Error: out of memory.
pub(crate) fn copied_optionals(
    alloc: Global,
    lines: &[OptionalLine],
) -> Result<Vec<OptionalLine>, NoMemory>
    ensures { IfOk result (λ copy. copy.items ≡ lines.now) }
{
    let mut copy = Vec::with_capacity(alloc, lines.len())?;
    for number in 0..lines.len() {
        copy.push(copied_optional(alloc, &lines[number])?)?;
    }
    Ok(copy)
}

/// A copy of the lines of reasons. Error: out of memory.
pub(crate) fn copied_reasons(alloc: Global, lines: &[WhyLine]) -> Result<Vec<WhyLine>, NoMemory>
    ensures { IfOk result (λ copy. copy.items ≡ lines.now) }
{
    let mut copy = Vec::with_capacity(alloc, lines.len())?;
    for number in 0..lines.len() {
        copy.push(copied_reason(alloc, &lines[number])?)?;
    }
    Ok(copy)
}

fn copied_optional(alloc: Global, line: &OptionalLine) -> Result<OptionalLine, NoMemory>
    ensures { IfOk result (λ copy. copy ≡ line.now) }
{
    let space = Bytes::copy_of(alloc, line.space.as_slice())?;
    let label = Bytes::copy_of(alloc, line.label.as_slice())?;
    Ok(OptionalLine {
        module: line.module,
        at: line.at,
        space,
        label,
        enabled: line.enabled,
    })
}

fn copied_reason(alloc: Global, line: &WhyLine) -> Result<WhyLine, NoMemory>
    ensures { IfOk result (λ copy. copy ≡ line.now) }
{
    let space = Bytes::copy_of(alloc, line.space.as_slice())?;
    let label = Bytes::copy_of(alloc, line.label.as_slice())?;
    let missing = copied_word(alloc, &line.missing)?;
    Ok(WhyLine {
        module: line.module,
        at: line.at,
        space,
        label,
        missing,
    })
}

fn copied_word(alloc: Global, word: &Option<Bytes>) -> Result<Option<Bytes>, NoMemory>
    ensures { IfOk result (λ copy. copy ≡ word.now) }
{
    match word {
        None => Ok(None),
        Some(bytes) => Ok(Some(Bytes::copy_of(alloc, bytes.as_slice())?)),
    }
}
