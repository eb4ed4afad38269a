//! Names and permissions at the front of bytes.

ghost use Rattle.std.specs.Prelude.{◌≡◌};
ghost use Rattle.std.specs.List.{list_all};
ghost use Rattle.cil_syntax.specs.Spelling as spelling;
ghost use Rattle.cil_format.specs.Takes.{Takes};
ghost use Rattle.cil_label_bytes.specs.Names as names;

use cil_base::Bytes;
use cil_format::{TableError, TableFault, text_at};
use cil_syntax::is_reserved;
use std::alloc::Global;

/// How many bytes a declared name may have.
const LONGEST_NAME: usize = 1024;

/// A qualified name, and the bytes behind it. Errors: the first fault; a text that is no such name is `OutOfRange`, at its end.
pub fn name_at(bytes: &[u8]) -> Result<(&[u8], &[u8]), TableError>
    ensures { Takes (λ x. (x.0.now, x.1.now)) result (names.name.read bytes.now) }
{
    let (text, rest) = text_at(bytes)?;
    if is_qualified(text) {
        return Ok((text, rest));
    }
    Err(TableError::Fault(TableFault::OutOfRange))
}

/// A copy of a qualified name, and the bytes behind it. Errors: the first fault, or out of memory.
pub fn owned_name_at(alloc: Global, bytes: &[u8]) -> Result<(Bytes, &[u8]), TableError>
    ensures { Takes (λ x. (x.0, x.1.now)) result (names.name.read bytes.now) }
{
    let (name, rest) = name_at(bytes)?;
    Ok((Bytes::copy_of(alloc, name)?, rest))
}

/// A permission, and the bytes behind it. Errors: the first fault; a text that is no permission is `OutOfRange`, at its end.
pub fn permission_at(bytes: &[u8]) -> Result<(&[u8], &[u8]), TableError>
    ensures { Takes (λ x. (x.0.now, x.1.now)) result (names.permission.read bytes.now) }
{
    let (text, rest) = text_at(bytes)?;
    if is_part(text) {
        return Ok((text, rest));
    }
    Err(TableError::Fault(TableFault::OutOfRange))
}

/// Whether each part of a word between dots is a declared name that is not reserved.
fn is_qualified(word: &[u8]) -> bool
    ensures { result ≡ names.is_qualified word.now }
{
    word.split(|b| *b == b'.').all(|part| is_part(part))
}

/// Whether a word is a declared name that is not reserved.
fn is_part(word: &[u8]) -> bool
    ensures { result ≡ names.is_part word.now }
{
    is_declared(word) && !is_reserved(word)
}

/// Whether a word is spelled as a declared name.
fn is_declared(word: &[u8]) -> bool
    ensures { result ≡ spelling.is_name word.now }
{
    match word {
        [] => false,
        [first, rest @ ..] => begins_name(*first) && all_go_on(rest) && word.len() <= LONGEST_NAME,
    }
}

fn all_go_on(bytes: &[u8]) -> bool
    ensures { result ≡ list_all spelling.goes_on_name bytes.now }
{
    bytes.iter().all(|b| goes_on_name(*b))
}

fn goes_on_name(byte: u8) -> bool
    ensures { result ≡ spelling.goes_on_name byte }
{
    begins_name(byte) || matches!(byte, b'0'..=b'9' | b'-')
}

fn begins_name(byte: u8) -> bool
    ensures { result ≡ spelling.begins_name byte }
{
    matches!(byte, b'a'..=b'z' | b'A'..=b'Z' | b'_')
}
