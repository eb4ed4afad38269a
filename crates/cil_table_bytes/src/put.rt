//! The bytes of sections 6 to 10, put behind those that are there.

ghost use Rattle.std.specs.Prelude.{◌≡◌, ◌++◌, ℕ, List, [], OnOk, length};
ghost use Rattle.std.specs.Int.{w32, to_be_bytes};
ghost use Rattle.std.specs.List.{flat_map};
ghost use Rattle.cil_label_bytes.specs.Names.{name, permission};
ghost use Rattle.cil_table_bytes.specs.Names as names;

use cil_base::{Bytes, NoMemory};
use cil_format::{put_byte, put_count, put_small, put_text};
use cil_tables::{Alias, Boolean, Class};

/// A record that is put behind others.
pub trait Put: Drop {
    /// Its bytes.
    ghost spell: { Self → List ℕ };

    /// Puts its bytes behind those that are there. Errors: out of memory.
    fn put(&self, out: &mut Vec<u8>) -> Result<(), NoMemory>
        ensures { OnOk result (out.new.items ≡ out.old.items ++ spell self.now) };
}

/// Records, one behind the other.
fn put_all<R: Put>(out: &mut Vec<u8>, records: &[R]) -> Result<(), NoMemory>
    ensures { OnOk result (out.new.items ≡ out.old.items ++ flat_map R.spell records.now) }
{
    for record in records {
        record.put(out)?;
    }
    Ok(())
}

/// A section: how many records there are, and these. Errors: out of memory.
pub fn put_section<R: Put>(out: &mut Vec<u8>, records: &[R]) -> Result<(), NoMemory>
    ensures { OnOk result (out.new.items ≡ out.old.items ++ (to_be_bytes w32 (length records.now) ++ flat_map R.spell records.now)) }
{
    put_count(out, records.len())?;
    put_all(out, records)
}

impl Put for Bytes {
    ghost spell = { name.spell };

    fn put(&self, out: &mut Vec<u8>) -> Result<(), NoMemory> {
        put_text(out, self.as_slice())
    }
}

impl Put for Alias {
    ghost spell = { (names.alias []).spell };

    fn put(&self, out: &mut Vec<u8>) -> Result<(), NoMemory> {
        put_text(out, self.name.as_slice())?;
        put_small(out, self.target)
    }
}

impl Put for Class {
    ghost spell = { names.class_row.spell };

    fn put(&self, out: &mut Vec<u8>) -> Result<(), NoMemory> {
        put_text(out, self.name.as_slice())?;
        let permissions = self.permissions.as_slice();
        put_byte(out, permissions.len())?;
        put_all(out, permissions)
    }
}

/// A byte that says yes or no. Errors: out of memory.
pub fn put_flag(out: &mut Vec<u8>, on: bool) -> Result<(), NoMemory>
    ensures { OnOk result (out.new.items ≡ out.old.items ++ names.flag.spell on) }
{
    out.push(if on { 1 } else { 0 })?;
    Ok(())
}

impl Put for Boolean {
    ghost spell = { names.boolean.spell };

    fn put(&self, out: &mut Vec<u8>) -> Result<(), NoMemory> {
        put_text(out, self.name.as_slice())?;
        put_flag(out, self.default)
    }
}
