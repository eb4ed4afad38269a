//! Tables to their bytes.

ghost use Rattle.std.specs.Prelude.{◌≡◌, ◌++◌, ℕ, List, IfOk, OnOk};
ghost use Rattle.cil_label_bytes.specs.Layout.{labels};
ghost use Rattle.cil_table_bytes.specs.Layout as layout;
ghost use Rattle.cil_table_bytes.specs.Told.{names_in};

use crate::put::{put_flag, put_section};
use crate::put_links::put_linked;
use cil_base::NoMemory;
use cil_constraint_bytes::put_constraints;
use cil_format::Out;
use cil_label_bytes::put_labels;
use cil_rule_bytes::put_sections;
use cil_tables::Tables;
use std::alloc::Global;

/// The header: the bytes by which tables are known, the layout, and whether contexts have levels.
#[tactic(auto, unfolding(crate::specs::Layout::magic))]
fn put_header(out: &mut Vec<u8>, are_on: bool) -> Result<(), NoMemory>
    ensures { OnOk result (out.new.items ≡ out.old.items ++ layout.header.spell are_on) }
{
    out.extend_from_slice(b"CILT\x01")?;
    put_flag(out, are_on)
}

/// Sections 6 to 10.
#[tactic(auto, unfolding(crate::specs::Layout::names))]
fn put_names(out: &mut Vec<u8>, tables: &Tables) -> Result<(), NoMemory>
    ensures { OnOk result (out.new.items ≡ out.old.items ++ layout.names.spell (names_in tables.now)) }
{
    put_section(out, tables.roles())?;
    put_section(out, tables.types())?;
    put_section(out, tables.type_aliases())?;
    put_section(out, tables.classes())?;
    put_section(out, tables.booleans())
}

/// The header, levels and names: sections 1 to 10.
fn front_of(alloc: Global, tables: &Tables) -> Result<Vec<u8>, NoMemory>
    ensures { IfOk result (λ front. front.items ≡ layout.header.spell tables.now.levels.are_on
        ++ ((labels tables.now.levels.are_on).spell (record { levels = tables.now.levels; users = tables.now.users }) ++ layout.names.spell (names_in tables.now))) }
{
    let mut front = Vec::new(alloc);
    put_header(&mut front, tables.levels().are_on())?;
    put_labels(alloc, &mut front, tables.levels(), tables.users())?;
    put_names(&mut front, tables)?;
    Ok(front)
}

/// Puts the bytes of tables where bytes go: those of sections 1 to 10 at once, then those of each holder, rule and constraint. Errors: out of memory.
pub fn put_tables<O: Out>(alloc: Global, out: &mut O, tables: &Tables) -> Result<(), NoMemory>
    ensures { (before : List ℕ) → O.holds out.old before → OnOk result (O.holds out.new (before ++ layout.layout tables.now)) }
{
    out.put(&front_of(alloc, tables)?)?;
    put_linked(alloc, out, tables)?;
    put_sections(alloc, out, tables.rules())?;
    put_constraints(alloc, out, tables.constraints())
}

/// The bytes of tables. It costs a step for each byte, and 1,024 for each set of categories. Errors: out of memory.
pub fn encode(alloc: Global, tables: &Tables) -> Result<Vec<u8>, NoMemory>
    ensures { IfOk result (λ bytes. bytes.items ≡ layout.layout tables.now) }
{
    let mut out = Vec::new(alloc);
    put_tables(alloc, &mut out, tables)?;
    Ok(out)
}
