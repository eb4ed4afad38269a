//! What is told of a neverallow statement and an allow statement.

ghost use Rattle.std.specs.Prelude.{◌≡◌, ◌++◌, ◌∷◌, ◌<◌, [], IfOk, OnOk, get_or, length, slice_get};
ghost use Rattle.cil_faults.specs.declared.code.FaultCode.TheVariants as causes;
ghost use Rattle.cil_faults.specs.Reported.{fault_at};
ghost use Rattle.cil_macros.specs.Items.{item_at, items_in};
ghost use Rattle.cil_neverallow.specs.Violations.{name_of_row, permission_of_row, told_by};

use crate::forbidden::View;
use crate::overlap::Overlap;
use cil_base::{Bytes, NoMemory};
use cil_faults::{Fault, FaultCode, Spot, push_fault_in};
use cil_index::Class;
use cil_macros::Instances;
use cil_macros::blocks_spelled::spelled;
use std::alloc::Global;

/// Reports the neverallow statement at a place and the allow statement at another, which cover this together.
pub fn push_told(
    alloc: Global,
    instances: &Instances,
    faults: &mut Vec<Fault>,
    view: &View,
    place: usize,
    other: usize,
    overlap: &Overlap,
) -> Result<(), NoMemory>
    requires place { place < length (items_in instances.now) }
    requires other { other < length (items_in instances.now) }
    ensures { OnOk result (faults.new.items ≡ faults.old.items ++ fault_at causes.NeverAllow (item_at instances.now place).at (item_at instances.now place).space
        (told_by view.now (item_at instances.now other).at overlap.now) ∷ []) }
{
    let allowed_at = instances.statement_there(other).at;
    let word = word_of(alloc, view, allowed_at, overlap)?;
    let space = spelled(alloc, instances.namespaces(), instances.space(place))?;
    let at = instances.statement_there(place).at;
    push_fault_in(
        alloc,
        faults,
        FaultCode::NeverAllow,
        at,
        space,
        word.as_slice(),
    )?;
    Ok(())
}

/// The word of a fault: module and place of the allow statement, then the names of the overlap. Error: out of memory.
fn word_of(alloc: Global, view: &View, at: Spot, o: &Overlap) -> Result<Vec<u8>, NoMemory>
    ensures { IfOk result (λ word. word.items ≡ told_by view.now at o.now) }
{
    let (module, place) = (at.module, at.at);
    let front = format!(in alloc; "{module}:{place}")?;
    let mut word = Vec::new(alloc);
    word.extend_from_slice(front.as_bytes())?;
    push_part(&mut word, name_at(view.types, o.source))?;
    push_part(&mut word, name_at(view.types, o.target))?;
    push_part(&mut word, class_name(view.classes, o.class))?;
    push_part(&mut word, permission_name(view.classes, o.class, o.bit))?;
    Ok(word)
}

/// A colon, and a name.
fn push_part(word: &mut Vec<u8>, name: &[u8]) -> Result<(), NoMemory>
    ensures { OnOk result (word.new.items ≡ word.old.items ++ (58 ∷ name.now)) }
{
    word.push(b':')?;
    word.extend_from_slice(name)?;
    Ok(())
}

/// The name of a number; empty where there is none.
fn name_at(names: &[Bytes], number: usize) -> &[u8]
    ensures { result.now ≡ get_or names.now number [] }
{
    match names.get(number) {
        Some(name) => name.as_slice(),
        None => &[],
    }
}

/// The name of a class.
fn class_name(classes: &[Class], class: u32) -> &[u8]
    ensures { result.now ≡ name_of_row (slice_get classes.now class) }
{
    match classes.get(class as usize) {
        Some(row) => row.name.as_slice(),
        None => &[],
    }
}

/// The name of a permission of a class.
fn permission_name(classes: &[Class], class: u32, bit: u32) -> &[u8]
    ensures { result.now ≡ permission_of_row (slice_get classes.now class) bit }
{
    match classes.get(class as usize) {
        Some(row) => name_at(row.permissions.as_slice(), bit as usize),
        None => &[],
    }
}
