//! Faults as lines of text.

ghost use Rattle.std.specs.Prelude.{◌≡◌, ◌++◌, IfOk, OnOk};
ghost use Rattle.cil_faults.specs.Printed.{printed, printed_fault};

use crate::fault::Fault;
use crate::fault_list::FaultList;
use cil_base::NoMemory;
use std::alloc::Global;

/// The lines of the faults, in order: each has code, module, place, namespace and word, one space between.
/// Numbers are decimal; the global namespace is `.`, and `-` is in the place of a word that is not named. Errors: out of memory.
pub fn render(alloc: Global, list: &FaultList) -> Result<Vec<u8>, NoMemory>
    ensures { IfOk result (λ text. text.items ≡ printed list.now) }
{
    let mut text = Vec::new(alloc);
    for fault in list.as_slice() {
        push_line(&mut text, alloc, fault)?;
    }
    Ok(text)
}

/// Puts the line of a fault at the end.
fn push_line(text: &mut Vec<u8>, alloc: Global, fault: &Fault) -> Result<(), NoMemory>
    ensures { OnOk result (text.new.items ≡ text.old.items ++ printed_fault fault.now) }
{
    let (code, module, at) = (fault.code.number(), fault.module, fault.at);
    let space = match fault.space.as_slice() {
        [] => b".".as_slice(),
        names => names,
    };
    let word = match fault.word.as_slice() {
        [] => b"-".as_slice(),
        word => word,
    };
    let numbers = format!(in alloc; "{code} {module} {at} ")?;
    text.extend_from_slice(numbers.as_bytes())?;
    text.extend_from_slice(space)?;
    text.push(b' ')?;
    text.extend_from_slice(word)?;
    text.push(b'\n')?;
    Ok(())
}
