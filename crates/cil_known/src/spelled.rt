//! Qualified names: the names of a namespace from the outermost on, and the name of a symbol, joined by dots.

ghost use Rattle.std.specs.Prelude.{◌≡◌, ◌≤◌, ◌∷◌, ◌++◌, IfOk, length};
ghost use Rattle.cil_faults.specs.Namespaces.{qualified};
ghost use Rattle.cil_names.specs.blocks.Namespaces.{space_at};

use cil_base::NoMemory;
use cil_names::Namespaces;
use cil_names::blocks_spelled::spelled as spelled_space;
use cil_syntax::Bytes;
use std::alloc::Global;

/// The qualified name of a symbol in the namespace of this number.
pub fn spelled(
    alloc: Global,
    namespaces: &Namespaces,
    space: usize,
    name: &[u8],
) -> Result<Bytes, NoMemory>
    requires { space ≤ length namespaces.now }
    ensures { IfOk result (λ bytes. bytes ≡ qualified (name.now ∷ space_at namespaces.now space)) }
{
    if space == 0 {
        return Bytes::copy_of(alloc, name);
    }
    namespaces.are_namespaces();
    let around = spelled_space(alloc, namespaces, space)?;
    joined(alloc, around.as_slice(), name)
}

/// Two names, joined by a dot.
fn joined(alloc: Global, around: &[u8], name: &[u8]) -> Result<Bytes, NoMemory>
    ensures { IfOk result (λ bytes. bytes ≡ around.now ++ 46 ∷ name.now) }
{
    let mut bytes = Vec::from_slice(alloc, around)?;
    bytes.push(b'.')?;
    bytes.extend_from_slice(name)?;
    Ok(Bytes::from_vec(bytes))
}
