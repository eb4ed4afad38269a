//! Writes bundles.

ghost use Rattle.std.specs.Prelude.{◌≡◌, ◌++◌, IfOk, OnOk};
ghost use Rattle.cil_modset.specs.Bundle.{bundle, entry};

use crate::texts::Texts;
use std::alloc::{AllocError, Global};

/// The bundle of some texts.
pub(crate) fn write(alloc: Global, texts: &Texts) -> Result<Vec<u8>, AllocError>
    ensures { IfOk result (λ bytes. bytes.items ≡ bundle texts.now) }
{
    let mut bytes = Vec::from_slice(alloc, b"CILB\x01")?;
    bytes.extend_from_slice(&(texts.len() as u64).to_be_bytes())?;
    for i in 0..texts.len() {
        write_entry(&mut bytes, texts.get(i))?;
    }
    Ok(bytes)
}

/// Writes one module after what is written already.
fn write_entry(bytes: &mut Vec<u8>, text: &[u8]) -> Result<(), AllocError>
    ensures { OnOk result (bytes.new.items ≡ bytes.old.items ++ entry text.now) }
{
    bytes.extend_from_slice(&(text.len() as u64).to_be_bytes())?;
    bytes.extend_from_slice(text)?;
    Ok(())
}
