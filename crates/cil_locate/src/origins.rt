//! Which file a module is told of.

ghost use Rattle.std.specs.Prelude.{◌≡◌, ◌<◌, ℕ, IfNone, IfOk, IfSome, length};
ghost use Rattle.cil_modset.specs.Modules.{module_of};
ghost use Rattle.cil_locate.specs.Files.{AreOrigins};

use crate::file::File;
use cil_base::NoMemory;
use cil_modset::ModuleSet;
use std::alloc::Global;
use std::cmp::Ordering;

/// For each module one more than the number of the first file that has its text; 0 where none has. The text of each file is
/// sought by halving. Errors: out of memory.
pub(crate) fn origins_of(
    alloc: Global,
    files: &[File<'_>],
    modules: &ModuleSet,
) -> Result<Vec<usize>, NoMemory>
    ensures { IfOk result (λ origins. AreOrigins files.now modules.now origins.items) }
{
    let mut origins = vec![in alloc; 0; modules.len()]?;
    let mut left = files.len();
    while left > 0 {
        left -= 1;
        if let Some(number) = number_of(modules, files[left].text()) {
            origins[number] = left + 1;
        }
    }
    Ok(origins)
}

/// The number of a module by its text.
fn number_of(modules: &ModuleSet, text: &[u8]) -> Option<usize>
    ensures within { IfSome result (λ n. n < length modules.now) }
    ensures found { IfSome result (λ n. module_of modules.now n ≡ text.now) }
    ensures none { IfNone result ((n : ℕ) → n < length modules.now → module_of modules.now n ≡ text.now → ⊥) }
{
    let (mut low, mut high) = (0, modules.len());
    while low < high {
        let middle = low + (high - low) / 2;
        match modules.get(middle).cmp(text) {
            Ordering::Less => low = middle + 1,
            Ordering::Equal => return Some(middle),
            Ordering::Greater => high = middle,
        }
    }
    None
}
