//! The booleans of a policy by name, and what they are at first.

ghost use Rattle.std.specs.Prelude.{◌<◌, ◌↔◌, ℕ, IfNone, IfSome};
ghost use Rattle.cil_tables.specs.conditions.Bits.{IsOn};
ghost use Rattle.cil_decide.specs.Decides.{IsBooleanAt, IsOnAtFirst};

use cil_tables::{Settings, Tables};

/// The number of the boolean of this name, below 4,096; none where no boolean has it. (CIL Reference Guide, "boolean".) It takes no
/// memory.
pub fn boolean_named(tables: &Tables, name: &[u8]) -> Option<u32>
    ensures within { IfSome result (λ number. number < 4096) }
    ensures found { IfSome result (λ number. IsBooleanAt tables.now number name.now) }
    ensures none { IfNone result ((number : ℕ) → IsBooleanAt tables.now number name.now → ⊥) }
{
    let place = tables
        .booleans()
        .binary_search_by(|boolean| boolean.name.as_slice().cmp(name));
    match place {
        Ok(number) => Some(number as u32),
        Err(_) => None,
    }
}

/// The settings of a policy at first: each boolean has its default, and no other is on. (The SELinux Notebook, "Booleans".) It takes no
/// memory, and costs a step for each boolean.
pub fn defaults(tables: &Tables) -> Settings
    ensures { (number : ℕ) → IsOn result number ↔ IsOnAtFirst tables.now.booleans number }
{
    let booleans = tables.booleans();
    let mut settings = Settings::all_off();
    for place in 0..booleans.len() {
        settings.set(place as u32, booleans[place].default);
    }
    settings
}
