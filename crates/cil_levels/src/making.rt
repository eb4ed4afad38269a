//! Sets of categories, made in an order in which each is made before it is named.

ghost use Rattle.std.specs.Prelude.{◌≡◌, ℕ, ◌<◌, ◌≤◌, All, Contains, IfOk, List, OnOk, length, map};
ghost use Rattle.cil_syntax.specs.declared.kind.Kind.TheVariants as kinds;
ghost use Rattle.cil_syntax.specs.Table.{entry_of};
ghost use Rattle.cil_macros.specs.Items.{item_at, items_in};
ghost use Rattle.cil_names.specs.Rows.{IsTableOf};
ghost use Rattle.cil_known.specs.Known.{row_in};
ghost use Rattle.cil_mls.specs.Values.{IsFew};
ghost use Rattle.cil_levels.specs.declared.definitions.Definition.{Definition as ADefinition};
ghost use Rattle.cil_levels.specs.Made.{AreInOrder, AreMade, CanBeMade, IsGained, IsGivenMore, IsSetIn};

use crate::definitions::Definition;
use crate::expressions::second_value;
use cil_base::NoMemory;
use cil_known::Known;
use cil_macros::Instances;
use cil_mls::{Categories, Evaluator, Held};

/// What each name holds where each set has got what these declarations say, where there are so many categories. It costs an evaluation
/// of each expression. Error: out of memory.
pub fn made(
    instances: &Instances,
    known: &Known,
    count: usize,
    begun: Vec<Held>,
    definitions: &[Definition],
) -> Result<Vec<Held>, NoMemory>
    requires table { IsTableOf (map (row_in known.now) (items_in instances.now)) known.now.words.now }
    requires can { (x : ADefinition) → Contains definitions.now x → CanBeMade instances.now begun.items x }
    requires order { AreInOrder known.now instances.now definitions.now }
    requires count { count ≤ 1024 }
    requires few { All IsFew begun.items }
    ensures made { IfOk result (λ helds. AreMade known.now instances.now count begun.items definitions.now helds.items) }
    ensures few { IfOk result (λ helds. All IsFew helds.items) }
{
    let mut helds = begun;
    for definition in definitions {
        give(instances, known, count, &mut helds, *definition)?;
    }
    Ok(helds)
}

/// Adds to a set what a declaration says.
fn give(
    instances: &Instances,
    known: &Known,
    count: usize,
    helds: &mut Vec<Held>,
    definition: Definition,
) -> Result<(), NoMemory>
    requires table { IsTableOf (map (row_in known.now) (items_in instances.now)) known.now.words.now }
    requires can { CanBeMade instances.now helds.old.items definition }
    requires count { count ≤ 1024 }
    requires few { All IsFew helds.old.items }
    ensures given { OnOk result (IsGivenMore known.now instances.now count helds.old.items helds.new.items definition) }
    ensures few { OnOk result (All IsFew helds.new.items) }
{
    let by = Evaluator {
        count,
        held: helds.as_slice(),
    };
    let more = second_value(instances, known, &by, definition.at)?;
    gain(helds, definition.set, &more);
    Ok(())
}

/// Adds categories to a set.
fn gain(helds: &mut Vec<Held>, set: usize, more: &Categories)
    requires is_set { IsSetIn helds.old.items set }
    requires few { All IsFew helds.old.items }
    ensures gained { IsGained helds.old.items helds.new.items set more.now }
    ensures few { All IsFew helds.new.items }
{
    if let Held::Set(old) = helds[set] {
        helds[set] = Held::Set(old.union(more));
    }
}
