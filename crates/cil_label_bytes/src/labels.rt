//! Sections 1 to 5, read.

ghost use Rattle.std.specs.Prelude.{◌≡◌};
ghost use Rattle.cil_labels.specs.Parts.{table_of};
ghost use Rattle.cil_format.specs.Takes.{Takes};
ghost use Rattle.cil_label_bytes.specs.Layout as layout;

use crate::aliases::aliases_at;
use crate::listings::{Sensitivities, categories_at, sensitivities_at};
use crate::ranges::Bounds;
use crate::users::users_at;
use cil_base::{Bytes, Names};
use cil_format::TableError;
use cil_labels::{LabelParts, Labels};
use cil_mls::{Categories, Named};
use std::alloc::Global;

/// What sections 1 to 5 say.
#[derive(Drop)]
pub struct ReadLabels {
    /// What tables hold of levels.
    pub labels: Labels,
    /// The names of users, in byte order.
    pub users: Names,
}

/// The same as it is put together.
#[derive(Drop)]
struct ReadParts {
    parts: LabelParts,
    users: Vec<Bytes>,
}

/// Categories and their aliases.
#[derive(Drop)]
struct CategoryPart {
    names: Vec<Bytes>,
    aliases: Vec<Named>,
}

/// Sensitivities, what they permit, and their aliases.
#[derive(Drop)]
struct SensitivityPart {
    names: Vec<Bytes>,
    permitted: Vec<Categories>,
    aliases: Vec<Named>,
}

/// Sections 1 to 5, and the bytes behind them, where levels are on or off. Errors: the first fault, or out of memory. It costs a hash
/// for each name and each alias, and steps for the bytes.
pub fn labels_at(
    alloc: Global,
    bytes: &[u8],
    are_on: bool,
) -> Result<(ReadLabels, &[u8]), TableError>
    ensures { Takes (λ x. (record { levels = x.0.labels; users = x.0.users }, x.1.now)) result ((layout.labels are_on).read bytes.now) }
{
    let (read, rest) = parts_at(alloc, bytes, are_on)?;
    let Some(labels) = Labels::of(alloc, read.parts)? else {
        unreachable!();
    };
    let users = Names::from_vec(read.users);
    Ok((ReadLabels { labels, users }, rest))
}

/// The parts of what sections 1 to 5 say.
fn parts_at(alloc: Global, bytes: &[u8], are_on: bool) -> Result<(ReadParts, &[u8]), TableError>
    ensures { Takes (λ x. (record { levels = table_of x.0.parts; users = x.0.users.items }, x.1.now)) result ((layout.labels are_on).read bytes.now) }
{
    let (categories, rest) = category_part_at(alloc, bytes)?;
    let (sensitivities, rest) = sensitivity_part_at(alloc, rest, categories.names.len())?;
    let bounds = Bounds {
        categories: categories.names.len(),
        permitted: sensitivities.permitted.as_slice(),
    };
    let (users, rest) = users_at(alloc, are_on, &bounds, rest)?;
    let parts = LabelParts {
        are_on,
        categories: categories.names,
        category_aliases: categories.aliases,
        sensitivities: sensitivities.names,
        permitted: sensitivities.permitted,
        sensitivity_aliases: sensitivities.aliases,
        users: users.ranges,
    };
    Ok((
        ReadParts {
            parts,
            users: users.names,
        },
        rest,
    ))
}

/// Categories and their aliases, and the bytes behind them.
fn category_part_at(alloc: Global, bytes: &[u8]) -> Result<(CategoryPart, &[u8]), TableError>
    ensures { Takes (λ x. ((x.0.names.items, x.0.aliases.items), x.1.now)) result (layout.category_part.read bytes.now) }
{
    let (names, rest) = categories_at(alloc, bytes)?;
    let (aliases, rest) = aliases_at(alloc, &names, rest)?;
    let names = names.copies(alloc)?;
    Ok((CategoryPart { names, aliases }, rest))
}

/// Sensitivities and their aliases, and the bytes behind them, where there are so many categories.
fn sensitivity_part_at(
    alloc: Global,
    bytes: &[u8],
    categories: usize,
) -> Result<(SensitivityPart, &[u8]), TableError>
    ensures { Takes (λ x. (((x.0.names.items, x.0.permitted.items), x.0.aliases.items), x.1.now)) result ((layout.sensitivity_part categories).read bytes.now) }
{
    let (sensitivities, rest) = sensitivities_at(alloc, bytes, categories)?;
    let Sensitivities { names, permitted } = sensitivities;
    let (aliases, rest) = aliases_at(alloc, &names, rest)?;
    let names = names.copies(alloc)?;
    let part = SensitivityPart {
        names,
        permitted,
        aliases,
    };
    Ok((part, rest))
}
