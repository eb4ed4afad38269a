//! What tables hold of levels.

ghost use Rattle.std.specs.Prelude.{◌≡◌, IfOk, MatchOption};
ghost use Rattle.cil_labels.specs.Index.{AreIndexed};
ghost use Rattle.cil_labels.specs.Parts.{AreApart, table_of};

use crate::index::index_of;
use cil_base::{Bytes, NoMemory};
use cil_mls::{Categories, LevelNames, Named, Range};
use std::alloc::Global;
use std::marker::Model;

/// What tables hold of levels, as it is put together. Items are numbered from 0 by their places in their order, from the lowest on.
#[derive(Drop)]
pub struct LabelParts {
    /// Whether contexts have levels.
    pub are_on: bool,
    /// The qualified names of the categories, in their order.
    pub categories: Vec<Bytes>,
    /// The aliases of categories, in byte order of their names.
    pub category_aliases: Vec<Named>,
    /// The qualified names of the sensitivities, in their order.
    pub sensitivities: Vec<Bytes>,
    /// For each sensitivity, in their order, the categories that it permits.
    pub permitted: Vec<Categories>,
    /// The aliases of sensitivities, in byte order of their names.
    pub sensitivity_aliases: Vec<Named>,
    /// The range of each user, by its number; none where levels are off.
    pub users: Vec<Range>,
}

/// What tables hold of levels. Contracts see its parts; the names that contexts may use have an index.
#[derive(Debug, Drop)]
pub struct Labels {
    are_on: bool,
    categories: Vec<Bytes>,
    category_aliases: Vec<Named>,
    sensitivities: Vec<Bytes>,
    permitted: Vec<Categories>,
    sensitivity_aliases: Vec<Named>,
    users: Vec<Range>,
    names: LevelNames,
}

impl Model for Labels {
    ghost use Rattle.cil_labels.specs.LevelTable.{LevelTable};
    ghost use Rattle.cil_labels.specs.Index.{AreIndexed};

    ghost Value = { LevelTable };

    ghost view = { λ a. record {
      are_on = a.are_on;
      categories = a.categories.items;
      category_aliases = a.category_aliases.items;
      sensitivities = a.sensitivities.items;
      permitted = a.permitted.items;
      sensitivity_aliases = a.sensitivity_aliases.items;
      users = a.users.items;
    } };

    ghost invariant = { λ a. AreIndexed (record {
      are_on = a.are_on;
      categories = a.categories.items;
      category_aliases = a.category_aliases.items;
      sensitivities = a.sensitivities.items;
      permitted = a.permitted.items;
      sensitivity_aliases = a.sensitivity_aliases.items;
      users = a.users.items;
    }) a.names };
}

impl Labels {
    /// The table of these parts. None if a name that can be written in a context stands for two places, or for one that is too large:
    /// 256 or more of a sensitivity, 1,024 or more of a category. It copies all names that can be written, and sorts them. Error: out
    /// of memory.
    pub fn of(alloc: Global, parts: LabelParts) -> Result<Option<Labels>, NoMemory>
        ensures { IfOk result (λ o. MatchOption o (AreApart (table_of parts) → ⊥) (λ labels. labels ≡ table_of parts)) }
    {
        let Some(names) = names_of(alloc, &parts)? else {
            return Ok(None);
        };
        Ok(Some(with_names(parts, names)))
    }

    /// Whether contexts have levels.
    pub fn are_on(&self) -> bool
        ensures { result ≡ self.now.are_on }
    {
        self.are_on
    }

    /// The qualified names of the categories, in their order.
    pub fn categories(&self) -> &[Bytes]
        ensures { result.now ≡ self.now.categories }
    {
        self.categories.as_slice()
    }

    /// The aliases of categories, in byte order of their names.
    pub fn category_aliases(&self) -> &[Named]
        ensures { result.now ≡ self.now.category_aliases }
    {
        self.category_aliases.as_slice()
    }

    /// The qualified names of the sensitivities, in their order.
    pub fn sensitivities(&self) -> &[Bytes]
        ensures { result.now ≡ self.now.sensitivities }
    {
        self.sensitivities.as_slice()
    }

    /// For each sensitivity, in their order, the categories that it permits.
    pub fn permitted(&self) -> &[Categories]
        ensures { result.now ≡ self.now.permitted }
    {
        self.permitted.as_slice()
    }

    /// The aliases of sensitivities, in byte order of their names.
    pub fn sensitivity_aliases(&self) -> &[Named]
        ensures { result.now ≡ self.now.sensitivity_aliases }
    {
        self.sensitivity_aliases.as_slice()
    }

    /// The range of each user, by its number; none where levels are off.
    pub fn users(&self) -> &[Range]
        ensures { result.now ≡ self.now.users }
    {
        self.users.as_slice()
    }

    /// The names that contexts may use.
    pub(crate) fn names(&self) -> &LevelNames
        ensures { AreIndexed self.now result.now }
    {
        &self.names
    }
}

/// The names that contexts may use, if each stands for one place that is not too large.
fn names_of(alloc: Global, parts: &LabelParts) -> Result<Option<LevelNames>, NoMemory>
    ensures { IfOk result (λ o. MatchOption o (AreApart (table_of parts.now) → ⊥) (AreIndexed (table_of parts.now))) }
{
    let sensitivities = index_of(
        alloc,
        parts.sensitivities.as_slice(),
        parts.sensitivity_aliases.as_slice(),
    )?;
    let categories = index_of(
        alloc,
        parts.categories.as_slice(),
        parts.category_aliases.as_slice(),
    )?;
    let Some(names) = LevelNames::of(sensitivities, categories) else {
        return Ok(None);
    };
    // What is known of the names: both lists rise.
    names.sensitivities();
    names.categories();
    Ok(Some(names))
}

/// The table of some parts, with these names.
fn with_names(parts: LabelParts, names: LevelNames) -> Labels
    requires { AreIndexed (table_of parts) names }
    ensures { result ≡ table_of parts }
{
    Labels {
        are_on: parts.are_on,
        categories: parts.categories,
        category_aliases: parts.category_aliases,
        sensitivities: parts.sensitivities,
        permitted: parts.permitted,
        sensitivity_aliases: parts.sensitivity_aliases,
        users: parts.users,
        names,
    }
}
