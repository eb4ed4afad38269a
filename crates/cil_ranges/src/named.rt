//! What names of levels and of ranges stand for: for each declared name, by its entry, what its declaration says.

ghost use Rattle.std.specs.Prelude.{◌≡◌, ◌≤◌, ◌<◌, ℕ, All, IfOk, List, MatchOption, OnOk, Some, length, map, set};
ghost use Rattle.cil_faults.specs.declared.fault.Fault.{Fault};
ghost use Rattle.cil_syntax.specs.declared.kind.Kind as kinds;
ghost use Rattle.cil_syntax.specs.declared.kind.Kind.TheVariants as variants;
ghost use Rattle.cil_macros.specs.Items.{item_at, items_in, namespaces_in};
ghost use Rattle.cil_names.specs.Faults.{ClashFault};
ghost use Rattle.cil_names.specs.Rows.{IsTableOf};
ghost use Rattle.cil_known.specs.Known.{IsKnown, enabled_in, row_in};
ghost use Rattle.cil_mls.specs.declared.level.Level as the_levels;
ghost use Rattle.cil_mls.specs.declared.level.Range as the_ranges;
ghost use Rattle.cil_mls.specs.Values.{IsFew};
ghost use Rattle.cil_ranges.specs.DeclaredEntries.{DeclaresEntry};
ghost use Rattle.cil_ranges.specs.Levels.{Ground, IsWrittenLevel, IsWrittenRange};
ghost use Rattle.cil_ranges.specs.Named.{NamesMore, SaysBehind};
ghost use Rattle.cil_ranges.specs.Reading.{HasLevels, HasRanges, Measures};

use crate::declared::entry_declared;
use crate::level::written_level;
use crate::range::written_range;
use crate::said::plain_terms;
use crate::scale::{Named, Scale};
use cil_base::NoMemory;
use cil_known::Known;
use cil_macros::Instances;
use cil_mls::{Level, Range};
use cil_names::laws;
use cil_syntax::{Kind, Sign};
use std::alloc::Global;

/// For each declared name, by its entry, the level that it names; none for any other. It costs a step for each statement, and an
/// evaluation of each level that is declared. Error: out of memory, which is also the answer where the declaration of a level has
/// permissions of a class in it: there is none of these.
pub fn named_levels(
    alloc: Global,
    instances: &Instances,
    known: &Known,
    scale: &Scale,
) -> Result<Vec<Option<Level>>, NoMemory>
    requires namespaces { known.now.lookup.namespaces.now ≡ namespaces_in instances.now }
    requires table { IsTableOf (map (row_in known.now) (items_in instances.now)) known.now.words.now }
    requires known { (sections : kinds.Kind → List (List ℕ)) × IsKnown known.now (items_in instances.now) sections }
    requires apart { (f : Fault) → ClashFault (items_in instances.now) f → ⊥ }
    requires count { scale.now.categories.count ≤ 1024 }
    requires few { All IsFew scale.now.categories.held.now }
    ensures { IfOk result (λ levels. (g : Ground) → g.items ≡ items_in instances.now → Measures known.now scale.now g → HasLevels known.now levels.items g) }
{
    // What is known of a word: it means the entry that it names.
    laws::means_what_it_names();
    let mut levels = vec![in alloc; None; known.lookup.names.entries().len()]?;
    for at in 0..instances.len() {
        name_level(alloc, instances, known, scale, at, &mut levels)?;
    }
    Ok(levels)
}

/// Keeps the level that the statement at a place declares, if it declares one.
fn name_level(
    alloc: Global,
    instances: &Instances,
    known: &Known,
    scale: &Scale,
    at: usize,
    levels: &mut Vec<Option<Level>>,
) -> Result<(), NoMemory>
    requires namespaces { known.now.lookup.namespaces.now ≡ namespaces_in instances.now }
    requires table { IsTableOf (map (row_in known.now) (items_in instances.now)) known.now.words.now }
    requires known { (sections : kinds.Kind → List (List ℕ)) × IsKnown known.now (items_in instances.now) sections }
    requires within { at < length (items_in instances.now) }
    requires room { length levels.old.items ≡ length known.now.lookup.names.now }
    requires count { scale.now.categories.count ≤ 1024 }
    requires few { All IsFew scale.now.categories.held.now }
    ensures room { OnOk result (length levels.new.items ≡ length known.now.lookup.names.now) }
    ensures named { OnOk result ((g : Ground) → Measures known.now scale.now g
        → NamesMore (IsWrittenLevel (enabled_in known.now) g) known.now (items_in instances.now) variants.Level levels.old.items levels.new.items (item_at instances.now at)) }
{
    let Some(entry) = entry_declared(instances, known, Kind::Level, Sign::Levels, at) else {
        return Ok(());
    };
    let level = declared_level(alloc, instances, known, scale, at)?;
    keep(levels, entry, level);
    Ok(())
}

/// The level that the declaration of a level at a place says. None if it says no level.
fn declared_level(
    alloc: Global,
    instances: &Instances,
    known: &Known,
    scale: &Scale,
    at: usize,
) -> Result<Option<Level>, NoMemory>
    requires table { IsTableOf (map (row_in known.now) (items_in instances.now)) known.now.words.now }
    requires within { at < length (items_in instances.now) }
    requires declares { (d : ℕ) × DeclaresEntry known.now (items_in instances.now) variants.Level (item_at instances.now at) d }
    requires count { scale.now.categories.count ≤ 1024 }
    requires few { All IsFew scale.now.categories.held.now }
    ensures { IfOk result (λ level. (g : Ground) → Measures known.now scale.now g
        → MatchOption level ((l : the_levels.Level) → SaysBehind (IsWrittenLevel (enabled_in known.now) g) (item_at instances.now at) l → ⊥) (SaysBehind (IsWrittenLevel (enabled_in known.now) g) (item_at instances.now at))) }
{
    let terms = plain_terms(alloc, instances, known, at)?;
    let parts = terms.as_slice();
    if parts.len() != 2 {
        return Ok(None);
    }
    Ok(written_level(scale, &parts[1], known.words.row(at)))
}

/// For each declared name, by its entry, the range that it names; none for any other. It costs a step for each statement, and a reading of
/// each range that is declared. Error: out of memory, which is also the answer where the declaration of a range has permissions of a
/// class in it: there is none of these.
pub fn named_ranges(
    alloc: Global,
    instances: &Instances,
    known: &Known,
    named: &Named,
) -> Result<Vec<Option<Range>>, NoMemory>
    requires namespaces { known.now.lookup.namespaces.now ≡ namespaces_in instances.now }
    requires table { IsTableOf (map (row_in known.now) (items_in instances.now)) known.now.words.now }
    requires known { (sections : kinds.Kind → List (List ℕ)) × IsKnown known.now (items_in instances.now) sections }
    requires count { named.now.scale.categories.count ≤ 1024 }
    requires few { All IsFew named.now.scale.categories.held.now }
    ensures { IfOk result (λ ranges. (g : Ground) → g.items ≡ items_in instances.now → Measures known.now named.now.scale g → HasLevels known.now named.now.levels.now g
        → HasRanges known.now ranges.items g) }
{
    // What is known of a word: it means the entry that it names.
    laws::means_what_it_names();
    let mut ranges = vec![in alloc; None; known.lookup.names.entries().len()]?;
    for at in 0..instances.len() {
        name_range(alloc, instances, known, named, at, &mut ranges)?;
    }
    Ok(ranges)
}

/// Keeps the range that the statement at a place declares, if it declares one.
fn name_range(
    alloc: Global,
    instances: &Instances,
    known: &Known,
    named: &Named,
    at: usize,
    ranges: &mut Vec<Option<Range>>,
) -> Result<(), NoMemory>
    requires namespaces { known.now.lookup.namespaces.now ≡ namespaces_in instances.now }
    requires table { IsTableOf (map (row_in known.now) (items_in instances.now)) known.now.words.now }
    requires known { (sections : kinds.Kind → List (List ℕ)) × IsKnown known.now (items_in instances.now) sections }
    requires within { at < length (items_in instances.now) }
    requires room { length ranges.old.items ≡ length known.now.lookup.names.now }
    requires count { named.now.scale.categories.count ≤ 1024 }
    requires few { All IsFew named.now.scale.categories.held.now }
    ensures room { OnOk result (length ranges.new.items ≡ length known.now.lookup.names.now) }
    ensures named { OnOk result ((g : Ground) → Measures known.now named.now.scale g → HasLevels known.now named.now.levels.now g
        → NamesMore (IsWrittenRange (enabled_in known.now) g) known.now (items_in instances.now) variants.LevelRange ranges.old.items ranges.new.items (item_at instances.now at)) }
{
    let Some(entry) = entry_declared(instances, known, Kind::LevelRange, Sign::LevelRanges, at)
    else {
        return Ok(());
    };
    let range = declared_range(alloc, instances, known, named, at)?;
    keep(ranges, entry, range);
    Ok(())
}

/// The range that the declaration of a range at a place says. None if it says no range.
fn declared_range(
    alloc: Global,
    instances: &Instances,
    known: &Known,
    named: &Named,
    at: usize,
) -> Result<Option<Range>, NoMemory>
    requires table { IsTableOf (map (row_in known.now) (items_in instances.now)) known.now.words.now }
    requires within { at < length (items_in instances.now) }
    requires declares { (d : ℕ) × DeclaresEntry known.now (items_in instances.now) variants.LevelRange (item_at instances.now at) d }
    requires count { named.now.scale.categories.count ≤ 1024 }
    requires few { All IsFew named.now.scale.categories.held.now }
    ensures { IfOk result (λ range. (g : Ground) → Measures known.now named.now.scale g → HasLevels known.now named.now.levels.now g
        → MatchOption range ((r : the_ranges.Range) → SaysBehind (IsWrittenRange (enabled_in known.now) g) (item_at instances.now at) r → ⊥) (SaysBehind (IsWrittenRange (enabled_in known.now) g) (item_at instances.now at))) }
{
    let terms = plain_terms(alloc, instances, known, at)?;
    let parts = terms.as_slice();
    if parts.len() != 2 {
        return Ok(None);
    }
    Ok(written_range(named, &parts[1], known.words.row(at)))
}

/// Keeps what a name stands for at its entry, if it stands for something.
fn keep<T: Copy>(table: &mut Vec<Option<T>>, entry: usize, named: Option<T>)
    requires within { entry < length table.old.items }
    ensures { MatchOption named (table.new.items ≡ table.old.items) (λ v. table.new.items ≡ set table.old.items entry (Some v)) }
{
    if let Some(value) = named {
        table[entry] = Some(value);
    }
}
