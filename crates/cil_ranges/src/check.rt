//! What is wrong with the levels and ranges of all statements.

ghost use Rattle.std.specs.Prelude.{◌≡◌, ◌≤◌, ◌<◌, All, OnOk, length, map, true};
ghost use Rattle.cil_macros.specs.Items.{item_at, items_in};
ghost use Rattle.cil_names.specs.Rows.{IsTableOf};
ghost use Rattle.cil_known.specs.Known.{row_in};
ghost use Rattle.cil_mls.specs.Values.{IsFew};
ghost use Rattle.cil_ranges.specs.Checked.{AddsAmong, AddsInside, AddsSaid};
ghost use Rattle.cil_ranges.specs.Inside.{says_levels};

use crate::own::Judge;
use crate::walk::{Ahead, Walk, push_terms};
use cil_base::NoMemory;
use cil_faults::Fault;
use cil_known::Known;
use cil_macros::Instances;
use cil_names::same_keyword;
use cil_syntax::Keyword;
use std::alloc::Global;

/// Adds what is wrong with the levels and ranges in what enabled statements say, the arguments of calls included: a level with a category
/// that its sensitivity does not permit, and a range of levels or of categories that is turned. Of a named level or range it is told where
/// it is declared. It costs a few steps for each term, and up to seven evaluations of each expression. Error: out of memory, which is also
/// the answer where a level has permissions of a class in it: there is none of these.
pub fn push_level_faults(
    alloc: Global,
    instances: &Instances,
    known: &Known,
    judge: &Judge,
    faults: &mut Vec<Fault>,
) -> Result<(), NoMemory>
    requires table { IsTableOf (map (row_in known.now) (items_in instances.now)) known.now.words.now }
    requires count { judge.now.named.scale.categories.count ≤ 1024 }
    requires few { All IsFew judge.now.named.scale.categories.held.now }
    ensures { OnOk result (AddsAmong known.now judge.now faults.old.items faults.new.items (items_in instances.now)) }
{
    for at in 0..instances.len() {
        push_faults_at(alloc, instances, known, judge, at, faults)?;
    }
    Ok(())
}

/// Adds what is wrong with those of the statement at a place.
fn push_faults_at(
    alloc: Global,
    instances: &Instances,
    known: &Known,
    judge: &Judge,
    at: usize,
    faults: &mut Vec<Fault>,
) -> Result<(), NoMemory>
    requires table { IsTableOf (map (row_in known.now) (items_in instances.now)) known.now.words.now }
    requires within { at < length (items_in instances.now) }
    requires count { judge.now.named.scale.categories.count ≤ 1024 }
    requires few { All IsFew judge.now.named.scale.categories.held.now }
    ensures { OnOk result (AddsSaid known.now judge.now faults.old.items faults.new.items (item_at instances.now at)) }
{
    let keyword = instances.statement_there(at).keyword;
    if !says_levels(keyword) {
        return Ok(());
    }
    if !known.is_enabled(instances, at) {
        return Ok(());
    }
    if same_keyword(keyword, Keyword::Call) && !instances.may_have_list(at) {
        return Ok(());
    }
    push_walked(alloc, instances, known, judge, at, faults)
}

/// Whether statements of this keyword have a place for a level, a range or an expression over categories, or are calls.
fn says_levels(keyword: Keyword) -> bool
    ensures { result ≡ says_levels keyword }
{
    matches!(
        keyword,
        Keyword::SensitivityCategory
            | Keyword::CategorySet
            | Keyword::Level
            | Keyword::LevelRange
            | Keyword::UserLevel
            | Keyword::UserRange
            | Keyword::RangeTransition
            | Keyword::Call
    )
}

/// Adds what is wrong inside of what an enabled statement says.
fn push_walked(
    alloc: Global,
    instances: &Instances,
    known: &Known,
    judge: &Judge,
    at: usize,
    faults: &mut Vec<Fault>,
) -> Result<(), NoMemory>
    requires table { IsTableOf (map (row_in known.now) (items_in instances.now)) known.now.words.now }
    requires within { at < length (items_in instances.now) }
    requires levels { says_levels (item_at instances.now at).keyword ≡ true }
    requires count { judge.now.named.scale.categories.count ≤ 1024 }
    requires few { All IsFew judge.now.named.scale.categories.held.now }
    ensures { OnOk result (AddsInside known.now judge.now faults.old.items faults.new.items (item_at instances.now at)) }
{
    let terms = instances.terms(alloc, at)?;
    let parts = instances.parts(alloc, at)?;
    let walk = Walk {
        instances,
        at,
        judge: *judge,
    };
    let ahead = Ahead {
        words: known.words.row(at),
        parts: parts.as_slice(),
    };
    push_terms(alloc, &walk, faults, terms.as_slice(), ahead)?;
    Ok(())
}
