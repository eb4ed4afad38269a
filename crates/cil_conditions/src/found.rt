//! The placed booleanifs whose conditions name booleans. It costs a walk over the tokens of each, and no look-up of a word.

ghost use Rattle.std.specs.Prelude.{◌≡◌, ◌+◌, ◌<◌, IfOk, MatchOption, OnOk, false, length, map, true};
ghost use Rattle.cil_syntax.specs.Said.{args_of};
ghost use Rattle.cil_syntax.specs.Terms.{nil};
ghost use Rattle.cil_known.specs.blocks.Contents.{is_conditional};
ghost use Rattle.cil_known.specs.macros.Items.{item_at, items_in};
ghost use Rattle.cil_known.specs.Known.{row_in};
ghost use Rattle.cil_known.specs.names.Rows.{IsTableOf};
ghost use Rattle.cil_conditions.specs.Gathered.{AreFound};
ghost use Rattle.cil_conditions.specs.Walk.{IsConditionIn, IsSpelledBy, IsUnsaid};

use crate::branch::Branch;
use crate::condition::Cond;
use crate::walk::push_condition;
use cil_base::{NoMemory, short};
use cil_known::{Instances, Known, Meaning};
use cil_syntax::{Keyword, Statement, Term};
use std::alloc::Global;

/// A booleanif, with its two branches.
#[derive(Drop)]
pub struct Found {
    /// The place of the booleanif, among all that is placed.
    pub at: u32,
    /// Its branch of true.
    pub when_true: Branch,
    /// Its branch of false.
    pub when_false: Branch,
}

/// The booleanifs whose conditions name booleans.
pub fn found_in(alloc: Global, instances: &Instances, known: &Known) -> Result<Vec<Found>, NoMemory>
    requires table { IsTableOf (map (row_in known.now) (items_in instances.now)) known.now.words.now }
    ensures { IfOk result (λ found. AreFound instances.now known.now (length (items_in instances.now)) found.items) }
{
    let mut found = Vec::new(alloc);
    for at in 0..instances.len() {
        let words = known.words.row(at);
        push_found(alloc, instances, &mut found, known, at, words)?;
    }
    Ok(found)
}

/// Adds the statement at a place, if it is a booleanif whose condition names booleans, by what its words mean.
fn push_found(
    alloc: Global,
    instances: &Instances,
    found: &mut Vec<Found>,
    known: &Known,
    at: usize,
    words: &[Meaning],
) -> Result<(), NoMemory>
    requires within { at < length (items_in instances.now) }
    requires row { words.now ≡ row_in known.now (item_at instances.now at) }
    ensures { OnOk result (AreFound instances.now known.now at found.old.items → AreFound instances.now known.now (at + 1) found.new.items) }
{
    let statement = instances.statement_there(at);
    if !is_conditional(statement.keyword) {
        return Ok(());
    }
    let Some(term) = condition_of(statement) else {
        return Ok(());
    };
    let Some(condition) = tokens_of(alloc, known, term, statement.at.module, words)? else {
        return Ok(());
    };
    let both = both_of(alloc, at, condition)?;
    found.push(both)?;
    Ok(())
}

/// The two branches of the booleanif at a place with this condition.
fn both_of(alloc: Global, at: usize, condition: Cond) -> Result<Found, NoMemory>
    ensures { IfOk result (λ f. f ≡ record { at = at; when_true = record { condition = condition; value = true }; when_false = record { condition = condition; value = false } }) }
{
    let at = short(at)?;
    let same = condition.try_clone(alloc)?;
    Ok(Found {
        at,
        when_true: Branch {
            condition,
            value: true,
        },
        when_false: Branch {
            condition: same,
            value: false,
        },
    })
}

/// Whether a statement has branches.
fn is_conditional(keyword: Keyword) -> bool
    ensures { result ≡ is_conditional keyword }
{
    matches!(keyword, Keyword::BooleanIf)
}

/// The condition of a booleanif: the first of its terms.
fn condition_of<'p, 'a>(statement: &'p Statement<'a>) -> Option<&'p Term<'a>>
    ensures { MatchOption result (args_of statement.now ≡ nil) (λ term. IsConditionIn statement.now term.now) }
{
    statement.args.as_slice().first()
}

/// The tokens of a condition in a statement of this module, by meanings that begin with those of its words; none where it names no
/// booleans.
fn tokens_of(
    alloc: Global,
    known: &Known,
    term: &Term,
    module: u64,
    words: &[Meaning],
) -> Result<Option<Cond>, NoMemory>
    ensures { IfOk result (λ r. MatchOption r (IsUnsaid known.now «module» term.now words.now) (IsSpelledBy known.now «module» term.now words.now)) }
{
    let mut tokens = Vec::new(alloc);
    let Some(_rest) = push_condition(&mut tokens, known, term, module, words)? else {
        return Ok(None);
    };
    Ok(Some(Cond::of(tokens)))
}
