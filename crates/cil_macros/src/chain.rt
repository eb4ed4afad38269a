//! The calls through which something is placed: which statement it is, and whether a macro is among those that were
//! called.

ghost use Rattle.std.specs.Prelude.{◌≡◌, ◌+◌, ◌<◌, List, OnOk, Some, length, slice_get};
ghost use Rattle.std.specs.List.{list_any};
ghost use Rattle.cil_syntax.specs.Program.{IsNested, program_of};
ghost use Rattle.cil_syntax.specs.Written.{Written};
ghost use Rattle.cil_blocks.specs.Contents.{Standing, same_spot};
ghost use Rattle.cil_blocks.specs.Entries.{standings_of, statement_at};
ghost use Rattle.cil_macros.specs.Entries.{AreBodies, placed_of};
ghost use Rattle.cil_macros.specs.Firsts.{AreFirsts, IsFirstKept};
ghost use Rattle.cil_macros.specs.Placed.{Placed};

use crate::entry::{Body, Called};
use crate::nearest::spot_of;
use cil_base::NoMemory;
use cil_blocks::Entry;
use cil_syntax::{Spot, Statement};
use indexmap::IndexMap;

/// The number of the statement at a place among all that is placed.
pub fn statement_at(entries: &[Entry], called: &[Called], at: usize) -> usize
    requires { at < length entries.now + length called.now }
    ensures { (ws : List Written) (p : Placed) → slice_get (placed_of ws (standings_of ws entries.now) called.now) at ≡ Some p → p.standing.statement ≡ statement_at ws result }
{
    if at < entries.len() {
        return entries[at].statement as usize;
    }
    called[at - entries.len()].statement
}

/// The number of the statement that stands at a place among all that stands.
pub fn standing_statement(entries: &[Entry], at: usize) -> usize
    requires { at < length entries.now }
    ensures { (ws : List Written) (s : Standing) → slice_get (standings_of ws entries.now) at ≡ Some s → s.statement ≡ statement_at ws result }
{
    entries[at].statement as usize
}

/// Whether a macro is among those through whose calls something is placed. It costs a hash, and a step for each call on
/// the way that belongs to a body no earlier than the first one of the macro: none where the macro has no body yet.
pub fn is_repeated(
    statements: &[Statement],
    entries: &[Entry],
    brought: &Brought,
    at: usize,
    called: Spot,
) -> bool
    requires nested { IsNested statements.now }
    requires bodies { AreBodies (program_of statements.now) (standings_of (program_of statements.now) entries.now) brought.now.entries.items brought.now.bodies.items }
    requires firsts { AreFirsts (standings_of (program_of statements.now) entries.now) brought.now }
    requires within { at < length entries.now + length brought.now.entries.items }
    ensures { (p : Placed) → slice_get (placed_of (program_of statements.now) (standings_of (program_of statements.now) entries.now) brought.now.entries.items) at ≡ Some p
        → result ≡ list_any (same_spot called) p.macros }
{
    let first = brought.first_body(called);
    let mut place = at;
    while let Some(body) = brought.body_from(first, entries.len(), place) {
        if is_same_spot(called, spot_of(statements, entries, body.macro_rank)) {
            return true;
        }
        place = body.call;
    }
    false
}

/// Whether two positions are one.
fn is_same_spot(one: Spot, other: Spot) -> bool
    ensures { result ≡ same_spot one other }
{
    one == other
}

/// Keeps the number of a body, if it is the first one of its macro.
pub fn keep_first(
    firsts: &mut IndexMap<(u64, u64), usize>,
    called: Spot,
    body: usize,
) -> Result<(), NoMemory>
    ensures { OnOk result (IsFirstKept called body firsts.old firsts.new) }
{
    let key = (called.module, called.at);
    if firsts.contains_key(&key) {
        return Ok(());
    }
    firsts.insert(key, body)?;
    Ok(())
}

/// What calls have brought so far: the statements, and the bodies that they belong to.
#[derive(Drop)]
pub struct Brought {
    /// The statements.
    pub entries: Vec<Called>,
    /// The bodies. A body has a higher number than that to which its call belongs.
    pub bodies: Vec<Body>,
    /// The number of the first body of each macro that was called, by where the macro is written.
    pub firsts: IndexMap<(u64, u64), usize>,
}

impl Brought {
    ghost use Rattle.std.specs.Prelude.{◌≡◌, ◌+◌, ◌<◌, ◌≤◌, List, Contains, IfSome, MatchOption, length};
    ghost use Rattle.std.specs.List.{position_or_len};
    ghost use Rattle.cil_syntax.specs.Written.{Written};
    ghost use Rattle.cil_blocks.specs.Contents.{Standing};
    ghost use Rattle.cil_macros.specs.Entries.{AreBodies, IsBodyAt};
    ghost use Rattle.cil_macros.specs.Firsts.{AreFirsts, IsEarlier, is_body_of};

    /// The body of what is placed somewhere, if a call brought it: what stands comes first, so many.
    pub fn body_at(&self, standing: usize, at: usize) -> Option<&Body>
        requires { at < standing + length self.now.entries.items }
        ensures kept { IfSome result (λ body. Contains self.now.bodies.items body.now) }
        ensures body { (ws : List Written) (ss : List Standing) → length ss ≡ standing → AreBodies ws ss self.now.entries.items self.now.bodies.items
            → MatchOption result (at < standing) (λ body. IsBodyAt ws ss self.now.entries.items at body.now) }
    {
        if at < standing {
            return None;
        }
        let body = self.bodies.get(self.entries[at - standing].body)?;
        Some(body)
    }
    /// The same, if the number of the body is at least this one.
    pub fn body_from(&self, first: usize, standing: usize, at: usize) -> Option<&Body>
        requires { at < standing + length self.now.entries.items }
        ensures { (ws : List Written) (ss : List Standing) → length ss ≡ standing → AreBodies ws ss self.now.entries.items self.now.bodies.items
            → MatchOption result (IsEarlier self.now.entries.items first standing at) (λ body. IsBodyAt ws ss self.now.entries.items at body.now) }
    {
        if at < standing {
            return None;
        }
        if self.entries[at - standing].body < first {
            return None;
        }
        self.body_at(standing, at)
    }

    /// The number of the first body of a macro; if it has none, the number of bodies.
    pub fn first_body(&self, called: Spot) -> usize
        ensures { (ss : List Standing) → AreFirsts ss self.now → result ≡ position_or_len (is_body_of ss called) self.now.bodies.items }
    {
        match self.firsts.get(&(called.module, called.at)) {
            None => self.bodies.len(),
            Some(first) => *first,
        }
    }
}
