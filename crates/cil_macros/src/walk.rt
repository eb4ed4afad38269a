//! The walk over all that is placed: what stands, and then what each call brings, in the order in which it is reached. A call costs
//! a look at the calls through which it came, the filling of its scope, and a step for each statement of its macro. The walk stops
//! one body after the limit.

ghost use Rattle.std.specs.Prelude.{◌≡◌, ◌+◌, ◌<◌, ◌≤◌, ◌++◌, IfNone, IfOk, IfSome, OnOk, Some, length, map, slice_get};
ghost use Rattle.cil_base.specs.Lists.{Lists};
ghost use Rattle.cil_base.specs.Rising.{IsOver};
ghost use Rattle.cil_blocks.specs.Places.{entries_in};
ghost use Rattle.cil_macros.specs.Calls.{IsPlaced, placed_cmp};
ghost use Rattle.cil_macros.specs.Macros.{all_standing};
ghost use Rattle.cil_macros.specs.Walks.{AreBrought, AreInTurn, IsSource, called_by, placed_in, written_in};

use crate::body_scope::body_scope;
use crate::calls::{space_at, unfolded_at};
use crate::chain::{Brought, keep_first, standing_statement, statement_at};
use crate::entry::{Body, Called};
use crate::nearest::spot_of;
use crate::source::Source;
use cil_base::NoMemory;
use cil_blocks::ScopeList;
use cil_blocks::names::keeps_place_at;
use cil_blocks::walker::parts_at;
use indexmap::IndexMap;
use std::alloc::Global;

/// All that calls bring; or nothing where that is, with what stands, more than the limit.
pub fn walk(alloc: Global, source: &Source, limit: usize) -> Result<Option<Brought>, NoMemory>
    requires { IsSource source.now }
    ensures all { IfOk result (λ o. IfSome o (λ b. Lists placed_cmp (IsPlaced (written_in source.now.spaces.now) (all_standing source.now.spaces.now)) (placed_in source.now.spaces.now b.entries.items))) }
    ensures brought { IfOk result (λ o. IfSome o (AreBrought source.now.spaces.now)) }
    ensures turn { IfOk result (λ o. IfSome o (λ b. AreInTurn source.now.spaces.now b.entries.items b.bodies.items (length (entries_in source.now.spaces.now) + length b.entries.items))) }
    ensures few { IfOk result (λ o. IfSome o (λ b. length (entries_in source.now.spaces.now) + length b.entries.items ≤ limit)) }
    ensures many { IfOk result (λ o. IfNone o (IsOver placed_cmp (IsPlaced (written_in source.now.spaces.now) (all_standing source.now.spaces.now)) limit)) }
{
    let mut brought = Brought {
        entries: Vec::new(alloc),
        bodies: Vec::new(alloc),
        firsts: IndexMap::new(alloc),
    };
    let all = brought.open_all(alloc, source, limit)?;
    if !all {
        return Ok(None);
    }
    Ok(Some(brought))
}

impl Brought {
    ghost use Rattle.std.specs.Prelude.{◌≡◌, ◌+◌, ◌<◌, ◌++◌, [], IfOk, MatchOption, OnOk, Some, false, length, map, slice_get, true};
    ghost use Rattle.cil_base.specs.Rising.{IsOver};
    ghost use Rattle.cil_blocks.specs.Places.{entries_in};
    ghost use Rattle.cil_macros.specs.Calls.{IsPlaced, placed_cmp};
    ghost use Rattle.cil_macros.specs.Entries.{IsInnerOf};
    ghost use Rattle.cil_macros.specs.Expansion.{AreAllBrought};
    ghost use Rattle.cil_macros.specs.Macros.{all_standing};
    ghost use Rattle.cil_macros.specs.Opens.{opens_placed};
    ghost use Rattle.cil_macros.specs.Placed.{Placed};
    ghost use Rattle.cil_macros.specs.Walks.{AreBrought, AreInTurn, IsSource, OpensAsCall, called_by, placed_in, written_in};

    /// Adds all that calls bring, and tells whether that is, with what stands, within the limit. Otherwise it ends one body after the limit.
    fn open_all(&mut self, alloc: Global, source: &Source, limit: usize) -> Result<bool, NoMemory>
        requires source { IsSource source.now }
        requires brought { AreBrought source.now.spaces.now self.old }
        requires empty { self.old.entries.items ≡ [] }
        requires bodiless { self.old.bodies.items ≡ [] }
        ensures all { IfOk result (λ all. all ≡ true → AreAllBrought source.now.spaces.now limit self.new) }
        ensures many { IfOk result (λ all. all ≡ false → IsOver placed_cmp (IsPlaced (written_in source.now.spaces.now) (all_standing source.now.spaces.now)) limit) }
    {
        let mut scope = ScopeList::new(alloc);
        let mut own = ScopeList::new(alloc);
        self.open_from(alloc, source, limit, &mut scope, &mut own)
    }

    /// The same, with room for two scopes.
    fn open_from(
        &mut self,
        alloc: Global,
        source: &Source,
        limit: usize,
        scope: &mut ScopeList,
        own: &mut ScopeList,
    ) -> Result<bool, NoMemory>
        requires source { IsSource source.now }
        requires brought { AreBrought source.now.spaces.now self.old }
        requires empty { self.old.entries.items ≡ [] }
        requires bodiless { self.old.bodies.items ≡ [] }
        ensures all { IfOk result (λ all. all ≡ true → AreAllBrought source.now.spaces.now limit self.new) }
        ensures many { IfOk result (λ all. all ≡ false → IsOver placed_cmp (IsPlaced (written_in source.now.spaces.now) (all_standing source.now.spaces.now)) limit) }
    {
        let standing = source.spaces.entries().len();
        let mut at = 0;
        while at < standing + self.entries.len() {
            if standing + self.entries.len() > limit {
                return Ok(false);
            }
            self.open(alloc, source, at, scope, own)?;
            at += 1;
        }
        Ok(true)
    }

    /// Adds what the statement at a place opens: where it is an optional or a booleanif that a call brings, the statements directly in it;
    /// where it is a call that is unfolded, those directly in its macro.
    fn open(
        &mut self,
        alloc: Global,
        source: &Source,
        at: usize,
        scope: &mut ScopeList,
        own: &mut ScopeList,
    ) -> Result<(), NoMemory>
        requires source { IsSource source.now }
        requires brought { AreBrought source.now.spaces.now self.old }
        requires turn { AreInTurn source.now.spaces.now self.old.entries.items self.old.bodies.items at }
        requires within { at < length (entries_in source.now.spaces.now) + length self.old.entries.items }
        ensures brought { OnOk result (AreBrought source.now.spaces.now self.new) }
        ensures turn { OnOk result (AreInTurn source.now.spaces.now self.new.entries.items self.new.bodies.items (at + 1)) }
        ensures opened { OnOk result ((p : Placed) → slice_get (placed_in source.now.spaces.now self.old.entries.items) at ≡ Some p
            → placed_in source.now.spaces.now self.new.entries.items ≡ placed_in source.now.spaces.now self.old.entries.items ++ opens_placed (written_in source.now.spaces.now) (all_standing source.now.spaces.now) p) }
    {
        match self.inner_body(source, at) {
            None => self.open_call(alloc, source, at, scope, own),
            Some(body) => self.open_inner(source, at, body),
        }
    }

    /// Adds the statements directly in an optional or in a booleanif, which belong to the same body.
    fn open_inner(&mut self, source: &Source, at: usize, body: usize) -> Result<(), NoMemory>
        requires source { IsSource source.now }
        requires brought { AreBrought source.now.spaces.now self.old }
        requires turn { AreInTurn source.now.spaces.now self.old.entries.items self.old.bodies.items at }
        requires inner { IsInnerOf (written_in source.now.spaces.now) self.old.entries.items (length (all_standing source.now.spaces.now)) at body }
        ensures brought { OnOk result (AreBrought source.now.spaces.now self.new) }
        ensures turn { OnOk result (AreInTurn source.now.spaces.now self.new.entries.items self.new.bodies.items (at + 1)) }
        ensures opened { OnOk result ((p : Placed) → slice_get (placed_in source.now.spaces.now self.old.entries.items) at ≡ Some p
            → placed_in source.now.spaces.now self.new.entries.items ≡ placed_in source.now.spaces.now self.old.entries.items ++ opens_placed (written_in source.now.spaces.now) (all_standing source.now.spaces.now) p) }
    {
        let number = statement_at(source.spaces.entries(), self.entries.as_slice(), at);
        push_called(&mut self.entries, parts_at(source.parts, number), at, body)?;
        Ok(())
    }

    /// Adds the statements directly in the macro of the call at a place, if it is a call that is unfolded.
    fn open_call(
        &mut self,
        alloc: Global,
        source: &Source,
        at: usize,
        scope: &mut ScopeList,
        own: &mut ScopeList,
    ) -> Result<(), NoMemory>
        requires source { IsSource source.now }
        requires brought { AreBrought source.now.spaces.now self.old }
        requires turn { AreInTurn source.now.spaces.now self.old.entries.items self.old.bodies.items at }
        requires within { at < length (entries_in source.now.spaces.now) + length self.old.entries.items }
        requires as_call { OpensAsCall source.now.spaces.now self.old.entries.items at }
        ensures brought { OnOk result (AreBrought source.now.spaces.now self.new) }
        ensures turn { OnOk result (AreInTurn source.now.spaces.now self.new.entries.items self.new.bodies.items (at + 1)) }
        ensures opened { OnOk result ((p : Placed) → slice_get (placed_in source.now.spaces.now self.old.entries.items) at ≡ Some p
            → placed_in source.now.spaces.now self.new.entries.items ≡ placed_in source.now.spaces.now self.old.entries.items ++ opens_placed (written_in source.now.spaces.now) (all_standing source.now.spaces.now) p) }
    {
        let Some(called) = unfolded_at(alloc, source, self, at, scope)? else {
            return Ok(());
        };
        let shared = body_scope(
            alloc,
            source.spaces,
            self,
            at,
            called,
            scope.as_slice(),
            own,
        )?;
        let space = space_at(source.spaces, self, at);
        let entries = source.spaces.entries();
        let number = standing_statement(entries, called);
        let body = self.bodies.len();
        let spot = spot_of(source.spaces.statements(), entries, called);
        keep_first(&mut self.firsts, spot, body)?;
        self.bodies.push(Body {
            call: at,
            macro_rank: called,
            space,
            scope: shared,
        })?;
        push_called(&mut self.entries, parts_at(source.parts, number), at, body)?;
        Ok(())
    }

    /// The body to which the statement at a place belongs, where that is an optional or a booleanif that a call brings.
    fn inner_body(&self, source: &Source, at: usize) -> Option<usize>
        requires source { IsSource source.now }
        requires within { at < length (entries_in source.now.spaces.now) + length self.now.entries.items }
        ensures { MatchOption result (OpensAsCall source.now.spaces.now self.now.entries.items at)
            (IsInnerOf (written_in source.now.spaces.now) self.now.entries.items (length (all_standing source.now.spaces.now)) at) }
    {
        let standing = source.spaces.entries().len();
        if at < standing {
            return None;
        }
        let called = self.entries[at - standing];
        if !keeps_place_at(source.spaces.statements(), called.statement) {
            return None;
        }
        Some(called.body)
    }
}

/// Adds the statements that a call brings, or those in an optional or a booleanif of its body.
fn push_called(
    called: &mut Vec<Called>,
    numbers: &[usize],
    opener: usize,
    body: usize,
) -> Result<(), NoMemory>
    ensures { OnOk result (called.new.items ≡ called.old.items ++ map (called_by opener body) numbers.now) }
{
    for number in numbers {
        called.push(Called {
            statement: *number,
            opener,
            body,
        })?;
    }
    Ok(())
}
