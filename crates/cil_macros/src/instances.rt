//! All instances of statements, as the layers above see them. What they say is in `instance_words.rt`.

ghost use Rattle.std.specs.Prelude.{◌≡◌, ◌<◌, Some, length, slice_get};
ghost use Rattle.cil_macros.specs.Items.{may_say_lists};

use crate::branches::{Branch, branch_at};
use crate::calls::{have_one_scope, scope_at, space_at};
use crate::chain::{Brought, statement_at};
use crate::declared_names::Declared;
use crate::entry::Called;
use crate::nesting::innermost_at;
use crate::openings::Opening;
use cil_base::NoMemory;
use cil_blocks::numbers::Numbers;
use cil_blocks::{Namespaces, ScopeList, Spaces};
use cil_syntax::{Keyword, Statement};
use std::alloc::Global;
use std::marker::Model;

/// All that is placed in a program in which nothing is wrong with the blocks and the calls: what stands, and then what each call
/// brings. Contracts see both as lists, each statement by its number and what opened it.
#[derive(Drop)]
pub struct Instances<'s, 'p, 'a> {
    pub(crate) spaces: &'s Spaces<'p, 'a>,
    pub(crate) brought: Brought,
    pub(crate) declared: Declared<'a>,
    pub(crate) openings: Vec<Opening<'a>>,
    pub(crate) innermost: Numbers,
}

impl<'s, 'p, 'a> Model for Instances<'s, 'p, 'a> {
    ghost use Rattle.std.specs.Prelude.{List};
    ghost use Rattle.cil_syntax.specs.contracts.term.Term as term;
    ghost use Rattle.cil_blocks.specs.Places.{Standings};
    ghost use Rattle.cil_macros.specs.declared.entry.Called.{Called};
    ghost use Rattle.cil_macros.specs.Instances.{AreInstances, AreMeant, HasRounds};
    ghost use Rattle.std.specs.Coded.{codes};
    ghost use denote.Signature.{static_lft};

    ghost Value = { Standings × List Called };

    ghost coded = { Prim.hlevel (codes, (term.the_row static_lft).coded) };

    ghost view = { λ i. (i.spaces.now, i.brought.entries.items) };

    ghost invariant = { λ i. AreInstances i.spaces.now i.brought × AreMeant i.spaces.now i.brought i.declared i.openings.items × HasRounds i.spaces.now i.brought i.innermost };
}

impl<'s, 'p, 'a> Instances<'s, 'p, 'a> {
    ghost use Rattle.std.specs.Prelude.{◌≡◌, ◌↔◌, ◌+◌, ◌<◌, ◌≤◌, ◌∷◌, [], ℕ, IfOk, IfSome, IsTrue, MatchOption, None, OnOk, Some, length, slice_get, true};
    ghost use Rattle.cil_base.specs.Lists.{Lists};
    ghost use Rattle.cil_syntax.specs.Program.{statement_of};
    ghost use Rattle.cil_syntax.specs.Scopes.{EndsGlobally};
    ghost use Rattle.cil_blocks.specs.Contents.{is_conditional};
    ghost use Rattle.cil_blocks.specs.Entries.{statement_at};
    ghost use Rattle.cil_blocks.specs.Namespaces.{AreNamespaces, IsNumber};
    ghost use Rattle.cil_macros.specs.Items.{all_placed, condition_at, item_at, items_in, namespaces_in, placed_at, scope_by};
    ghost use Rattle.cil_blocks.specs.InheritFaults.{most_instances};
    ghost use Rattle.cil_blocks.specs.Places.{entries_in};
    ghost use Rattle.cil_macros.specs.Calls.{IsPlaced, placed_cmp};
    ghost use Rattle.cil_macros.specs.Depths.{ArePlacedShallow};
    ghost use Rattle.cil_macros.specs.Macros.{all_standing};
    ghost use Rattle.cil_macros.specs.Item.{innermost};
    ghost use Rattle.cil_macros.specs.Rounds.{AreNested};
    ghost use Rattle.cil_macros.specs.Placed.{Placed};
    ghost use Rattle.cil_macros.specs.Walks.{IsScope, placed_in, written_in};

    /// All that stands, with the statements of the program.
    pub fn spaces(&self) -> &'s Spaces<'p, 'a>
        ensures { result.now ≡ self.now.0 }
    {
        self.spaces
    }

    /// What calls bring: by the number of calls and optionals of bodies round it, then by the statements through which it came.
    pub fn called(&self) -> &[Called]
        ensures same { result.now ≡ self.now.1 }
        ensures placed { Lists placed_cmp (IsPlaced (written_in self.now.0) (all_standing self.now.0)) (placed_in self.now.0 self.now.1) }
        ensures few { length (entries_in self.now.0) + length self.now.1 ≤ most_instances }
    {
        self.brought.entries.as_slice()
    }

    /// How many instances there are: at most 1,000,000. Their places count from 0: first what stands, and then what calls bring.
    pub fn len(&self) -> usize
        ensures places { result ≡ length (entries_in self.now.0) + length self.now.1 }
        ensures items { result ≡ length (items_in self.now) }
    {
        self.spaces.entries().len() + self.brought.entries.len()
    }

    /// The namespaces in which statements are placed and words are looked up.
    pub fn namespaces(&self) -> &'s Namespaces<'a>
        ensures value { result.now ≡ namespaces_in self.now }
        ensures once { AreNamespaces result.now }
    {
        let namespaces = self.spaces.namespaces();
        // Each namespace is there once.
        namespaces.are_namespaces();
        namespaces
    }

    /// The statement at a place.
    pub fn statement_there(&self, at: usize) -> &'p Statement<'a>
        requires { at < length (items_in self.now) }
        ensures is { statement_of result.now ≡ (placed_at self.now at).standing.statement.statement }
    {
        numbered(self.spaces.statements(), self.statement(at))
    }

    /// The number of the namespace in which the statement at a place is.
    pub fn space(&self, at: usize) -> usize
        ensures { IsNumber (namespaces_in self.now) (item_at self.now at).space result }
    {
        if at >= self.len() {
            return 0;
        }
        space_at(self.spaces, &self.brought, at)
    }

    /// The number of the innermost optional round the statement at a place: the place of that optional, which is a lower one;
    /// none where it is in no optional. It costs one step.
    pub fn innermost(&self, at: usize) -> Option<usize>
        ensures value { result ≡ innermost (item_at self.now at) }
        ensures round { MatchOption result ((item_at self.now at).round ≡ []) (λ o. (item_at self.now at).round ≡ o ∷ (item_at self.now o).round) }
        ensures lower { IfSome result (λ optional. optional < at) }
    {
        innermost_at(&self.innermost, at)
    }

    /// Whether the statement at a place is in no optional.
    pub fn is_outside(&self, at: usize) -> bool
        ensures { IsTrue result ↔ ((item_at self.now at).round ≡ []) }
    {
        self.innermost(at).is_none()
    }

    /// The numbers of the optionals round the statement at a place, the innermost first. It costs a step for each.
    pub fn round(&self, alloc: Global, at: usize) -> Result<Vec<usize>, NoMemory>
        ensures { IfOk result (λ round. round.items ≡ (item_at self.now at).round) }
    {
        let mut round = Vec::new(alloc);
        let mut place = at;
        while let Some(optional) = self.innermost(place) {
            round.push(optional)?;
            place = optional;
        }
        Ok(round)
    }

    /// In which branch of which booleanif the statement at a place is: the innermost one round it, which is at a lower place; none
    /// where it is in none. What a call in a branch brings is in that branch. It costs a step for each statement through which
    /// it came, up to the booleanif, and takes no memory.
    pub fn branch(&self, at: usize) -> Option<Branch>
        ensures value { MatchOption result ((item_at self.now at).branch ≡ None) (λ b. (item_at self.now at).branch ≡ Some (condition_at self.now b.at, b.value)) }
        ensures booleanif { IfSome result (λ b. is_conditional (item_at self.now b.at).keyword ≡ true) }
        ensures lower { IfSome result (λ b. b.at < at) }
    {
        if at >= self.len() {
            return None;
        }
        branch_at(self.spaces, &self.brought, at)
    }

    /// Each optional round a statement is an optional of these instances, and round it are the others. The call does nothing.
    pub fn are_nested(&self)
        ensures nested { AreNested (items_in self.now) }
    {
        let _ = &self.spaces;
    }

    /// Each scope ends with the global namespace, which is in it once. The call does nothing.
    pub fn are_closed(&self)
        ensures { (at : ℕ) → at < length (items_in self.now) → EndsGlobally (scope_by (all_placed self.now) (Some at)) }
    {}

    /// The terms of what is placed nest at most 127 deep, as it is written. The call does nothing.
    pub fn are_shallow(&self)
        ensures written { ArePlacedShallow (all_placed self.now) }
    {
        let _ = &self.spaces;
    }

    /// Whether the statements at two places have one scope, as far as their places tell: it is told of statements that stand
    /// beside one another, and not of those of a body whose macro has a scope of its own. It costs one step.
    pub fn have_one_scope(&self, at: usize, other: usize) -> bool
        requires one { at < length (items_in self.now) }
        requires other { other < length (items_in self.now) }
        ensures { IsTrue result → scope_by (all_placed self.now) (Some at) ≡ scope_by (all_placed self.now) (Some other) }
    {
        // Each namespace is there once.
        self.namespaces();
        have_one_scope(self.spaces, &self.brought, at, other)
    }

    /// Fills a list with the scope of a place: the namespaces in which its words are looked up, by their numbers. It is empty
    /// where there is no such place.
    pub fn scope_into(
        &self,
        alloc: Global,
        at: Option<usize>,
        scope: &mut ScopeList,
    ) -> Result<(), NoMemory>
        ensures { OnOk result (IsScope (namespaces_in self.now) (scope_by (all_placed self.now) at) scope.new) }
    {
        let Some(place) = at else {
            scope.clear();
            return Ok(());
        };
        if place >= self.len() {
            scope.clear();
            return Ok(());
        }
        // Each namespace is there once.
        self.namespaces();
        scope_at(alloc, self.spaces, &self.brought, place, scope)?;
        Ok(())
    }

    /// The number of the statement at a place.
    pub fn statement(&self, at: usize) -> usize
        requires { at < length (entries_in self.now.0) + length self.now.1 }
        ensures { (p : Placed) → slice_get (placed_in self.now.0 self.now.1) at ≡ Some p → p.standing.statement ≡ statement_at (written_in self.now.0) result }
    {
        statement_at(self.spaces.entries(), self.brought.entries.as_slice(), at)
    }
}

/// The statement of a number.
fn numbered<'p, 'a>(statements: &'p [Statement<'a>], number: usize) -> &'p Statement<'a>
    requires { number < length statements.now }
    ensures { slice_get statements.now number ≡ Some result.now }
{
    &statements[number]
}

/// Whether a statement has a place where a list may stand for a name.
pub fn may_say_lists(keyword: Keyword) -> bool
    ensures { result ≡ may_say_lists keyword }
{
    matches!(
        keyword,
        Keyword::Allow
            | Keyword::AuditAllow
            | Keyword::DontAudit
            | Keyword::NeverAllow
            | Keyword::ClassMapping
            | Keyword::SensitivityCategory
            | Keyword::CategorySet
            | Keyword::Level
            | Keyword::LevelRange
            | Keyword::UserLevel
            | Keyword::UserRange
            | Keyword::RangeTransition
            | Keyword::Constrain
            | Keyword::MlsConstrain
    )
}
