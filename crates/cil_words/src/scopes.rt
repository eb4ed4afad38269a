//! The scopes in which words were looked up last, kept for those that come next.

ghost use Rattle.std.specs.Prelude.{◌≡◌, IsTrue, None, OnOk};
ghost use Rattle.cil_macros.specs.Items.{all_placed, namespaces_in, scope_by};
ghost use Rattle.cil_macros.specs.Walks.{IsScope};
ghost use Rattle.cil_words.specs.Scopes.{IsLast};

use cil_base::NoMemory;
use cil_blocks::ScopeList;
use cil_macros::Instances;
use std::alloc::Global;

/// The scope of a place. Statements that stand beside one another have one scope, which is filled once for all of them.
#[derive(Drop)]
pub struct LastScope {
    /// The namespaces, by their numbers.
    pub scope: ScopeList,
    /// The place; none while no scope is filled.
    pub of: Option<usize>,
    /// What the word that was looked up last could name. It is kept for its memory alone.
    pub found: Vec<usize>,
}

/// The scope of the last statement of which a word asked for it, and that of the last other place in which a word of a statement
/// was looked up, as an argument of a macro is.
#[derive(Drop)]
pub struct Scopes {
    pub own: LastScope,
    pub other: LastScope,
}

impl Scopes {
    /// No scopes.
    pub fn new(alloc: Global) -> Scopes
        ensures own { result.own.of ≡ None }
        ensures other { result.other.of ≡ None }
    {
        Scopes {
            own: LastScope::new(alloc),
            other: LastScope::new(alloc),
        }
    }
}

impl LastScope {
    /// No scope of any place.
    fn new(alloc: Global) -> LastScope
        ensures { result.of ≡ None }
    {
        LastScope {
            scope: ScopeList::new(alloc),
            of: None,
            found: Vec::new(alloc),
        }
    }

    /// Fills the scope of a place, unless it is the one that is there. Error: out of memory.
    pub fn fill(
        &mut self,
        alloc: Global,
        instances: &Instances,
        place: Option<usize>,
    ) -> Result<(), NoMemory>
        requires last { IsLast instances.now self.old }
        ensures filled { OnOk result (IsScope (namespaces_in instances.now) (scope_by (all_placed instances.now) place) self.new.scope) }
        ensures last { OnOk result (IsLast instances.now self.new) }
    {
        if self.is_of(instances, place) {
            return Ok(());
        }
        instances.scope_into(alloc, place, &mut self.scope)?;
        self.of = place;
        Ok(())
    }

    /// Whether the scope that is there is that of a place. It costs one step.
    fn is_of(&self, instances: &Instances, place: Option<usize>) -> bool
        requires { IsLast instances.now self.now }
        ensures { IsTrue result → IsScope (namespaces_in instances.now) (scope_by (all_placed instances.now) place) self.now.scope }
    {
        let Some(at) = place else {
            return false;
        };
        let Some(before) = self.of else {
            return false;
        };
        let count = instances.len();
        if at >= count || before >= count {
            return false;
        }
        instances.have_one_scope(before, at)
    }
}
