//! The macros that stand, and the one that a call means. To make the table costs a hash for each macro that stands; where a
//! key comes again, the paths of two macros are compared. A look-up costs, for each namespace of the scope, a hash for each
//! name of the word.

ghost use Rattle.std.specs.Prelude.{◌≡◌, ◌<◌, ◌≤◌, ◌∷◌, ◌++◌, IfOk, IfSome, List, Some, length, map, ℕ};
ghost use Rattle.cil_syntax.specs.Program.{IsNested, program_of};
ghost use Rattle.cil_syntax.specs.Scopes.{names_backwards};
ghost use Rattle.cil_syntax.specs.Written.{is_macro};
ghost use Rattle.cil_blocks.specs.Entries.{statement_at};
ghost use Rattle.cil_blocks.specs.Namespaces.{space_at};
ghost use Rattle.cil_blocks.specs.Numbers.{AreWithin};
ghost use Rattle.cil_blocks.specs.Places.{entries_in, spaces_in};
ghost use Rattle.cil_macros.specs.Calls.{is_call, macro_in, macro_in_scope};
ghost use Rattle.cil_macros.specs.Macros.{AreMacros, SaysCalled, SaysNearer, SaysOf, all_standing};

use crate::asked::{asked_in, asked_scope};
use crate::nearest::compare_paths;
use cil_base::NoMemory;
use cil_blocks::Spaces;
use cil_blocks::names::name_at;
use cil_syntax::{Keyword, Statement, Word, path_of, word_and_terms};
use indexmap::IndexMap;
use std::alloc::Global;

/// The macros that stand: for each namespace, by its number, and each name the rank of the one that is meant.
#[derive(Drop)]
pub struct Macros<'a> {
    table: IndexMap<(usize, &'a [u8]), usize>,
}

/// The macros that stand in a program.
pub fn macros_of<'a>(alloc: Global, spaces: &Spaces<'_, 'a>) -> Result<Macros<'a>, NoMemory>
    ensures { IfOk result (AreMacros spaces.now) }
{
    let mut macros = Macros {
        table: IndexMap::new(alloc),
    };
    // Each namespace is there once.
    spaces.namespaces().are_namespaces();
    let mut rank = spaces.entries().len();
    while rank > 0 {
        rank -= 1;
        macros.add(spaces, rank)?;
    }
    Ok(macros)
}

impl<'a> Macros<'a> {
    ghost use Rattle.std.specs.Prelude.{◌≡◌, ◌+◌, ◌<◌, ◌≤◌, OnOk, length};
    ghost use Rattle.cil_blocks.specs.Places.{Standings, entries_in, spaces_in};
    ghost use Rattle.cil_macros.specs.Macros.{AreMacros, AreMacrosFrom, SaysMacro};

    /// Adds what stands at a rank, if it is a macro. Those behind it are there already.
    fn add(&mut self, spaces: &Spaces<'_, 'a>, rank: usize) -> Result<(), NoMemory>
        requires within { rank < length (entries_in spaces.now) }
        requires behind { AreMacrosFrom spaces.now (rank + 1) self.old }
        ensures { OnOk result (AreMacrosFrom spaces.now rank self.new) }
    {
        let number = spaces.entries()[rank].statement as usize;
        if !is_macro_at(spaces.statements(), number) {
            return Ok(());
        }
        let Some(space) = spaces.space(rank) else {
            return Ok(());
        };
        let key = (space, name_at(spaces.statements(), number));
        let meant = nearer(spaces, rank, self.table.get(&key).copied());
        self.table.insert(key, meant)?;
        Ok(())
    }

    /// The rank of the macro of a name in the namespace of a number.
    fn get(&self, space: usize, name: &[u8]) -> Option<usize>
        ensures { (s : Standings) → AreMacros s self.now → space ≤ length (spaces_in s) → SaysMacro s space name.now result }
    {
        self.table.get(&(space, name)).copied()
    }
}

/// The rank of the nearer one of what stands at a rank and of what stands behind it, if there is that.
fn nearer(spaces: &Spaces, rank: usize, behind: Option<usize>) -> usize
    requires rank { rank < length (entries_in spaces.now) }
    requires behind { IfSome behind (λ k. k < length (entries_in spaces.now)) }
    ensures { SaysNearer (all_standing spaces.now) rank behind result }
{
    let Some(other) = behind else {
        return rank;
    };
    if compare_paths(spaces.statements(), spaces.entries(), rank, other).is_gt() {
        return other;
    }
    rank
}

/// Whether the statement of a number is a macro.
pub fn is_macro_at(statements: &[Statement], number: usize) -> bool
    requires { IsNested statements.now }
    ensures { result ≡ is_macro (statement_at (program_of statements.now) number).statement.keyword }
{
    match statements.get(number) {
        None => false,
        Some(statement) => is_macro(statement.keyword),
    }
}

/// Whether a statement of a keyword is a macro.
pub(crate) fn is_macro(keyword: Keyword) -> bool
    ensures { result ≡ is_macro keyword }
{
    matches!(keyword, Keyword::Macro)
}

/// The rank of the macro that the statement of a number calls in a scope: none if it is no call, or names no macro.
pub fn macro_called(
    spaces: &Spaces,
    macros: &Macros,
    number: usize,
    scope: &[usize],
) -> Option<usize>
    requires macros { AreMacros spaces.now macros.now }
    requires within { AreWithin (spaces_in spaces.now) scope.now }
    ensures { SaysCalled spaces.now number scope.now result }
{
    let statement = spaces.statements().get(number)?;
    if !is_call(statement.keyword) {
        return None;
    }
    let front = word_and_terms(statement.args.as_slice(), statement.at.module)?;
    macro_named(spaces, macros, &front.word, scope)
}

/// Whether the statement of a number calls a macro.
pub fn is_call_at(statements: &[Statement], number: usize) -> bool
    requires { IsNested statements.now }
    ensures { result ≡ is_call (statement_at (program_of statements.now) number).statement.keyword }
{
    match statements.get(number) {
        None => false,
        Some(statement) => is_call(statement.keyword),
    }
}

/// Whether a statement calls a macro.
pub(crate) fn is_call(keyword: Keyword) -> bool
    ensures { result ≡ is_call keyword }
{
    matches!(keyword, Keyword::Call)
}

/// The rank of the macro that a word names in a scope.
fn macro_named(spaces: &Spaces, macros: &Macros, word: &Word, scope: &[usize]) -> Option<usize>
    requires macros { AreMacros spaces.now macros.now }
    requires within { AreWithin (spaces_in spaces.now) scope.now }
    ensures { SaysOf (all_standing spaces.now) (macro_in_scope (all_standing spaces.now) word.now (map (space_at (spaces_in spaces.now)) scope.now)) result }
{
    let path = path_of(word.bytes.as_slice());
    for from in asked_scope(path.global, scope) {
        let named = macro_asked(spaces, macros, *from, path.names);
        if named.is_some() {
            return named;
        }
    }
    None
}

/// The rank of the macro that names ask in the namespace of a number.
fn macro_asked(spaces: &Spaces, macros: &Macros, from: usize, names: &[u8]) -> Option<usize>
    requires macros { AreMacros spaces.now macros.now }
    requires within { from ≤ length (spaces_in spaces.now) }
    ensures { (name : List ℕ) (inner : List (List ℕ)) → names_backwards names.now ≡ name ∷ inner
        → SaysOf (all_standing spaces.now) (macro_in (all_standing spaces.now) name (Some (inner ++ space_at (spaces_in spaces.now) from))) result }
{
    let asked = asked_in(spaces.namespaces(), from, names)?;
    macros.get(asked.space, asked.name)
}
