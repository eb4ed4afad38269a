//! Classes that statements join to two different commons.

ghost use Rattle.std.specs.Prelude.{◌≡◌, ◌↔◌, ◌<◌, ◌⊎◌, Contains, IfOk, MatchOption, None, length, true, ℕ};
ghost use Rattle.std.specs.List.Sorted.{IsStrictlySortedBy};
ghost use Rattle.cil_syntax.specs.Forms.{two_words};
ghost use Rattle.cil_macros.specs.Items.{item_at, items_in, namespaces_in};
ghost use Rattle.cil_names.specs.Entries.{AreEntries};
ghost use Rattle.cil_names.specs.Resolves.{is_class_common};
ghost use Rattle.cil_names.specs.SharedOrder.{shared_cmp};
ghost use Rattle.cil_names.specs.declared.shared.Shared.{Shared as APair};
ghost use Rattle.cil_classes.specs.Commons.{IsBeside, IsFirst, IsFlagged, IsJoinedAt, IsTwice, cause_of};

use cil_base::NoMemory;
use cil_macros::{Instances, ScopeList};
use cil_names::{Names, Shared, shared_at};
use cil_syntax::{FaultCode, Spot};
use std::alloc::Global;

/// What is wrong with the class of a statement, and the word at which it is told.
#[derive(Clone, Copy)]
pub struct Wrong<'a> {
    /// It has too many permissions; else it has two commons.
    pub wide: bool,
    /// Where the word is written.
    pub at: Spot,
    /// The word.
    pub bytes: &'a [u8],
}

/// The fault that is told of a class.
pub fn cause_of(wide: bool) -> FaultCode
    ensures { result ≡ cause_of wide }
{
    if wide {
        FaultCode::ClassWide
    } else {
        FaultCode::CommonTwice
    }
}

/// That the class which the first of two words names has two commons, told of the statement at a place, if it joins a common to it.
pub fn class_word<'a>(instances: &Instances<'_, '_, 'a>, at: usize) -> Option<Wrong<'a>>
    requires { at < length (items_in instances.now) }
    ensures { is_class_common (item_at instances.now at).keyword ≡ true → MatchOption result (two_words (item_at instances.now at).args ≡ None)
        (λ word. IsFirst (two_words (item_at instances.now at).args) (cause_of word.wide) word.at word.bytes.now) }
{
    let statement = instances.statement_there(at);
    let Some(words) = statement.two_words() else {
        return None;
    };
    let said = instances.word(at, &words.first);
    Some(Wrong {
        wide: false,
        at: said.word.at,
        bytes: said.word.bytes.as_slice(),
    })
}

/// The class and the common that the statement at a place joins, if it is a classcommon statement whose words name both.
pub fn joined_at(
    alloc: Global,
    instances: &Instances,
    names: &Names,
    at: usize,
) -> Result<Option<Shared>, NoMemory>
    requires entries { AreEntries (namespaces_in instances.now) (items_in instances.now) names.now }
    requires within { at < length (items_in instances.now) }
    ensures { IfOk result (IsJoinedAt instances.now names.now at) }
{
    let mut scope = ScopeList::new(alloc);
    shared_at(alloc, instances, names, at, &mut scope)
}

/// For each entry whether it is that of a class to which two commons are joined. Pairs of one class are neighbours.
pub fn flags_of_two(alloc: Global, entries: usize, shared: &[Shared]) -> Result<Vec<bool>, NoMemory>
    requires rising { IsStrictlySortedBy shared_cmp shared.now }
    requires within { (h : APair) → Contains shared.now h → h.class < entries }
    ensures { IfOk result (λ flags. (d : ℕ) → IsFlagged flags.items d ↔ IsTwice shared.now d) }
{
    let mut flags = vec![in alloc; false; entries]?;
    for at in 0..shared.len() {
        flag_next(&mut flags, shared, at);
    }
    Ok(flags)
}

/// Flags the class of the pair at a place, if the next one is of the same class.
fn flag_next(flags: &mut Vec<bool>, shared: &[Shared], at: usize)
    requires here { at < length shared.now }
    requires within { (h : APair) → Contains shared.now h → h.class < length flags.old.items }
    ensures len { length flags.new.items ≡ length flags.old.items }
    ensures flagged { (d : ℕ) → IsFlagged flags.new.items d ↔ (IsFlagged flags.old.items d ⊎ IsBeside shared.now at d) }
{
    let Some(next) = shared.get(at + 1) else {
        return;
    };
    let class = shared[at].class;
    if next.class != class {
        return;
    }
    flags[class] = true;
}
