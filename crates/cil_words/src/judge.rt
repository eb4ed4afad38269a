//! The words outside all optionals that name nothing, by the table of what all instances ask for.

ghost use Rattle.std.specs.Prelude.{◌≡◌, ◌<◌, ◌++◌, ◌∷◌, [], List, OnOk, get_or, length, map, true};
ghost use Rattle.std.specs.List.{flat_map, list_all};
ghost use Rattle.cil_faults.specs.Refusal.{Answers};
ghost use Rattle.cil_faults.specs.Reported.{fault_at};
ghost use Rattle.cil_faults.specs.declared.code.FaultCode.TheVariants as causes;
ghost use Rattle.cil_macros.specs.Item.{OptSet as AnOptSet};
ghost use Rattle.cil_macros.specs.Items.{all_placed, item_at, items_in, namespaces_in, scoped_by};
ghost use Rattle.cil_names.specs.Asked.{wanted_by};
ghost use Rattle.cil_names.specs.Entries.{AreEntries, is_in};
ghost use Rattle.cil_names.specs.Faults.{ResolveFault};
ghost use Rattle.cil_names.specs.Resolves.{Permission as APermission, Word as AWord, resolves};
ghost use Rattle.cil_names.specs.Unresolved.{fault_of_word, faults_in, faults_of_all, faults_of_wanted};
ghost use Rattle.cil_names.specs.declared.entry.Entry.{Entry as AnEntry};
ghost use Rattle.cil_syntax.specs.Scopes.{ScopedWord};
ghost use Rattle.cil_words.specs.Judged.{IsJudge, StandAt, could_by, has_one, items_by, of_words, row_by, space_by, unless, wanted_behind};
ghost use Rattle.cil_words.specs.Table.{AreAsks, could_in};

use crate::asks::Asks;
use crate::settled_rows::first_declared;
use cil_base::NoMemory;
use cil_blocks::spelled::spelled;
use cil_macros::{Instances, PlacedWord};
use cil_names::asked::{Asked, asked_at};
use cil_names::{Names, OptSet, flags_of};
use cil_syntax::{Failure, Fault, FaultCode, push_fault_in, refuse};
use std::alloc::Global;

/// Judges what all statements outside optionals ask for, by the names that are declared where these optionals are in force. It
/// costs a step for each entry that a word could name; only where a statement is at fault its words are listed once more.
///
/// Errors: a fault 41 for each such word that names nothing, and each permission that the class of its class word lacks; or out of
/// memory.
pub fn judged<'r, 'a>(
    alloc: Global,
    instances: &'r Instances<'_, '_, 'a>,
    names: &'r Names<'a>,
    asks: &'r Asks,
    enabled: &'r OptSet,
) -> Result<(), Failure>
    requires entries { AreEntries (namespaces_in instances.now) (items_in instances.now) names.now }
    requires asks { AreAsks (namespaces_in instances.now) names.now (items_in instances.now) (could_in asks.now) }
    ensures { Answers (λ done. Unit {0}) (ResolveFault (is_in enabled.now) (items_in instances.now)) result }
{
    // What is known of the namespaces.
    instances.namespaces();
    let declared = flags_of(alloc, names.entries(), enabled.as_slice())?;
    let judge = Judge {
        alloc,
        instances,
        asks,
        declared: declared.as_slice(),
    };
    let mut faults = Vec::new(alloc);
    for at in 0..instances.len() {
        judge.instance(&mut faults, at)?;
    }
    refuse(faults)
}

/// What statements are judged by.
#[derive(Clone, Copy)]
struct Judge<'r, 's, 'p, 'a> {
    alloc: Global,
    instances: &'r Instances<'s, 'p, 'a>,
    asks: &'r Asks,
    /// For each entry whether it is declared.
    declared: &'r [bool],
}

impl<'r> Judge<'r, '_, '_, '_> {
    /// Reports what the statement at a place asks for and does not get, if it is in no optional.
    fn instance(&'r self, faults: &mut Vec<Fault>, at: usize) -> Result<(), NoMemory>
        requires { at < length (items_in self.now.instances.now) }
        ensures { OnOk result ((es : List AnEntry) (s : AnOptSet) → IsJudge self.now es s
            → faults.new.items ≡ faults.old.items ++ faults_in (items_by self.now) s (item_at self.now.instances.now at)) }
    {
        if !self.instances.is_outside(at) {
            return Ok(());
        }
        if self.is_full(at) {
            return Ok(());
        }
        self.tell_all(faults, at)
    }

    /// Whether each word of the statement at a place names something, and each permission.
    fn is_full(&'r self, at: usize) -> bool
        ensures { result ≡ list_all (has_one self.now.declared.now) (row_by self.now at) }
    {
        for number in 0..self.asks.count(at) {
            if !self.is_live(at, number) {
                return false;
            }
        }
        true
    }

    /// Whether one of the entries is declared that a word of the statement at a place could name.
    fn is_live(&'r self, at: usize, number: usize) -> bool
        ensures { result ≡ has_one self.now.declared.now (get_or (row_by self.now at) number []) }
    {
        first_declared(self.declared, self.asks.word(at, number)).is_some()
    }

    /// Reports what the statement at a place asks for and does not get. It lists its words.
    fn tell_all(&'r self, faults: &mut Vec<Fault>, at: usize) -> Result<(), NoMemory>
        requires { at < length (items_in self.now.instances.now) }
        ensures { OnOk result ((es : List AnEntry) (s : AnOptSet) → IsJudge self.now es s
            → faults.new.items ≡ faults.old.items ++ of_words (items_by self.now) s (item_at self.now.instances.now at)) }
    {
        let asked = asked_at(self.alloc, self.instances, at)?;
        self.tell(faults, at, asked.as_slice())
    }

    /// Reports those of some things, all that a statement asks for, that it does not get.
    fn tell(&'r self, faults: &mut Vec<Fault>, at: usize, asked: &[Asked]) -> Result<(), NoMemory>
        ensures { OnOk result ((es : List AnEntry) (s : AnOptSet) → IsJudge self.now es s
            → row_by self.now at ≡ map (could_by self.now es) (flat_map (wanted_by (all_placed self.now.instances.now)) asked.now)
            → faults.new.items ≡ faults.old.items ++ flat_map (λ one. faults_of_all (items_by self.now) s (space_by self.now at) (wanted_by (all_placed self.now.instances.now) one)) asked.now) }
    {
        let mut number = 0;
        for one in asked {
            self.tell_one(faults, at, number, one)?;
            let Some(next) = one.len().checked_add(number) else {
                return Err(NoMemory);
            };
            number = next;
        }
        Ok(())
    }

    /// The same of one of them, whose first word has this number. Permissions are asked for only where their class is there.
    fn tell_one(
        &'r self,
        faults: &mut Vec<Fault>,
        at: usize,
        number: usize,
        one: &Asked,
    ) -> Result<(), NoMemory>
        ensures { OnOk result ((es : List AnEntry) (s : AnOptSet) → IsJudge self.now es s
            → StandAt (could_by self.now es) (row_by self.now at) number (wanted_by (all_placed self.now.instances.now) one.now)
            → faults.new.items ≡ faults.old.items ++ faults_of_all (items_by self.now) s (space_by self.now at) (wanted_by (all_placed self.now.instances.now) one.now)) }
    {
        match one {
            Asked::Word(word) => self.unless_live(faults, at, number, word),
            Asked::ClassList(class, permissions) => {
                if self.is_live(at, number) {
                    self.tell_permissions(faults, at, number, permissions.as_slice())
                } else {
                    report(self.alloc, self.instances, faults, at, class)
                }
            }
        }
    }

    /// Reports the permissions that a class lacks. The class word before them has this number.
    fn tell_permissions(
        &'r self,
        faults: &mut Vec<Fault>,
        at: usize,
        number: usize,
        permissions: &[PlacedWord],
    ) -> Result<(), NoMemory>
        ensures { OnOk result ((es : List AnEntry) (s : AnOptSet) (c : ScopedWord) → IsJudge self.now es s → resolves (items_by self.now) s (AWord c) ≡ true
            → StandAt (could_by self.now es) (row_by self.now at) number (wanted_behind (all_placed self.now.instances.now) c permissions.now)
            → faults.new.items ≡ faults.old.items ++ flat_map (λ p. faults_of_wanted (items_by self.now) s (space_by self.now at) (APermission c (scoped_by (all_placed self.now.instances.now) p))) permissions.now) }
    {
        let mut place = number;
        for permission in permissions {
            let Some(next) = place.checked_add(1) else {
                return Err(NoMemory);
            };
            place = next;
            self.unless_live(faults, at, place, permission)?;
        }
        Ok(())
    }

    /// Reports a word, unless an entry is declared that the word of this number could name.
    fn unless_live(
        &'r self,
        faults: &mut Vec<Fault>,
        at: usize,
        number: usize,
        word: &PlacedWord,
    ) -> Result<(), NoMemory>
        ensures { OnOk result (faults.new.items ≡ faults.old.items
            ++ unless (has_one self.now.declared.now (get_or (row_by self.now at) number [])) (fault_of_word (space_by self.now at) (scoped_by (all_placed self.now.instances.now) word.now))) }
    {
        if self.is_live(at, number) {
            return Ok(());
        }
        report(self.alloc, self.instances, faults, at, word)
    }
}

/// Reports a word of the statement at a place.
fn report(
    alloc: Global,
    instances: &Instances,
    faults: &mut Vec<Fault>,
    at: usize,
    word: &PlacedWord,
) -> Result<(), NoMemory>
    ensures { OnOk result (faults.new.items ≡ faults.old.items ++ fault_at causes.Unresolved word.now.word.at (item_at instances.now at).space word.now.word.bytes ∷ []) }
{
    let space = spelled(alloc, instances.namespaces(), instances.space(at))?;
    let bytes = word.word.bytes.as_slice();
    push_fault_in(
        alloc,
        faults,
        FaultCode::Unresolved,
        word.word.at,
        space,
        bytes,
    )
}
