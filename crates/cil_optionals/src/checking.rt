//! A check of a choice of optionals: whether it is the right one. It costs a pass over the reasons, the words of all optionals
//! and the optionals round all declarations.

ghost use Rattle.std.specs.Prelude.{◌≡◌, ◌↔◌, IfOk, IsTrue, Some, false, length, slice_get, true};
ghost use Rattle.std.specs.List.{list_all};
ghost use Rattle.cil_names.specs.Entries.{is_in};
ghost use Rattle.cil_optionals.specs.Parts.{IsShown, Part, asked_at, holds_in, is_outside, is_step as is_step_of, is_well as is_well_of, is_well_inside, lacks, parts_in};
ghost use Rattle.cil_optionals.specs.Times.{after, names_after as named_after};
ghost use Rattle.cil_optionals.specs.declared.reason.Reason.TheVariants.{Missing, ParentOut};
ghost use Rattle.cil_optionals.specs.Times.{AreSteps, AreWell, IsEnabledAfter};

use crate::chosen::Chosen;
use crate::parts::Parts;
use crate::reason::Reason;
use crate::times::{entry_times, is_after, names_after, times_of};
use cil_base::NoMemory;
use cil_names::{Entry, OptSet, is_set};
use std::alloc::Global;

/// Whether a choice is right.
pub fn is_shown(
    alloc: Global,
    parts: &Parts,
    entries: &[Entry],
    chosen: &Chosen,
) -> Result<bool, NoMemory>
    ensures { IfOk result (λ b. IsTrue b ↔ IsShown (parts_in parts.now) entries.now (is_in chosen.now.enabled) chosen.now.reasons.items) }
{
    let reasons = chosen.reasons.as_slice();
    let times = times_of(alloc, parts, reasons)?;
    let entries = entry_times(alloc, entries, times.as_slice(), reasons.len() + 1)?;
    let check = Check {
        parts,
        times: times.as_slice(),
        entries: entries.as_slice(),
    };
    Ok(check.is_right(&chosen.enabled, reasons))
}

/// What a check goes by.
#[derive(Clone, Copy)]
pub struct Check<'r, 's, 'p, 'a> {
    pub parts: &'r Parts<'r, 's, 'p, 'a>,
    /// For how many steps each optional is left.
    pub times: &'r [usize],
    /// For how many steps each entry is declared.
    pub entries: &'r [usize],
}

impl Check<'_, '_, '_, '_> {
    /// Whether the reasons hold one after the other, the enabled optionals are those that stay, and all is well with these.
    fn is_right(&self, enabled: &OptSet, reasons: &[Reason]) -> bool
        ensures { IsTrue result ↔ (AreSteps (parts_in self.now.parts.now) self.now.times.now self.now.entries.now reasons.now
            × IsEnabledAfter self.now.times.now (length reasons.now) enabled.now
            × AreWell (parts_in self.now.parts.now) self.now.times.now self.now.entries.now (length reasons.now)) }
    {
        self.are_steps(reasons)
            && self.are_enabled(enabled.as_slice(), reasons.len())
            && self.are_well(reasons.len())
    }

    /// Whether each reason holds where the optionals of those before it are out, and takes out one that is left.
    fn are_steps(&self, reasons: &[Reason]) -> bool
        ensures { IsTrue result ↔ AreSteps (parts_in self.now.parts.now) self.now.times.now self.now.entries.now reasons.now }
    {
        for step in 0..reasons.len() {
            if !self.is_step(step, &reasons[step]) {
                return false;
            }
        }
        true
    }

    fn is_step(&self, step: usize, reason: &Reason) -> bool
        ensures { result ≡ is_step_of (parts_in self.now.parts.now) (after self.now.times.now step) (named_after self.now.entries.now step) reason.now }
    {
        is_after(self.times, step, reason.left_out() as usize) && self.holds(step, reason)
    }

    fn holds(&self, step: usize, reason: &Reason) -> bool
        ensures { result ≡ holds_in (parts_in self.now.parts.now) (after self.now.times.now step) (named_after self.now.entries.now step) reason.now }
    {
        match reason {
            Reason::ParentOut { optional } => self.parent_is_out(step, *optional as usize),
            Reason::Missing {
                optional: wanting,
                instance,
                word,
            } => self.is_missing(step, *wanting as usize, *instance as usize, *word as usize),
        }
    }

    /// Whether the optional round an optional is out.
    pub fn parent_is_out(&self, step: usize, optional: usize) -> bool
        ensures { result ≡ holds_in (parts_in self.now.parts.now) (after self.now.times.now step) (named_after self.now.entries.now step) (ParentOut optional) }
    {
        self.is_outside(step, self.parts.inside(optional))
    }

    fn is_outside(&self, step: usize, inside: Option<usize>) -> bool
        ensures { result ≡ is_outside (after self.now.times.now step) inside }
    {
        match inside {
            Some(parent) => !is_after(self.times, step, parent),
            None => false,
        }
    }

    fn is_missing(&self, step: usize, optional: usize, instance: usize, word: usize) -> bool
        ensures { result ≡ holds_in (parts_in self.now.parts.now) (after self.now.times.now step) (named_after self.now.entries.now step) (Missing optional instance word) }
    {
        self.parts.inside(instance) == Some(optional) && self.lacks(step, instance, word)
    }

    /// Whether the word of this number of a statement names nothing.
    fn lacks(&self, step: usize, instance: usize, word: usize) -> bool
        ensures { result ≡ lacks (named_after self.now.entries.now step) (asked_at (parts_in self.now.parts.now) instance) word }
    {
        word < self.parts.count(instance)
            && !names_after(self.entries, step, self.parts.word(instance, word))
    }

    /// Whether the flags are those of the optionals that stay.
    fn are_enabled(&self, flags: &[bool], steps: usize) -> bool
        ensures { IsTrue result ↔ IsEnabledAfter self.now.times.now steps flags.now }
    {
        for number in 0..flags.len().max(self.times.len()) {
            if is_set(flags, number) != is_after(self.times, steps, number) {
                return false;
            }
        }
        true
    }

    /// Whether all is well with each statement after so many steps.
    fn are_well(&self, steps: usize) -> bool
        ensures { IsTrue result ↔ AreWell (parts_in self.now.parts.now) self.now.times.now self.now.entries.now steps }
    {
        for at in 0..self.parts.len() {
            if !self.is_well(steps, at) {
                return false;
            }
        }
        true
    }

    fn is_well(&self, steps: usize, at: usize) -> bool
        ensures { (p : Part) → slice_get (parts_in self.now.parts.now) at ≡ Some p
            → result ≡ is_well_of (after self.now.times.now steps) (named_after self.now.entries.now steps) at p }
    {
        match self.parts.inside(at) {
            Some(optional) => self.is_well_inside(steps, at, optional),
            None => true,
        }
    }

    fn is_well_inside(&self, steps: usize, at: usize, optional: usize) -> bool
        ensures { result ≡ is_well_inside (after self.now.times.now steps) (named_after self.now.entries.now steps) at (asked_at (parts_in self.now.parts.now) at) optional }
    {
        if is_after(self.times, steps, optional) {
            self.all_named(steps, at)
        } else {
            !is_after(self.times, steps, at)
        }
    }

    /// Whether all words of a statement name something after so many steps.
    fn all_named(&self, steps: usize, at: usize) -> bool
        ensures { result ≡ list_all (named_after self.now.entries.now steps) (asked_at (parts_in self.now.parts.now) at) }
    {
        for word in 0..self.parts.count(at) {
            if !names_after(self.entries, steps, self.parts.word(at, word)) {
                return false;
            }
        }
        true
    }
}
