//! What rules cover, by the index.

ghost use Rattle.std.specs.Prelude.{◌≡◌, ◌≤◌, ◌<◌, ◌+◌, ◌↔◌, ℕ, suc, [], get_or, length, IsBitSet, Contains};
ghost use Rattle.cil_rules.specs.Covers.{HasCover};
ghost use Rattle.cil_index.specs.Entries.{AreBelow, IsIndex, RiseIn, alone_key};
ghost use Rattle.cil_index.specs.Found.{IsAmongSeveral, IsTheAlone};
ghost use Rattle.cil_index.specs.Memberships.{AreMemberships};
ghost use Rattle.cil_rules.specs.conditions.Bits.{is_on};
ghost use Rattle.cil_index.specs.Search.{CoversIn, HandOverIn, HandsAllIn, HandsIn, HasRun, IsKnownSource, IsSearch, IsSound};
ghost use Rattle.cil_index.specs.Searched.{rules_in};
ghost use Rattle.cil_index.specs.Sets.{set_of};

use crate::asked::{Aims, Asked, Searched, Step, aims_of};
use crate::index::{Bounds, Index};
use crate::key::type_key;
use crate::matches::mask_known;
use crate::search::near_start;
use cil_rules::Settings;

/// The permissions that the rules cover, by their index. It takes no memory: for the target, for each set that has the source, and for each large one, it
/// costs a step for each aim of a part of this heading, or two searches where these are many, and a test of each rule that may be on both types.
pub fn covered(searched: &Searched, index: &Index, settings: &Settings, asked: &Asked) -> u32
    requires index { IsIndex searched.now.sets.now searched.now.records.now index.now }
    requires memberships { AreMemberships searched.now.sets.now searched.now.memberships.now }
    ensures { (bit : ℕ) → IsBitSet result bit ↔ HasCover (is_on settings.now) (rules_in searched.now) asked.now.source asked.now.target asked.now.class bit }
{
    if index.is_empty() {
        return 0;
    }
    let sources = aims_of(searched.memberships, &asked.turned());
    let targets = aims_of(searched.memberships, asked);
    let of_target = Search {
        searched: &*searched,
        index: &*index,
        settings: &*settings,
        asked: &*asked,
        aims: &sources,
    };
    let of_source = Search {
        searched: &*searched,
        index: &*index,
        settings: &*settings,
        asked: &*asked,
        aims: &targets,
    };
    of_target.by_target() | of_source.by_alone() | of_source.by_large() | of_source.by_own()
}

/// What a search is given: the rules and their index, the settings, what is asked, and what is searched for among the aims under a heading.
#[derive(Clone, Copy)]
pub struct Search<'s> {
    searched: &'s Searched<'s>,
    index: &'s Index,
    settings: &'s Settings,
    asked: &'s Asked,
    aims: &'s Aims,
}

impl Search<'_> {
    /// The permissions of the rules that reach just the target, and that cover what is asked: their sources are one type alone, or several.
    fn by_target(&self) -> u32
        requires { IsSearch self.now }
        ensures sound { IsSound self.now result }
        ensures all { HandsAllIn self.now (length self.now.searched.now.sets.now + alone_key self.now.asked.now.target) result }
    {
        let heading = self.searched.sets.behind(type_key(self.asked.target));
        let bounds = self.index.bounds(heading, self.aims.several);
        let alone = self.first_of(bounds, self.aims.alone);
        let several = self.first_of(alone, self.aims.several);
        self.of_alone(alone) | self.of_several(None, several)
    }

    /// The permissions of the rules whose source is just this type, and that cover what is asked.
    fn by_alone(&self) -> u32
        requires { IsSearch self.now }
        ensures sound { IsSound self.now result }
        ensures all { HandOverIn self.now (λ n. n ≡ suc self.now.asked.now.source) result }
    {
        if self.asked.source >= self.index.room() {
            return 0;
        }
        self.by_heading(self.asked.source + 1, None)
    }

    /// The permissions of the rules whose sources are one of the sets that are asked for every type, and that cover what is asked.
    fn by_large(&self) -> u32
        requires { IsSearch self.now }
        ensures sound { IsSound self.now result }
        ensures all { HandOverIn self.now (λ n. (self.now.searched.now.memberships.now.first_large ≤ n) × (n < length self.now.searched.now.sets.now)) result }
    {
        let mut mask = 0;
        for number in self.searched.memberships.first_large..self.searched.sets.count() {
            mask |= self.by_heading(number, None);
        }
        mask
    }

    /// The permissions of the rules whose sources are a set that is noted for the source, and that cover what is asked.
    fn by_own(&self) -> u32
        requires { IsSearch self.now }
        ensures sound { IsSound self.now result }
        ensures all { HandOverIn self.now (λ n. Contains (get_or self.now.searched.now.memberships.now.lists.items self.now.asked.now.source []) n) result }
    {
        self.by_sources(self.searched.memberships.of_type(self.asked.source))
    }

    /// The permissions of the rules whose sources are one of these sets, which have the source, and that cover what is asked.
    fn by_sources(&self, numbers: &[u32]) -> u32
        requires search { IsSearch self.now }
        requires has { (n : ℕ) → Contains numbers.now n → Contains (set_of self.now.searched.now.sets.now n) self.now.asked.now.source }
        ensures sound { IsSound self.now result }
        ensures all { HandOverIn self.now (λ n. Contains numbers.now n) result }
    {
        let mut mask = 0;
        for number in numbers {
            mask |= self.by_heading(*number as usize, Some(*number));
        }
        mask
    }

    /// The permissions of the rules under a heading that cover what is asked, and whose other side is several types. The set of a number that is handed on is
    /// known to have the source.
    fn by_heading(&self, heading: usize, known: Option<u32>) -> u32
        requires search { IsSearch self.now }
        requires known { IsKnownSource self.now known }
        ensures sound { IsSound self.now result }
        ensures all { HandsIn self.now heading result }
    {
        let bounds = self.index.bounds(heading, self.aims.several);
        let several = self.first_of(bounds, self.aims.several);
        self.of_several(known, several)
    }

    /// The part of some aims that begins with the first that is not below an aim, where they are many. Few are gone through one by one anyway.
    fn first_of(&self, bounds: Bounds, aim: u32) -> Bounds
        requires within { bounds.to ≤ length self.now.index.now.aims.items }
        requires rising { RiseIn self.now.index.now.aims.items bounds.start bounds.to }
        ensures same { result.to ≡ bounds.to }
        ensures behind { bounds.start ≤ result.start }
        ensures below { AreBelow self.now.index.now.aims.items bounds.start result.start aim }
    {
        if bounds.are_few() {
            return bounds;
        }
        Bounds {
            start: near_start(&self.index.aims, bounds.start, bounds.to, aim),
            to: bounds.to,
        }
    }

    /// The permissions of the rules of some aims that cover what is asked, and whose other side is several types.
    fn of_several(&self, known: Option<u32>, bounds: Bounds) -> u32
        requires search { IsSearch self.now }
        requires known { IsKnownSource self.now known }
        requires within { bounds.to ≤ length self.now.index.now.aims.items }
        requires rising { RiseIn self.now.index.now.aims.items bounds.start bounds.to }
        ensures sound { IsSound self.now result }
        ensures all { HasRun self.now (IsAmongSeveral self.now.aims.now) bounds.start bounds.to result }
    {
        let mut mask = 0;
        for at in bounds.start..bounds.to {
            match self.aims.step(self.index.aims[at]) {
                Step::Read => mask |= self.mask_at(known, at),
                Step::Pass => {}
                Step::End => return mask,
            }
        }
        mask
    }

    /// The permissions of the rules of some aims that cover what is asked, and whose other side is one type alone.
    fn of_alone(&self, bounds: Bounds) -> u32
        requires search { IsSearch self.now }
        requires within { bounds.to ≤ length self.now.index.now.aims.items }
        requires rising { RiseIn self.now.index.now.aims.items bounds.start bounds.to }
        ensures sound { IsSound self.now result }
        ensures all { HasRun self.now (IsTheAlone self.now.aims.now) bounds.start bounds.to result }
    {
        let mut mask = 0;
        for at in bounds.start..bounds.to {
            let aim = self.index.aims[at];
            if aim > self.aims.alone {
                return mask;
            }
            if aim == self.aims.alone {
                mask |= self.mask_at(None, at);
            }
        }
        mask
    }

    /// The permissions of the rule at a place, where it is on what is asked.
    fn mask_at(&self, known: Option<u32>, at: usize) -> u32
        requires search { IsSearch self.now }
        requires known { IsKnownSource self.now known }
        ensures { (bit : ℕ) → IsBitSet result bit ↔ CoversIn self.now at bit }
    {
        mask_known(self.searched, self.settings, self.asked, known, at)
    }
}
