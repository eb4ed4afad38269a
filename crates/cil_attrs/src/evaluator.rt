//! The values of set expressions, as sets of numbers.

ghost use Rattle.std.specs.Prelude.{◌≡◌, ◌||◌, ℕ, List, IfOk, OnOk, Option};
ghost use Rattle.cil_syntax.specs.declared.term.Word.{Word as AWord};
ghost use Rattle.cil_syntax.specs.Said.{all_said, said_of};
ghost use Rattle.cil_syntax.specs.declared.kind.Kind as kinds;
ghost use Rattle.cil_syntax.specs.Scopes.{ScopedWord};
ghost use Rattle.cil_known.specs.macros.Item.{Item};
ghost use Rattle.cil_known.specs.declared.known.Known.{Known as Lookups};
ghost use Rattle.cil_known.specs.names.Declarations.{Symbol};
ghost use Rattle.cil_known.specs.Family.{Family, in_value, no_range};
ghost use Rattle.cil_known.specs.Known.{IsKnown, enabled_in, meant_in};
ghost use Rattle.cil_known.specs.Spaces.{SpaceOf};
ghost use Rattle.cil_known.specs.names.Unresolved.{term_with};
ghost use Rattle.cil_base.specs.Among.{among};
ghost use Rattle.cil_attrs.specs.Holding.{AreAll, HoldAs, IsItem};
ghost use Rattle.cil_attrs.specs.Evaluated.{as_way, BeginWith, BeginWithAll, ended, folded, has_meant, in_form, in_term, is_held, joined_by, started, test_by};

use crate::way::{Way, joining_of, way_of};
use cil_base::NoMemory;
use cil_known::{Meaning, behind_first, meaning_at, names_laws as laws};
use cil_sets::{Joining, Numbers};
use cil_syntax::Term;
use std::alloc::Global;

/// What a word that names an entry stands for.
#[derive(Drop)]
pub enum Held {
    /// Nothing: the entry is of another name space, or is not declared.
    Nothing,
    /// An item, by its number.
    Item(usize),
    /// The members of an alias or of an attribute.
    Set(Numbers),
}

/// What expressions are evaluated by.
#[derive(Clone, Copy)]
pub struct Evaluator<'s> {
    /// All items.
    pub all: &'s Numbers,
    /// What each entry holds, by its number.
    pub held: &'s [Held],
    pub alloc: Global,
}

impl<'s> Evaluator<'s> {
    /// Adds what a word of this meaning stands for.
    fn add_meant(&self, set: &mut Numbers, meaning: Option<usize>) -> Result<(), NoMemory>
        ensures { OnOk result ((v : ℕ) → among set.new v ≡ (among set.old v || has_meant self.now.held.now v meaning)) }
    {
        let Some(d) = meaning else {
            return Ok(());
        };
        let Some(held) = self.held.get(d) else {
            return Ok(());
        };
        self.add_held(set, held)?;
        Ok(())
    }

    fn add_held(&self, set: &mut Numbers, held: &Held) -> Result<(), NoMemory>
        ensures { OnOk result ((v : ℕ) → among set.new v ≡ (among set.old v || is_held v held.now)) }
    {
        match held {
            Held::Nothing => {}
            Held::Item(number) => set.add(*number)?,
            Held::Set(numbers) => self.unite(set, numbers)?,
        }
        Ok(())
    }

    /// Adds the members of another set.
    fn unite(&self, set: &mut Numbers, other: &Numbers) -> Result<(), NoMemory>
        ensures { OnOk result ((v : ℕ) → among set.new v ≡ (among set.old v || among other.now v)) }
    {
        let both = self.join(set, Joining::Union, other)?;
        *set = both;
        Ok(())
    }

    fn join(&self, first: &Numbers, how: Joining, second: &Numbers) -> Result<Numbers, NoMemory>
        ensures { IfOk result (λ set. (v : ℕ) → among set v ≡ test_by how (among first.now v) (among second.now v)) }
    {
        let joined = first.joined(self.alloc, how, second)?;
        Ok(joined)
    }

    /// The same as `add`, said of items: where names hold the items for which they stand in a family of sets, the set gets the
    /// numbers of those items that are in the value of the expression in that family. `module` is that of the statement; it has no
    /// effect.
    pub fn add_value<'w>(
        &self,
        set: &mut Numbers,
        term: &Term,
        module: u64,
        words: &'w [Meaning],
    ) -> Result<&'w [Meaning], NoMemory>
        ensures { IfOk result (λ rest. (k : Lookups) (xs : List Item) (names : kinds.Kind → List (List ℕ)) (space : SpaceOf) (m : Family) (f : AWord → ScopedWord) (more : List (Option ℕ))
            → IsKnown k xs names → BeginWith (λ w. meant_in k (f w)) (said_of «module» term.now) words.now more → AreAll k xs names space self.now.all.now
            → HoldAs k xs names space self.now.held.now m f (said_of «module» term.now)
            → (rest.now ≡ more) × ((t : Symbol) (n : ℕ) → IsItem k xs names space t n
            → among set.new n ≡ (among set.old n || in_value xs (enabled_in k) space no_range m (term_with f «module» term.now) t))) }
    {
        // What is known of a word: it means the entry that it names.
        laws::means_what_it_names();
        let rest = self.add(set, term, words)?;
        Ok(rest)
    }

    /// Adds the value of an expression, by meanings that begin with those of its words, and answers the meanings behind them. An item costs a search by
    /// halving, a set a step for each of its blocks.
    #[cycle(value)]
    pub fn add<'w>(
        &self,
        set: &mut Numbers,
        term: &Term,
        words: &'w [Meaning],
    ) -> Result<&'w [Meaning], NoMemory>
        ensures { IfOk result (λ rest. (m : ℕ) (g : AWord → Option ℕ) (more : List (Option ℕ)) → BeginWith g (said_of m term.now) words.now more
            → (rest.now ≡ more) × ((v : ℕ) → among set.new v ≡ (among set.old v || in_term self.now.held.now self.now.all.now g v (said_of m term.now)))) }
    {
        match term {
            Term::Leaf(_) => {
                self.add_meant(set, meaning_at(words, 0))?;
                Ok(behind_first(words))
            }
            Term::Name(_, _) => Ok(words),
            Term::Form(op, _, parts) => {
                let rest = self.add_form(set, way_of(*op), parts.as_slice(), words)?;
                Ok(rest)
            }
        }
    }

    /// Adds the value of a form that joins its parts in this way.
    #[cycle(value)]
    fn add_form<'w>(
        &self,
        set: &mut Numbers,
        way: Way,
        parts: &[Term],
        words: &'w [Meaning],
    ) -> Result<&'w [Meaning], NoMemory>
        ensures { IfOk result (λ rest. (m : ℕ) (g : AWord → Option ℕ) (more : List (Option ℕ)) → BeginWithAll g (all_said m parts.now) words.now more
            → (rest.now ≡ more) × ((v : ℕ) → among set.new v ≡ (among set.old v || in_form self.now.held.now self.now.all.now g v (as_way way) (all_said m parts.now)))) }
    {
        if let Way::SomeOf = way {
            let rest = self.fold(set, Joining::Union, parts, words)?;
            return Ok(rest);
        }
        let mut value = self.start(way)?;
        let rest = self.fold(&mut value, joining_of(way), parts, words)?;
        let value = self.finished(way, value)?;
        self.unite(set, &value)?;
        Ok(rest)
    }

    /// Joins the values of some expressions to a set, one after another.
    #[cycle(value)]
    fn fold<'w>(
        &self,
        set: &mut Numbers,
        how: Joining,
        parts: &[Term],
        words: &'w [Meaning],
    ) -> Result<&'w [Meaning], NoMemory>
        ensures { IfOk result (λ rest. (m : ℕ) (g : AWord → Option ℕ) (more : List (Option ℕ)) → BeginWithAll g (all_said m parts.now) words.now more
            → (rest.now ≡ more) × ((v : ℕ) → among set.new v ≡ folded self.now.held.now self.now.all.now g v how (among set.old v) (all_said m parts.now))) }
    {
        let mut rest = words;
        for part in parts {
            rest = self.turn(set, how, part, rest)?;
        }
        Ok(rest)
    }

    /// Joins the value of one expression to a set. A union needs no set of its own.
    #[cycle(value)]
    fn turn<'w>(
        &self,
        set: &mut Numbers,
        how: Joining,
        part: &Term,
        words: &'w [Meaning],
    ) -> Result<&'w [Meaning], NoMemory>
        ensures { IfOk result (λ rest. (m : ℕ) (g : AWord → Option ℕ) (more : List (Option ℕ)) → BeginWith g (said_of m part.now) words.now more
            → (rest.now ≡ more) × ((v : ℕ) → among set.new v ≡ test_by how (among set.old v) (in_term self.now.held.now self.now.all.now g v (said_of m part.now)))) }
    {
        if let Joining::Union = how {
            let rest = self.add(set, part, words)?;
            return Ok(rest);
        }
        let mut value = Numbers::new(self.alloc);
        let rest = self.add(&mut value, part, words)?;
        let joined = self.join(set, how, &value)?;
        *set = joined;
        Ok(rest)
    }

    /// What the parts of a form are joined to: all items for what each has, and else nothing.
    fn start(&self, way: Way) -> Result<Numbers, NoMemory>
        ensures { IfOk result (λ set. (v : ℕ) → among set v ≡ started (as_way way) (among self.now.all.now v)) }
    {
        if let Way::EachOf = way {
            let all = self.join(self.all, Joining::Both, self.all)?;
            return Ok(all);
        }
        Ok(Numbers::new(self.alloc))
    }

    /// The value of a form, by its parts joined.
    fn finished(&self, way: Way, value: Numbers) -> Result<Numbers, NoMemory>
        ensures { IfOk result (λ set. (v : ℕ) → among set v ≡ ended (as_way way) (among self.now.all.now v) (among value v)) }
    {
        match way {
            Way::Everything => {
                let all = self.join(self.all, Joining::Both, self.all)?;
                Ok(all)
            }
            Way::Complement => {
                let others = self.join(self.all, Joining::Without, &value)?;
                Ok(others)
            }
            Way::RangeOf => Ok(Numbers::new(self.alloc)),
            Way::SomeOf | Way::EachOf | Way::OddOf => Ok(value),
        }
    }
}
