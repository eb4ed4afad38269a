//! The walk over the terms of a placed statement, which adds the entries that each word and permission could name, and the number
//! of each permission. Where the statement may say a list it goes over what `Reading::asked` lists, and over no term.

ghost use Rattle.std.specs.Prelude.{◌≡◌, ◌<◌, OnOk, map, true};
ghost use Rattle.cil_macros.specs.Calls.{is_call};
ghost use Rattle.cil_macros.specs.Items.{all_placed};
ghost use Rattle.cil_names.specs.Asked.{wanted_by};
ghost use Rattle.cil_names.specs.Readings.{ReadsWords, item_read, module_of, word_read};
ghost use Rattle.cil_names.specs.Resolves.{all_wanted_in, wanted_in, words_of, words_of_mapping};
ghost use Rattle.cil_names.specs.Unresolved.{term_with, terms_with};
ghost use Rattle.cil_words.specs.Scopes.{AreScopes};
ghost use Rattle.cil_words.specs.Walks.{AddsFor, IsWalk};

use crate::cells::Cells;
use crate::scopes::Scopes;
use cil_base::NoMemory;
use cil_names::Names;
use cil_names::asked::Asked;
use cil_names::reading::{Reading, behind_two, front_two, is_call, is_mapping, says_as_written};
use cil_syntax::{Bytes, Term};
use std::alloc::Global;

/// A placed statement, and what its words are looked up in.
#[derive(Clone, Copy)]
pub struct Walk<'r, 's, 'p, 'a> {
    pub alloc: Global,
    /// The declared names.
    pub names: &'r Names<'a>,
    /// For each entry that is a class, its permissions in byte order.
    pub permissions: &'r [Vec<Bytes>],
    /// The statement.
    pub reading: Reading<'r, 's, 'p, 'a>,
}

impl<'r, 's, 'p, 'a> Walk<'r, 's, 'p, 'a> {
    /// Adds a list for each thing that the statement asks for. Each word costs one look-up, and the class word of a class list one
    /// more, but where its name has one entry in all. A scope is filled where a word asks for it.
    pub fn statement(&'r self, cells: &mut Cells, scopes: &mut Scopes) -> Result<(), NoMemory>
        requires walk { IsWalk self.now }
        requires scopes { AreScopes self.now.reading.instances.now scopes.old }
        ensures asks { OnOk result (AddsFor self.now (words_of (item_read self.now.reading)) cells.old cells.new) }
        ensures scopes { OnOk result (AreScopes self.now.reading.instances.now scopes.new) }
    {
        if self.reading.instances.may_have_list(self.reading.at) {
            return self.listed(cells, scopes);
        }
        self.written(cells, scopes)
    }

    /// The same of a statement that may say a list.
    fn listed(&'r self, cells: &mut Cells, scopes: &mut Scopes) -> Result<(), NoMemory>
        requires walk { IsWalk self.now }
        requires scopes { AreScopes self.now.reading.instances.now scopes.old }
        ensures asks { OnOk result (AddsFor self.now (words_of (item_read self.now.reading)) cells.old cells.new) }
        ensures scopes { OnOk result (AreScopes self.now.reading.instances.now scopes.new) }
    {
        let asked = self.reading.asked(self.alloc)?;
        for one in asked.as_slice() {
            self.one(cells, scopes, one)?;
        }
        Ok(())
    }

    /// Adds a list for something that is asked for; for a class list one for its class word, and one for each permission.
    fn one(
        &'r self,
        cells: &mut Cells,
        scopes: &mut Scopes,
        one: &Asked<'a>,
    ) -> Result<(), NoMemory>
        requires walk { IsWalk self.now }
        requires scopes { AreScopes self.now.reading.instances.now scopes.old }
        ensures asks { OnOk result (AddsFor self.now (wanted_by (all_placed self.now.reading.instances.now) one.now) cells.old cells.new) }
        ensures scopes { OnOk result (AreScopes self.now.reading.instances.now scopes.new) }
    {
        match one {
            Asked::Word(word) => self.word(cells, scopes, word),
            Asked::ClassList(class, permissions) => {
                self.class_permissions(cells, scopes, class, permissions.as_slice())
            }
        }
    }

    /// The same as `statement`, of a statement that says words alone.
    fn written(&'r self, cells: &mut Cells, scopes: &mut Scopes) -> Result<(), NoMemory>
        requires walk { IsWalk self.now }
        requires words { ReadsWords self.now.reading }
        requires scopes { AreScopes self.now.reading.instances.now scopes.old }
        ensures asks { OnOk result (AddsFor self.now (words_of (item_read self.now.reading)) cells.old cells.new) }
        ensures scopes { OnOk result (AreScopes self.now.reading.instances.now scopes.new) }
    {
        let statement = self.reading.statement;
        if is_call(statement.keyword) {
            return self.call(cells, scopes);
        }
        if !says_as_written(statement.keyword) {
            return Ok(());
        }
        let terms = statement.args.as_slice();
        if is_mapping(statement.keyword) {
            return self.mapping(cells, scopes, terms);
        }
        self.terms(cells, scopes, terms)
    }

    /// Adds a list for each thing that the terms of a classmapping ask for: its class map, its permission as one of the map, and what
    /// is behind them.
    fn mapping(
        &'r self,
        cells: &mut Cells,
        scopes: &mut Scopes,
        terms: &[Term<'a>],
    ) -> Result<(), NoMemory>
        requires walk { IsWalk self.now }
        requires scopes { AreScopes self.now.reading.instances.now scopes.old }
        ensures asks { OnOk result (AddsFor self.now (words_of_mapping (terms_with (word_read self.now.reading) (module_of self.now.reading) terms.now)) cells.old cells.new) }
        ensures scopes { OnOk result (AreScopes self.now.reading.instances.now scopes.new) }
    {
        self.class_list(cells, scopes, front_two(terms))?;
        self.terms(cells, scopes, behind_two(terms))
    }

    /// Adds a list for each word of a call.
    fn call(&'r self, cells: &mut Cells, scopes: &mut Scopes) -> Result<(), NoMemory>
        requires walk { IsWalk self.now }
        requires words { ReadsWords self.now.reading }
        requires scopes { AreScopes self.now.reading.instances.now scopes.old }
        ensures asks { OnOk result (is_call (item_read self.now.reading).keyword ≡ true → AddsFor self.now (words_of (item_read self.now.reading)) cells.old cells.new) }
        ensures scopes { OnOk result (AreScopes self.now.reading.instances.now scopes.new) }
    {
        let words = self.reading.call_words(self.alloc)?;
        for word in words.as_slice() {
            self.word(cells, scopes, word)?;
        }
        Ok(())
    }

    /// Adds a list for each thing that some terms ask for.
    #[cycle(terms)]
    fn terms(
        &'r self,
        cells: &mut Cells,
        scopes: &mut Scopes,
        terms: &[Term<'a>],
    ) -> Result<(), NoMemory>
        requires walk { IsWalk self.now }
        requires scopes { AreScopes self.now.reading.instances.now scopes.old }
        ensures asks { OnOk result (AddsFor self.now (all_wanted_in (terms_with (word_read self.now.reading) (module_of self.now.reading) terms.now)) cells.old cells.new) }
        ensures scopes { OnOk result (AreScopes self.now.reading.instances.now scopes.new) }
    {
        for term in terms {
            self.term(cells, scopes, term)?;
        }
        Ok(())
    }

    #[cycle(terms)]
    fn term(
        &'r self,
        cells: &mut Cells,
        scopes: &mut Scopes,
        term: &Term<'a>,
    ) -> Result<(), NoMemory>
        requires walk { IsWalk self.now }
        requires scopes { AreScopes self.now.reading.instances.now scopes.old }
        ensures asks { OnOk result (AddsFor self.now (wanted_in (term_with (word_read self.now.reading) (module_of self.now.reading) term.now)) cells.old cells.new) }
        ensures scopes { OnOk result (AreScopes self.now.reading.instances.now scopes.new) }
    {
        match term {
            Term::Leaf(word) => {
                let written = word.in_module(self.reading.statement.at.module);
                self.word(cells, scopes, &self.reading.word(&written))
            }
            Term::Name(_, _) => Ok(()),
            Term::Form(op, _, parts) => {
                if op.is_class_list() {
                    self.class_list(cells, scopes, parts.as_slice())
                } else {
                    self.terms(cells, scopes, parts.as_slice())
                }
            }
        }
    }
}
