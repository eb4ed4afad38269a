//! The written statements of a set of modules.

ghost use Rattle.std.specs.Prelude.{◌≡◌, ◌++◌, ◌∷◌, [], OnOk};
ghost use Rattle.cil_base.specs.Lists.{Lists};
ghost use Rattle.cil_sexpr.specs.Text.{IsReadable};
ghost use Rattle.cil_sexpr.specs.Tree.{inner_of};
ghost use Rattle.cil_sexpr.specs.View.{node_of, nodes_of};
ghost use Rattle.cil_syntax.specs.Entries.{body_of};
ghost use Rattle.cil_syntax.specs.Program.{program_of};
ghost use Rattle.cil_faults.specs.Refusal.{Answers};
ghost use Rattle.cil_syntax.specs.Standpoints.{forked, found_behind, found_from, found_inside, opened, opening_by};
ghost use Rattle.cil_syntax.specs.Told.{AreJudgedHere, IsModuleRead, StandsIn};
ghost use Rattle.cil_syntax.specs.Written.{IsWritten, ShapeFault, at_top, written_cmp};

use crate::entry::Body;
use crate::kind::Keyword;
use crate::place::Place;
use crate::reader::Reader;
use crate::term::Term;
use cil_base::NoMemory;
use cil_faults::{Failure, Fault, FaultList, Spot};
use cil_modset::ModuleSet;
use cil_sexpr::{Node, ReadError, laws as texts, read};
use std::alloc::Global;
use std::marker::Model;

/// A statement as it is written.
#[derive(Debug, Drop)]
pub struct Statement<'a> {
    /// Which statement it is.
    pub keyword: Keyword,
    /// Where its list begins.
    pub at: Spot,
    /// The number of the statement in which it directly stands; none at the top of its module.
    pub under: Option<usize>,
    /// What is behind its word.
    pub args: Vec<Term<'a>>,
}

// Policies have millions of statements.
const _: () = prove!(size_of::<Statement>() <= 64);

/// The statements of modules, by module and place.
#[derive(Debug, Drop)]
pub struct Program<'a> {
    statements: Vec<Statement<'a>>,
}

impl<'a> Model for Program<'a> {
    ghost use Rattle.std.specs.Prelude.{List};
    ghost use Rattle.cil_syntax.specs.declared.program.Statement.{Statement};
    ghost use Rattle.cil_syntax.specs.Depths.{IsProgram};
    ghost use Rattle.cil_syntax.specs.contracts.term.Term as term;
    ghost use Rattle.std.specs.Coded.{codes};
    ghost use denote.Signature.{static_lft};

    ghost Value = { List Statement };

    ghost coded = { Prim.hlevel (codes, (term.the_row static_lft).coded) };

    ghost view = { λ p. p.statements.items };

    ghost invariant = { λ p. IsProgram p.statements.items };
}

impl<'a> Program<'a> {
    ghost use Rattle.std.specs.Prelude.{◌≡◌};
    ghost use Rattle.cil_syntax.specs.Depths.{AreShallow};
    ghost use Rattle.cil_syntax.specs.Program.{IsNested};

    /// The statements, in order. Where each stands follows from their numbers. Their terms nest at most 127 deep.
    pub fn statements(&self) -> &[Statement<'a>]
        ensures same { result.now ≡ self.now }
        ensures nested { IsNested self.now }
        ensures shallow { AreShallow self.now }
    {
        self.statements.as_slice()
    }
}

/// The statements that are written in modules; or, where one of them or one of its words is at fault, all faults of shape, or
/// out of memory. Each module is read once; its tree is dropped before the next is read.
pub fn written(alloc: Global, modules: &ModuleSet) -> Result<Program<'_>, Failure>
    ensures { Answers (λ p. Lists written_cmp (IsWritten modules.now) (program_of p)) (ShapeFault modules.now) result }
{
    // That a text has one tree makes what was read what is written.
    texts::one_tree();
    let mut statements = Vec::new(alloc);
    let mut faults = Vec::new(alloc);
    let top = Place::top(alloc);
    for i in 0..modules.len() {
        let reader = Reader {
            alloc,
            text: modules.get(i),
            number: i as u64,
            place: &top,
        };
        reader.read_module(&mut statements, &mut faults)?;
    }
    match FaultList::of(faults) {
        Some(list) => Err(Failure::Faults(list)),
        None => Ok(Program { statements }),
    }
}

impl<'r, 'a> Reader<'r, 'a> {
    /// Reads the statements of a module. It was found readable when it was installed.
    fn read_module(
        &self,
        statements: &mut Vec<Statement<'a>>,
        faults: &mut Vec<Fault>,
    ) -> Result<(), NoMemory>
        requires readable { IsReadable self.now.text.now }
        requires top { StandsIn at_top self.now.place.now statements.old.items }
        ensures { OnOk result (IsModuleRead self.now.number self.now.text.now statements.old.items statements.new.items faults.old.items faults.new.items) }
    {
        texts::never_both();
        match read(self.alloc, self.text) {
            Ok(tree) => self.judge_all(tree.children(), 0, statements, faults),
            Err(ReadError::NoMemory) => Err(NoMemory),
            Err(ReadError::Fault(_)) => unreachable!(),
        }
    }

    /// Reads the nodes behind so many as statements.
    #[cycle(bodies)]
    fn judge_all(
        &self,
        nodes: &[Node],
        skipped: usize,
        statements: &mut Vec<Statement<'a>>,
        faults: &mut Vec<Fault>,
    ) -> Result<(), NoMemory>
        ensures { OnOk result (AreJudgedHere self.now (λ context. found_behind self.now.number (opened context skipped) (nodes_of self.now.text.now nodes.now)) statements.old.items statements.new.items faults.old.items faults.new.items) }
    {
        for index in skipped..nodes.len() {
            self.judge_in(&nodes[index], statements, faults)?;
        }
        Ok(())
    }

    /// Reads what is behind the first item of each of the nodes behind so many as statements.
    #[cycle(bodies)]
    fn judge_branches(
        &self,
        nodes: &[Node],
        skipped: usize,
        statements: &mut Vec<Statement<'a>>,
        faults: &mut Vec<Fault>,
    ) -> Result<(), NoMemory>
        ensures { OnOk result (AreJudgedHere self.now (λ context. found_behind self.now.number (forked context skipped) (nodes_of self.now.text.now nodes.now)) statements.old.items statements.new.items faults.old.items faults.new.items) }
    {
        for index in skipped..nodes.len() {
            self.judge_branch(&nodes[index], statements, faults)?;
        }
        Ok(())
    }

    /// Reads what is behind the first item of a node as statements.
    #[cycle(bodies)]
    fn judge_branch(
        &self,
        node: &Node,
        statements: &mut Vec<Statement<'a>>,
        faults: &mut Vec<Fault>,
    ) -> Result<(), NoMemory>
        ensures { OnOk result (AreJudgedHere self.now (λ context. found_inside self.now.number context (node_of self.now.text.now node.now)) statements.old.items statements.new.items faults.old.items faults.new.items) }
    {
        match node {
            Node::Word(_) => Ok(()),
            Node::Quoted(_) => Ok(()),
            Node::List(_, items) => self.judge_all(items.as_slice(), 1, statements, faults),
        }
    }

    /// Reads a node as a statement, and then those inside it.
    #[cycle(bodies)]
    fn judge_in(
        &self,
        node: &Node,
        statements: &mut Vec<Statement<'a>>,
        faults: &mut Vec<Fault>,
    ) -> Result<(), NoMemory>
        ensures { OnOk result (AreJudgedHere self.now (λ context. found_from self.now.number context (node_of self.now.text.now node.now)) statements.old.items statements.new.items faults.old.items faults.new.items) }
    {
        let Some(statement) = self.judge(node, faults)? else {
            return Ok(());
        };
        let Some(body) = statement.keyword.body() else {
            return push_statement(statements, statement);
        };
        let place = self
            .place
            .inside(self.alloc, &statement, statements.len(), body.nesting)?;
        push_statement(statements, statement)?;
        let reader = Reader {
            alloc: self.alloc,
            text: self.text,
            number: self.number,
            place: &place,
        };
        reader.judge_body(node, body, statements, faults)
    }

    /// Reads the statements of the statement that a node is.
    #[cycle(bodies)]
    fn judge_body(
        &self,
        node: &Node,
        body: Body,
        statements: &mut Vec<Statement<'a>>,
        faults: &mut Vec<Fault>,
    ) -> Result<(), NoMemory>
        ensures { OnOk result (AreJudgedHere self.now (λ context. found_behind self.now.number (opening_by context (body_of body)) (inner_of (node_of self.now.text.now node.now))) statements.old.items statements.new.items faults.old.items faults.new.items) }
    {
        match node {
            Node::Word(_) => Ok(()),
            Node::Quoted(_) => Ok(()),
            Node::List(_, items) => {
                if body.branched {
                    return self.judge_branches(items.as_slice(), body.skipped, statements, faults);
                }
                self.judge_all(items.as_slice(), body.skipped, statements, faults)
            }
        }
    }
}

/// Puts a statement behind others.
fn push_statement<'a>(
    statements: &mut Vec<Statement<'a>>,
    statement: Statement<'a>,
) -> Result<(), NoMemory>
    ensures { OnOk result (statements.new.items ≡ statements.old.items ++ statement.entry ∷ []) }
{
    statements.push(statement)?;
    Ok(())
}
