//! Reading expressions: sets, conditions and constraints. They nest at most as deep as lists do.

ghost use Rattle.std.specs.Prelude.{◌≡◌, ◌≤◌, ◌++◌, ◌&&◌, OnOk, codes, drop, length, map};
ghost use Rattle.cil_sexpr.specs.declared.node.Node.TheVariants as nodes;
ghost use Rattle.cil_sexpr.specs.View.{node_of, nodes_of};
ghost use Rattle.cil_syntax.specs.Around.{space_of};
ghost use Rattle.cil_syntax.specs.Laid.{items_of};
ghost use Rattle.cil_syntax.specs.Readings.{cell_of, cells_of, read_behind, read_expression as expression_reading, read_row, refused_head};
ghost use Rattle.cil_syntax.specs.Shapes.{expression, is_of_sets, item, looked_up, many};
ghost use Rattle.cil_syntax.specs.Heads.{names, other_row};
ghost use Rattle.cil_syntax.specs.Spelling.{same_bytes};
ghost use Rattle.cil_syntax.specs.Spoken.{behind_seen, part_of};
ghost use Rattle.cil_faults.specs.Spots.{spot_at};
ghost use Rattle.cil_syntax.specs.Told.{TellAll, Tells, told};

use crate::head::{Behind, Head, Part};
use crate::kind::{Language, Sign};
use crate::language::is_this_word;
use crate::reader::{Reader, bytes_at};
use crate::shape::head_of;
use crate::stop::Stop;
use crate::term::{Op, Term};
use cil_base::NoMemory;
use cil_faults::{Fault, FaultCode};
use cil_sexpr::{Node, Span};

impl<'r, 'a> Reader<'r, 'a> {
    /// Reads an expression: a word, or a list by the words at its head.
    #[cycle(expressions)]
    #[tactic(auto, unfolding(crate::specs::Readings::cell_of, crate::specs::Words::read_string))]
    pub(crate) fn read_expression(
        &self,
        language: Language,
        node: &Node,
        faults: &mut Vec<Fault>,
    ) -> Result<Term<'a>, Stop>
        ensures { Tells self.now.number (space_of self.now.place.now) ((cell_of self.now.number (node_of self.now.text.now node.now)).read (expression language)) faults.old.items faults.new.items result }
    {
        match node {
            Node::Word(span) => self.read_alone(language, node, *span, faults),
            Node::Quoted(_) => Err(Stop::OtherShape),
            Node::List(span, items) => {
                self.read_expression_list(language, items.as_slice(), span.start, faults)
            }
        }
    }

    /// Reads an expression that is a list.
    #[cycle(expressions)]
    fn read_expression_list(
        &self,
        language: Language,
        nodes: &[Node],
        at: u32,
        faults: &mut Vec<Fault>,
    ) -> Result<Term<'a>, Stop>
        ensures { Tells self.now.number (space_of self.now.place.now) (expression_reading (spot_at self.now.number at) language (cells_of self.now.number (nodes_of self.now.text.now nodes.now))) faults.old.items faults.new.items result }
    {
        let Some(head) = language.find_head(self.text, nodes) else {
            let parts = self.read_others(language, nodes, faults)?;
            return Ok(Term::Form(language.other_op(), at, parts));
        };
        self.report_untaken(head, nodes, faults)?;
        let parts = self.read_behind(language, head, nodes, faults)?;
        Ok(Term::Form(head.op, at, parts))
    }

    /// Reads what a list has that begins with no head: any number of sets, or just one expression of another language.
    #[cycle(expressions)]
    fn read_others(
        &self,
        language: Language,
        nodes: &[Node],
        faults: &mut Vec<Fault>,
    ) -> Result<Vec<Term<'a>>, Stop>
        ensures { TellAll self.now.number (space_of self.now.place.now) (read_row (other_row language) (cells_of self.now.number (nodes_of self.now.text.now nodes.now))) faults.old.items faults.new.items result }
    {
        if language.is_of_sets() {
            return self.read_expressions(language, nodes, 0, faults);
        }
        if nodes.len() != 1 {
            return Err(Stop::OtherShape);
        }
        self.read_expressions(language, nodes, 0, faults)
    }

    /// Reads what is behind the first word of a list that begins with a head.
    #[cycle(expressions)]
    fn read_behind(
        &self,
        language: Language,
        head: &Head,
        nodes: &[Node],
        faults: &mut Vec<Fault>,
    ) -> Result<Vec<Term<'a>>, Stop>
        ensures { TellAll self.now.number (space_of self.now.place.now) (read_behind (behind_seen language head.now.behind) (cells_of self.now.number (nodes_of self.now.text.now nodes.now))) faults.old.items faults.new.items result }
    {
        if nodes.is_empty() {
            return Err(Stop::OtherShape);
        }
        match head.behind {
            Behind::One => {
                if nodes.len() != 2 {
                    return Err(Stop::OtherShape);
                }
                self.read_expressions(language, nodes, 1, faults)
            }
            Behind::Two => {
                if nodes.len() != 3 {
                    return Err(Stop::OtherShape);
                }
                self.read_expressions(language, nodes, 1, faults)
            }
            Behind::Parts(parts) => self.read_parts(parts, &nodes[1..], faults),
        }
    }

    /// Reads the nodes behind so many, each as an expression.
    #[cycle(expressions)]
    fn read_expressions(
        &self,
        language: Language,
        nodes: &[Node],
        skipped: usize,
        faults: &mut Vec<Fault>,
    ) -> Result<Vec<Term<'a>>, Stop>
        requires { skipped ≤ length nodes.now }
        ensures { TellAll self.now.number (space_of self.now.place.now) (read_row (many (expression language)) (cells_of self.now.number (nodes_of self.now.text.now (drop skipped nodes.now)))) faults.old.items faults.new.items result }
    {
        let mut terms = Vec::with_capacity(self.alloc, nodes.len() - skipped)?;
        for index in skipped..nodes.len() {
            let term = self.read_expression(language, &nodes[index], faults)?;
            terms.push(term)?;
        }
        Ok(terms)
    }

    /// Reads a word that is an expression by itself.
    fn read_alone(
        &self,
        language: Language,
        node: &Node,
        span: Span,
        faults: &mut Vec<Fault>,
    ) -> Result<Term<'a>, Stop>
        requires { node.now ≡ nodes.Word span }
        ensures { Tells self.now.number (space_of self.now.place.now) ((cell_of self.now.number (node_of self.now.text.now node.now)).read (expression language)) faults.old.items faults.new.items result }
    {
        let Some(sign) = language.word_sign() else {
            return Err(Stop::OtherShape);
        };
        if is_every(language, bytes_at(self.text, span)) {
            return Ok(Term::Form(Op::All, span.start, Vec::new(self.alloc)));
        }
        self.read_looked_up(sign, node, faults)
    }

    /// Reports the first word of a list whose head is not supported.
    fn report_untaken(
        &self,
        head: &Head,
        nodes: &[Node],
        faults: &mut Vec<Fault>,
    ) -> Result<(), NoMemory>
        ensures { OnOk result (faults.new.items ≡ faults.old.items ++ told self.now.number (space_of self.now.place.now) (refused_head head.now.taken (cells_of self.now.number (nodes_of self.now.text.now nodes.now)))) }
    {
        if head.taken {
            return Ok(());
        }
        let Some(node) = nodes.first() else {
            return Ok(());
        };
        self.report(
            faults,
            FaultCode::Unsupported,
            node.span().start,
            head_of(self.text, nodes),
        )?;
        Ok(())
    }

    /// Reads parts, one after another.
    fn read_parts(
        &self,
        parts: &[Part],
        nodes: &[Node],
        faults: &mut Vec<Fault>,
    ) -> Result<Vec<Term<'a>>, Stop>
        ensures { TellAll self.now.number (space_of self.now.place.now) (read_row (items_of (map part_of parts.now)) (cells_of self.now.number (nodes_of self.now.text.now nodes.now))) faults.old.items faults.new.items result }
    {
        if nodes.len() != parts.len() {
            return Err(Stop::OtherShape);
        }
        let mut terms = Vec::with_capacity(self.alloc, nodes.len())?;
        for index in 0..nodes.len() {
            let term = self.read_part(&parts[index], &nodes[index], faults)?;
            terms.push(term)?;
        }
        Ok(terms)
    }

    /// Reads a part.
    fn read_part(&self, part: &Part, node: &Node, faults: &mut Vec<Fault>) -> Result<Term<'a>, Stop>
        ensures { Tells self.now.number (space_of self.now.place.now) ((cell_of self.now.number (node_of self.now.text.now node.now)).read (part_of part.now)) faults.old.items faults.new.items result }
    {
        match part {
            Part::Fixed(word, op) => self.read_fixed(word, *op, node, faults),
            Part::LookedUp(sign) => self.read_looked_up(*sign, node, faults),
            Part::Names(sign) => self.read_names(*sign, node, faults),
            Part::Or(word, op, other) => {
                if is_this_word(self.text, node, word) {
                    return self.read_fixed(word, *op, node, faults);
                }
                self.read_part(other, node, faults)
            }
        }
    }

    /// Reads a word that is looked up, or a list of one or more.
    #[tactic(auto, unfolding(crate::specs::Readings::cell_of, crate::specs::Words::read_word, crate::specs::Words::read_string, crate::specs::Readings::read_list))]
    fn read_names(&self, sign: Sign, node: &Node, faults: &mut Vec<Fault>) -> Result<Term<'a>, Stop>
        ensures { Tells self.now.number (space_of self.now.place.now) ((cell_of self.now.number (node_of self.now.text.now node.now)).read (names sign)) faults.old.items faults.new.items result }
    {
        match node {
            Node::Word(_) => self.read_looked_up(sign, node, faults),
            Node::Quoted(_) => Err(Stop::OtherShape),
            Node::List(span, items) => {
                let parts = self.read_some(sign, items.as_slice(), faults)?;
                Ok(Term::Form(Op::Union, span.start, parts))
            }
        }
    }

    /// Reads words that are looked up: one or more.
    fn read_some(
        &self,
        sign: Sign,
        nodes: &[Node],
        faults: &mut Vec<Fault>,
    ) -> Result<Vec<Term<'a>>, Stop>
        ensures { TellAll self.now.number (space_of self.now.place.now) (read_row (item (looked_up sign) (many (looked_up sign))) (cells_of self.now.number (nodes_of self.now.text.now nodes.now))) faults.old.items faults.new.items result }
    {
        if nodes.is_empty() {
            return Err(Stop::OtherShape);
        }
        let mut terms = Vec::with_capacity(self.alloc, nodes.len())?;
        for node in nodes {
            let term = self.read_looked_up(sign, node, faults)?;
            terms.push(term)?;
        }
        Ok(terms)
    }
}

/// Whether a word is `all` in a language of sets.
fn is_every(language: Language, word: &[u8]) -> bool
    ensures { result ≡ (is_of_sets language && same_bytes word.now (codes "all")) }
{
    language.is_of_sets() && word == b"all".as_slice()
}
