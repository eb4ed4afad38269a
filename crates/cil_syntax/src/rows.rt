//! Reading nodes by their shapes, and lists by their rows: one function for each.

ghost use Rattle.std.specs.Prelude.{◌≡◌, List, map, ℕ};
ghost use Rattle.cil_faults.specs.declared.fault.Fault as Faults;
ghost use Rattle.cil_sexpr.specs.View.{node_of, nodes_of};
ghost use Rattle.cil_syntax.specs.Around.{space_of};
ghost use Rattle.cil_syntax.specs.Laid.{items_of, row_of, shape_of};
ghost use Rattle.cil_syntax.specs.Readings.{cell_of, cells_of, is_led, read_row as row_reading};
ghost use Rattle.cil_syntax.specs.Shapes.{list_of, many, statements, tagged};
ghost use Rattle.cil_syntax.specs.Told.{TellAll, Tells};

use crate::language::is_this_word;
use crate::reader::Reader;
use crate::shape::{Row, Shape};
use crate::stop::Stop;
use crate::term::{Op, Term};
use cil_faults::Fault;
use cil_sexpr::Node;

impl<'r, 'a> Reader<'r, 'a> {
    /// Reads a node by a shape.
    #[cycle(nodes)]
    pub(crate) fn read_node(
        &self,
        shape: &Shape,
        node: &Node,
        faults: &mut Vec<Fault>,
    ) -> Result<Term<'a>, Stop>
        ensures { Tells self.now.number (space_of self.now.place.now) ((cell_of self.now.number (node_of self.now.text.now node.now)).read (shape_of shape.now)) faults.old.items faults.new.items result }
    {
        match shape {
            Shape::DeclaredName => self.read_name(node, faults),
            Shape::LookedUp(sign) => self.read_looked_up(*sign, node, faults),
            Shape::Expression(language) => self.read_expression(*language, node, faults),
            Shape::Fixed(word, op) => self.read_fixed(word, *op, node, faults),
            Shape::LeftOut(word) => self.read_this_left_out(word, node, faults),
            Shape::AnyLeftOut => self.read_any_left_out(node, faults),
            Shape::Either(first, second) => {
                if first.is_meant(self.text, node) {
                    return self.read_node(first, node, faults);
                }
                self.read_node(second, node, faults)
            }
            Shape::ListOf(op, row) => self.read_list(*op, row, node, faults),
            Shape::Tagged(word, op, row) => self.read_tagged(word, *op, row, node, faults),
            Shape::Unread => self.keep(node),
            Shape::ObjectName => self.keep_name(node),
        }
    }

    /// Reads a list by a row.
    #[cycle(nodes)]
    #[tactic(auto, unfolding(crate::specs::Readings::cell_of, crate::specs::Words::read_word, crate::specs::Words::read_string, crate::specs::Readings::read_list))]
    fn read_list(
        &self,
        op: Op,
        row: &Row,
        node: &Node,
        faults: &mut Vec<Fault>,
    ) -> Result<Term<'a>, Stop>
        ensures { Tells self.now.number (space_of self.now.place.now) ((cell_of self.now.number (node_of self.now.text.now node.now)).read (list_of op (row_of row.now))) faults.old.items faults.new.items result }
    {
        let Node::List(span, items) = node else {
            return Err(Stop::OtherShape);
        };
        let parts = self.read_row(row, items.as_slice(), faults)?;
        Ok(Term::Form(op, span.start, parts))
    }

    /// Reads the items of a list by a row.
    #[cycle(nodes)]
    pub(crate) fn read_row(
        &self,
        row: &Row,
        nodes: &[Node],
        faults: &mut Vec<Fault>,
    ) -> Result<Vec<Term<'a>>, Stop>
        ensures { TellAll self.now.number (space_of self.now.place.now) (row_reading (row_of row.now) (cells_of self.now.number (nodes_of self.now.text.now nodes.now))) faults.old.items faults.new.items result }
    {
        match row {
            Row::Items(shapes) => self.read_items(shapes, nodes, faults),
            Row::Many(shape) => self.read_many(shape, nodes, faults),
            Row::OneOf(first, second) => {
                if nodes.len() == first.len() {
                    return self.read_items(first, nodes, faults);
                }
                self.read_items(second, nodes, faults)
            }
            Row::Then(shapes, row) => {
                if nodes.len() < shapes.len() {
                    return Err(Stop::OtherShape);
                }
                let mut first = self.read_items(shapes, &nodes[..shapes.len()], faults)?;
                let mut second = self.read_row(row, &nodes[shapes.len()..], faults)?;
                first.append(&mut second)?;
                Ok(first)
            }
            Row::Led(shape, first, second) => {
                if self.is_led(shape, nodes) {
                    return self.read_row(first, nodes, faults);
                }
                self.read_row(second, nodes, faults)
            }
            Row::Statements => self.read_statements(nodes),
            Row::Anything => Ok(Vec::new(self.alloc)),
        }
    }

    /// Reads a list that begins with a word: what is behind it by a row.
    #[cycle(nodes)]
    #[tactic(auto, unfolding(crate::specs::Readings::cell_of, crate::specs::Words::read_word, crate::specs::Words::read_string, crate::specs::Readings::read_list))]
    fn read_tagged(
        &self,
        word: &[u8],
        op: Op,
        row: &Row,
        node: &Node,
        faults: &mut Vec<Fault>,
    ) -> Result<Term<'a>, Stop>
        ensures { Tells self.now.number (space_of self.now.place.now) ((cell_of self.now.number (node_of self.now.text.now node.now)).read (tagged word.now op (row_of row.now))) faults.old.items faults.new.items result }
    {
        let Node::List(span, items) = node else {
            return Err(Stop::OtherShape);
        };
        let Some(first) = items.as_slice().first() else {
            return Err(Stop::OtherShape);
        };
        if !is_this_word(self.text, first, word) {
            return Err(Stop::OtherShape);
        }
        let parts = self.read_row(row, &items.as_slice()[1..], faults)?;
        Ok(Term::Form(op, span.start, parts))
    }

    /// Lists, each a statement that is judged by itself: nothing of them is kept here.
    fn read_statements(&self, nodes: &[Node]) -> Result<Vec<Term<'a>>, Stop>
        ensures { (faults : List Faults.Fault) → TellAll self.now.number (space_of self.now.place.now) (row_reading statements (cells_of self.now.number (nodes_of self.now.text.now nodes.now))) faults faults result }
    {
        if !self.all_lists(nodes) {
            return Err(Stop::OtherShape);
        }
        Ok(Vec::new(self.alloc))
    }

    /// Whether a shape is meant for the first of some nodes.
    fn is_led(&self, shape: &Shape, nodes: &[Node]) -> bool
        ensures { (m : ℕ) → result ≡ is_led (shape_of shape.now) (cells_of m (nodes_of self.now.text.now nodes.now)) }
    {
        let Some(first) = nodes.first() else {
            return false;
        };
        shape.is_meant(self.text, first)
    }

    /// Reads just as many items as there are shapes.
    #[cycle(nodes)]
    fn read_items(
        &self,
        shapes: &[Shape],
        nodes: &[Node],
        faults: &mut Vec<Fault>,
    ) -> Result<Vec<Term<'a>>, Stop>
        ensures { TellAll self.now.number (space_of self.now.place.now) (row_reading (items_of (map shape_of shapes.now)) (cells_of self.now.number (nodes_of self.now.text.now nodes.now))) faults.old.items faults.new.items result }
    {
        if nodes.len() != shapes.len() {
            return Err(Stop::OtherShape);
        }
        let mut terms = Vec::with_capacity(self.alloc, nodes.len())?;
        for index in 0..nodes.len() {
            let term = self.read_node(&shapes[index], &nodes[index], faults)?;
            terms.push(term)?;
        }
        Ok(terms)
    }

    /// Reads any number of items.
    #[cycle(nodes)]
    fn read_many(
        &self,
        shape: &Shape,
        nodes: &[Node],
        faults: &mut Vec<Fault>,
    ) -> Result<Vec<Term<'a>>, Stop>
        ensures { TellAll self.now.number (space_of self.now.place.now) (row_reading (many (shape_of shape.now)) (cells_of self.now.number (nodes_of self.now.text.now nodes.now))) faults.old.items faults.new.items result }
    {
        let mut terms = Vec::with_capacity(self.alloc, nodes.len())?;
        for node in nodes {
            let term = self.read_node(shape, node, faults)?;
            terms.push(term)?;
        }
        Ok(terms)
    }
}
