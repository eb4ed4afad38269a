//! Reading words: each as a term, with its faults added behind those of the words before it.

ghost use Rattle.std.specs.Prelude.{◌≡◌, ◌∷◌, ◌++◌, [], OnOk, slice_range};
ghost use Rattle.cil_sexpr.specs.View.{node_of};
ghost use Rattle.cil_syntax.specs.Around.{space_of};
ghost use Rattle.cil_syntax.specs.Shapes.{any_left_out, declared_name, fixed as fixed_shape, left_out, looked_up};
ghost use Rattle.cil_syntax.specs.Readings.{cell_of};
ghost use Rattle.cil_syntax.specs.Words.{inner_at, is_spelled, read_left_out as left_out_reading, word_faults};
ghost use Rattle.cil_faults.specs.Spots.{spot_at};
ghost use Rattle.cil_syntax.specs.Told.{Tells, told};

use crate::kind::Sign;
use crate::reader::{Reader, bytes_at};
use crate::spelling::{is_name, is_path, is_reserved};
use crate::stop::Stop;
use crate::term::{Excerpt, LookedUp, Op, Term};
use cil_base::NoMemory;
use cil_faults::{Fault, FaultCode};
use cil_sexpr::Node;

/// Whether a word is spelled as its sign wants.
pub fn is_spelled_for(sign: Sign, word: &[u8]) -> bool
    ensures { result ≡ is_spelled sign word.now }
{
    match sign {
        Sign::Permission => is_name(word),
        Sign::Text => true,
        Sign::Unread => true,
        Sign::Types
        | Sign::PlainType
        | Sign::TypeAttributes
        | Sign::TypeAliases
        | Sign::Roles
        | Sign::PlainRole
        | Sign::RoleAttributes
        | Sign::Users
        | Sign::PlainUser
        | Sign::UserAttributes
        | Sign::Classes
        | Sign::PlainClass
        | Sign::ClassMaps
        | Sign::Commons
        | Sign::ClassPermissions
        | Sign::NamedPermissions
        | Sign::MappedPermissions
        | Sign::Booleans
        | Sign::Sensitivities
        | Sign::SensitivityAliases
        | Sign::Categories
        | Sign::CategoryAliases
        | Sign::CategorySets
        | Sign::Levels
        | Sign::LevelRanges
        | Sign::Blocks
        | Sign::Macros => is_path(word),
    }
}

impl<'r, 'a> Reader<'r, 'a> {
    /// Reports what is wrong with the spelling of a word: that it is reserved, or else that it is not spelled well.
    fn report_word(
        &self,
        faults: &mut Vec<Fault>,
        at: u32,
        spelled: bool,
        word: &[u8],
    ) -> Result<(), NoMemory>
        ensures { OnOk result (faults.new.items ≡ faults.old.items ++ told self.now.number (space_of self.now.place.now) (word_faults (spot_at self.now.number at) spelled word.now)) }
    {
        if is_reserved(word) {
            self.report(faults, FaultCode::ReservedName, at, word)?;
        } else if !spelled {
            self.report(faults, FaultCode::BadName, at, word)?;
        }
        Ok(())
    }

    /// Reads a declared name. A string or a list is none.
    #[tactic(auto, unfolding(crate::specs::Readings::cell_of, crate::specs::Words::read_word, crate::specs::Words::read_string, crate::specs::Readings::read_list))]
    pub(crate) fn read_name(&self, node: &Node, faults: &mut Vec<Fault>) -> Result<Term<'a>, Stop>
        ensures { Tells self.now.number (space_of self.now.place.now) ((cell_of self.now.number (node_of self.now.text.now node.now)).read declared_name) faults.old.items faults.new.items result }
    {
        let Node::Word(span) = node else {
            return Err(Stop::OtherShape);
        };
        let word = bytes_at(self.text, *span);
        self.report_word(faults, span.start, is_name(word), word)?;
        Ok(Term::Name(span.start, Excerpt::of(word)))
    }

    /// Reads a word that is looked up. A string or a list is none.
    #[tactic(auto, unfolding(crate::specs::Readings::cell_of, crate::specs::Words::read_word, crate::specs::Words::read_string, crate::specs::Readings::read_list))]
    pub(crate) fn read_looked_up(
        &self,
        sign: Sign,
        node: &Node,
        faults: &mut Vec<Fault>,
    ) -> Result<Term<'a>, Stop>
        ensures { Tells self.now.number (space_of self.now.place.now) ((cell_of self.now.number (node_of self.now.text.now node.now)).read (looked_up sign)) faults.old.items faults.new.items result }
    {
        let Node::Word(span) = node else {
            return Err(Stop::OtherShape);
        };
        let word = bytes_at(self.text, *span);
        self.report_word(faults, span.start, is_spelled_for(sign, word), word)?;
        Ok(Term::Leaf(LookedUp {
            bytes: Excerpt::of(word),
            at: span.start,
            sign,
        }))
    }

    /// Reads a word that is not supported: it is reported, and has no other fault.
    pub(crate) fn read_left_out(
        &self,
        word: &[u8],
        at: u32,
        op: Op,
        faults: &mut Vec<Fault>,
    ) -> Result<Term<'a>, Stop>
        ensures { Tells self.now.number (space_of self.now.place.now) (left_out_reading (spot_at self.now.number at) op word.now) faults.old.items faults.new.items result }
    {
        self.report(faults, FaultCode::Unsupported, at, word)?;
        Ok(Term::Form(op, at, Vec::new(self.alloc)))
    }

    /// Reads one word, as it is.
    #[tactic(auto, unfolding(crate::specs::Readings::cell_of, crate::specs::Words::read_word, crate::specs::Words::read_string, crate::specs::Readings::read_list))]
    pub(crate) fn read_fixed(
        &self,
        fixed: &[u8],
        op: Op,
        node: &Node,
        faults: &mut Vec<Fault>,
    ) -> Result<Term<'a>, Stop>
        ensures { Tells self.now.number (space_of self.now.place.now) ((cell_of self.now.number (node_of self.now.text.now node.now)).read (fixed_shape fixed.now op)) faults.old.items faults.new.items result }
    {
        let Node::Word(span) = node else {
            return Err(Stop::OtherShape);
        };
        if bytes_at(self.text, *span) != fixed {
            return Err(Stop::OtherShape);
        }
        Ok(Term::Form(op, span.start, Vec::new(self.alloc)))
    }

    /// Reads one word that is not supported.
    #[tactic(auto, unfolding(crate::specs::Readings::cell_of, crate::specs::Words::read_word, crate::specs::Words::read_string, crate::specs::Readings::read_list))]
    pub(crate) fn read_this_left_out(
        &self,
        word: &[u8],
        node: &Node,
        faults: &mut Vec<Fault>,
    ) -> Result<Term<'a>, Stop>
        ensures { Tells self.now.number (space_of self.now.place.now) ((cell_of self.now.number (node_of self.now.text.now node.now)).read (left_out word.now)) faults.old.items faults.new.items result }
    {
        let Node::Word(span) = node else {
            return Err(Stop::OtherShape);
        };
        let written = bytes_at(self.text, *span);
        if written != word {
            return Err(Stop::OtherShape);
        }
        self.read_left_out(written, span.start, Op::LeftOut, faults)
    }

    /// Reads any word, which is not supported.
    #[tactic(auto, unfolding(crate::specs::Readings::cell_of, crate::specs::Words::read_word, crate::specs::Words::read_string, crate::specs::Readings::read_list))]
    pub(crate) fn read_any_left_out(
        &self,
        node: &Node,
        faults: &mut Vec<Fault>,
    ) -> Result<Term<'a>, Stop>
        ensures { Tells self.now.number (space_of self.now.place.now) ((cell_of self.now.number (node_of self.now.text.now node.now)).read any_left_out) faults.old.items faults.new.items result }
    {
        let Node::Word(span) = node else {
            return Err(Stop::OtherShape);
        };
        let word = bytes_at(self.text, *span);
        self.read_left_out(word, span.start, Op::LeftOut, faults)
    }
}
