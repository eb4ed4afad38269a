//! What terms say, by their forms: a word, a parameter of a macro, a class with its permissions. Each call answers the
//! parts exactly where the term, or terms, have the form.

ghost use Rattle.std.specs.Prelude.{◌≡◌, ◌↔◌, ℕ, None, Some, IsTrue, MatchOption};
ghost use Rattle.cil_syntax.specs.declared.term.Op.TheVariants as ops;
ghost use Rattle.cil_syntax.specs.Forms.{BeginsWithName, IsClassForm, class_form, is_class_list, kind_and_name, leaf_of, name_in_front, op_of, parameter_form, word_and_term, word_in_front};
ghost use Rattle.cil_syntax.specs.Said.{all_said, said_of};
ghost use Rattle.cil_syntax.specs.Terms.{Leaf, cons, nil};

use crate::term::{Op, Term, Word};
use cil_faults::Spot;

/// A name that is declared.
#[derive(Clone, Copy)]
pub struct DeclaredName<'a> {
    /// Where it is written.
    pub at: Spot,
    /// Its bytes.
    pub bytes: &'a [u8],
}

/// A class, and an expression over its permissions.
#[derive(Drop)]
pub struct ClassParts<'t, 'a> {
    pub class: Word<'a>,
    pub permissions: &'t Term<'a>,
}

/// A word, and the terms behind it.
#[derive(Drop)]
pub struct WordAndTerms<'t, 'a> {
    pub word: Word<'a>,
    pub terms: &'t [Term<'a>],
}

/// A parameter of a macro.
#[derive(Drop)]
pub struct Parameter<'a> {
    /// The kind of its arguments.
    pub kind: Op,
    pub name: DeclaredName<'a>,
}

impl<'a> Term<'a> {
    /// The looked-up word that the term is, in a statement of this module.
    pub fn word(&self, module: u64) -> Option<Word<'a>>
        ensures { MatchOption result (leaf_of (said_of «module» self.now) ≡ None) (λ word. said_of «module» self.now ≡ Leaf word) }
    {
        match self {
            Term::Leaf(word) => Some(word.in_module(module)),
            Term::Name(_, _) => None,
            Term::Form(_, _, _) => None,
        }
    }

    /// What joins the parts of the term. This does not depend on the module of its statement.
    pub fn op(&self) -> Option<Op>
        ensures { (m : ℕ) → result ≡ op_of (said_of m self.now) }
    {
        match self {
            Term::Leaf(_) => None,
            Term::Name(_, _) => None,
            Term::Form(op, _, _) => Some(*op),
        }
    }

    /// The parameter of a macro that the term is, in a statement of this module.
    pub fn parameter(&self, module: u64) -> Option<Parameter<'a>>
        ensures { MatchOption result (parameter_form (said_of «module» self.now) ≡ None)
            (λ p. parameter_form (said_of «module» self.now) ≡ Some (p.kind, record { at = p.name.at; name = p.name.bytes.now })) }
    {
        match self {
            Term::Leaf(_) => None,
            Term::Name(_, _) => None,
            Term::Form(_, _, parts) => kind_and_name(parts.as_slice(), module),
        }
    }

    /// The parts of a term that is a class with an expression over its permissions, in a statement of this module.
    pub fn class_parts(&self, module: u64) -> Option<ClassParts<'_, 'a>>
        ensures { MatchOption result (class_form (said_of «module» self.now) ≡ None) (λ parts. IsClassForm (said_of «module» self.now) parts.class (said_of «module» parts.permissions.now)) }
    {
        match self {
            Term::Leaf(_) => None,
            Term::Name(_, _) => None,
            Term::Form(op, _, parts) => {
                if op.is_class_list() {
                    word_and_term(parts.as_slice(), module)
                } else {
                    None
                }
            }
        }
    }
}

impl Op {
    /// Whether it joins a class and its permissions.
    pub fn is_class_list(self) -> bool
        ensures list { result ≡ is_class_list self }
        ensures op { IsTrue result ↔ (self ≡ ops.ClassPermissions) }
    {
        matches!(self, Op::ClassPermissions)
    }
}

// ---- the terms of a statement, which is of this module

pub(crate) fn name_in_front<'a>(terms: &[Term<'a>], module: u64) -> Option<DeclaredName<'a>>
    ensures { MatchOption result (name_in_front (all_said «module» terms.now) ≡ None) (λ name. BeginsWithName (all_said «module» terms.now) name.at name.bytes.now) }
{
    match terms {
        [] => None,
        [first, ..] => match first {
            Term::Name(at, bytes) => Some(DeclaredName {
                at: Spot::of(module, *at),
                bytes: bytes.as_slice(),
            }),
            Term::Leaf(_) => None,
            Term::Form(_, _, _) => None,
        },
    }
}

fn kind_and_name<'a>(terms: &[Term<'a>], module: u64) -> Option<Parameter<'a>>
    ensures { MatchOption result (kind_and_name (all_said «module» terms.now) ≡ None)
        (λ p. kind_and_name (all_said «module» terms.now) ≡ Some (p.kind, record { at = p.name.at; name = p.name.bytes.now })) }
{
    match terms {
        [] => None,
        [kind, rest @ ..] => {
            let Some(kind) = kind.op() else {
                return None;
            };
            let Some(name) = name_in_front(rest, module) else {
                return None;
            };
            Some(Parameter { kind, name })
        }
    }
}

fn word_and_term<'t, 'a>(terms: &'t [Term<'a>], module: u64) -> Option<ClassParts<'t, 'a>>
    ensures { MatchOption result (word_and_term (all_said «module» terms.now) ≡ None) (λ parts. all_said «module» terms.now ≡ cons (Leaf parts.class) (cons (said_of «module» parts.permissions.now) nil)) }
{
    match terms {
        [] => None,
        [_] => None,
        [class, permissions] => {
            let Some(class) = class.word(module) else {
                return None;
            };
            Some(ClassParts { class, permissions })
        }
        [_, _, _, ..] => None,
    }
}

/// The word in front of some terms, and those behind it, in a statement of this module.
pub fn word_and_terms<'t, 'a>(terms: &'t [Term<'a>], module: u64) -> Option<WordAndTerms<'t, 'a>>
    ensures { MatchOption result (word_in_front (all_said «module» terms.now) ≡ None) (λ found. all_said «module» terms.now ≡ cons (Leaf found.word) (all_said «module» found.terms.now)) }
{
    match terms {
        [] => None,
        [first, rest @ ..] => {
            let Some(word) = first.word(module) else {
                return None;
            };
            Some(WordAndTerms { word, terms: rest })
        }
    }
}
