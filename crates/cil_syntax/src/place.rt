//! What is round the nodes that are read: the blocks, how far inside they are, and the parameters of the macro.

ghost use Rattle.std.specs.Prelude.{◌≡◌, ◌++◌, ◌∷◌, [], IfOk, List, ℕ, None, Some, map, if◌then◌else◌};
ghost use Rattle.std.specs.List.{join_with_byte};
ghost use Rattle.cil_syntax.specs.Around.{IsAround, is_block, names_of, names_shared};
ghost use Rattle.cil_syntax.specs.Entries.{IsLike};
ghost use Rattle.cil_syntax.specs.Said.{all_said, args_of};
ghost use Rattle.cil_syntax.specs.Spelling.{is_one_of, same_bytes};
ghost use Rattle.cil_syntax.specs.Program.{statement_of};
ghost use Rattle.cil_syntax.specs.Table.{Entry as of_table};
ghost use Rattle.cil_syntax.specs.Table.{entry_of};
ghost use Rattle.cil_syntax.specs.Written.{Context, allows, at_top, bytes_of, depth_of, front_word, innermost, inside_of, is_abstraction, is_macro, may_stand, named_in_front, names_its_block, nesting_within, parameters_of, parameters_round};

use crate::clashes::{name_of_front, parameter_set};
use crate::entry::Entry;
use crate::kind::{Keyword, Nesting};
use crate::name_set::NameSet;
use crate::program::Statement;
use crate::term::Term;
use cil_base::NoMemory;
use std::alloc::Global;
use std::rc::Rc;

/// What is round some nodes.
#[derive(Drop)]
pub(crate) struct Place<'a> {
    /// The names of the blocks, the outermost first.
    pub(crate) blocks: Vec<&'a [u8]>,
    /// How far inside the nodes are.
    pub(crate) nesting: Nesting,
    /// The number of the statement in which they directly stand; none at the top of a module.
    pub(crate) under: Option<usize>,
    /// The names of the macro's parameters, which all bodies in the macro share; none outside macros.
    pub(crate) parameters: Option<Rc<NameSet<'a>>>,
}

/// Names, joined by dots. Errors: out of memory.
pub fn joined(alloc: Global, names: &[&[u8]]) -> Result<Vec<u8>, NoMemory>
    ensures { IfOk result (λ bytes. bytes.items ≡ join_with_byte 46 (names_of names.now)) }
{
    let mut bytes = Vec::new(alloc);
    for index in 0..names.len() {
        if index > 0 {
            bytes.push(b'.')?;
        }
        bytes.extend_from_slice(names[index])?;
    }
    Ok(bytes)
}

impl Nesting {
    /// Its rank, by what is round it: 0 with nothing but blocks, 1 with an optional too, 2 with a branch.
    fn depth(self) -> u8
        ensures { result ≡ depth_of self }
    {
        match self {
            Nesting::InBlock => 0,
            Nesting::InOptional => 1,
            Nesting::InBranch => 2,
        }
    }

    /// Whether a statement that may stand as far inside as `limit` may stand here.
    fn allows(self, limit: Nesting) -> bool
        ensures { result ≡ allows self limit }
    {
        self.depth() <= limit.depth()
    }
}

impl Keyword {
    /// Whether the statement is a block.
    fn is_block(self) -> bool
        ensures { result ≡ is_block self }
    {
        matches!(self, Keyword::Block)
    }

    /// Whether the statement makes its block abstract.
    fn is_abstraction(self) -> bool
        ensures { result ≡ is_abstraction self }
    {
        matches!(self, Keyword::BlockAbstract)
    }
}

/// The bytes of the word in front of some terms. A name or a list has none.
fn front_word<'a>(terms: &[Term<'a>]) -> &'a [u8]
    ensures { (m : ℕ) → result.now ≡ front_word (all_said m terms.now) }
{
    match terms {
        [] => b"",
        [first, ..] => match first {
            Term::Leaf(word) => word.bytes.as_slice(),
            Term::Name(_, _) => b"",
            Term::Form(_, _, _) => b"",
        },
    }
}

impl<'a> Place<'a> {
    /// The top of a module.
    pub(crate) fn top(alloc: Global) -> Place<'a>
        ensures round { IsAround at_top result }
        ensures under { result.under ≡ None }
    {
        Place {
            blocks: Vec::new(alloc),
            nesting: Nesting::InBlock,
            under: None,
            parameters: None,
        }
    }

    /// Whether a statement may stand here, as far as its first word tells.
    pub(crate) fn may_have(&self, entry: &Entry) -> bool
        ensures { (context : Context) → IsAround context self.now → (e : of_table) → IsLike «entry».now e → result ≡ may_stand context e }
    {
        self.nesting.allows(entry.nesting)
            && !(entry.keyword.is_abstraction() && self.blocks.is_empty())
    }

    /// Whether what is behind the word of a blockabstract names the block. Any other statement passes.
    pub(crate) fn is_named_by(&self, keyword: Keyword, terms: &[Term<'a>]) -> bool
        ensures { (context : Context) → IsAround context self.now → (m : ℕ) → result ≡ names_its_block context keyword (all_said m terms.now) }
    {
        !keyword.is_abstraction() || self.is_innermost(front_word(terms))
    }

    /// Whether a word is the name of the innermost block. On top it is the empty word.
    fn is_innermost(&self, word: &[u8]) -> bool
        ensures { (context : Context) → IsAround context self.now → result ≡ same_bytes word.now (innermost context.space) }
    {
        match self.blocks.as_slice().last() {
            Some(block) => word == *block,
            None => word.is_empty(),
        }
    }

    /// Whether a parameter of the macro has a name.
    pub(crate) fn has_parameter(&self, name: &'a [u8]) -> bool
        ensures { (context : Context) → IsAround context self.now → result ≡ is_one_of (parameters_round context.macro) name.now }
    {
        match &self.parameters {
            Some(parameters) => parameters.as_ref().has(name),
            None => false,
        }
    }

    /// The inside of a statement that has a body. The names of the blocks are copied, at most as many as lists nest.
    pub(crate) fn inside(
        &self,
        alloc: Global,
        statement: &Statement<'a>,
        number: usize,
        nesting: Nesting,
    ) -> Result<Place<'a>, NoMemory>
        ensures round { IfOk result (λ place. (context : Context) → IsAround context self.now → nesting ≡ nesting_within (entry_of statement.now.keyword).body context.nesting → IsAround (inside_of context (statement_of statement.now)) place) }
        ensures under { IfOk result (λ place. place.under ≡ Some number) }
    {
        let blocks = self.blocks_inside(alloc, statement)?;
        let parameters = self.parameters_inside(alloc, statement)?;
        Ok(Place {
            blocks,
            nesting,
            under: Some(number),
            parameters,
        })
    }

    /// The blocks round what is in a statement.
    fn blocks_inside(
        &self,
        alloc: Global,
        statement: &Statement<'a>,
    ) -> Result<Vec<&'a [u8]>, NoMemory>
        ensures { IfOk result (λ blocks. names_of blocks.items ≡ names_of self.now.blocks.items ++ (if is_block statement.now.keyword then bytes_of (named_in_front (args_of statement.now)) ∷ [] else [])) }
    {
        let mut blocks = Vec::from_slice(alloc, self.blocks.as_slice())?;
        if statement.keyword.is_block() {
            blocks.push(first_name(statement.args.as_slice()))?;
        }
        Ok(blocks)
    }

    /// The parameters of the macro round what is in a statement.
    fn parameters_inside(
        &self,
        alloc: Global,
        statement: &Statement<'a>,
    ) -> Result<Option<Rc<NameSet<'a>>>, NoMemory>
        ensures { IfOk result (λ shared. (word : List ℕ) → is_one_of (names_shared shared) word
            ≡ is_one_of (if is_macro statement.now.keyword then map (λ p. p.name) (parameters_of (args_of statement.now)) else names_shared self.now.parameters) word) }
    {
        if statement.keyword.is_macro() {
            let set = parameter_set(alloc, statement.args.as_slice())?;
            return Ok(Some(Rc::new(alloc, set)?));
        }
        match &self.parameters {
            Some(parameters) => Ok(Some(parameters.clone()?)),
            None => Ok(None),
        }
    }
}

/// The bytes of the name in front of some terms. A word or a list has none.
fn first_name<'a>(terms: &[Term<'a>]) -> &'a [u8]
    ensures { (m : ℕ) → result.now ≡ bytes_of (named_in_front (all_said m terms.now)) }
{
    match name_of_front(terms) {
        Some(name) => name.bytes,
        None => b"",
    }
}
