//! What a written statement is, what it is named, and in which one it stands.

ghost use Rattle.std.specs.Prelude.{◌≡◌};
ghost use Rattle.cil_syntax.specs.Program.{IsNested, program_of};
ghost use Rattle.cil_blocks.specs.Contents.{is_block, is_inheriting, is_optional, keeps_place, name_of};
ghost use Rattle.cil_blocks.specs.Entries.{statement_at};
ghost use Rattle.cil_blocks.specs.WrittenSpaces.{under_at};

use cil_syntax::{Keyword, Statement};

/// Whether a statement is a block.
pub fn is_block_at(statements: &[Statement], number: usize) -> bool
    ensures { IsNested statements.now → result ≡ is_block (statement_at (program_of statements.now) number).statement.keyword }
{
    match statements.get(number) {
        None => false,
        Some(statement) => is_block(statement.keyword),
    }
}

/// Whether a statement is an optional.
pub fn is_optional_at(statements: &[Statement], number: usize) -> bool
    ensures { IsNested statements.now → result ≡ is_optional (statement_at (program_of statements.now) number).statement.keyword }
{
    match statements.get(number) {
        None => false,
        Some(statement) => is_optional(statement.keyword),
    }
}

/// Whether what is in a statement stands where the statement itself does: it is an optional or a booleanif.
pub fn keeps_place_at(statements: &[Statement], number: usize) -> bool
    ensures { IsNested statements.now → result ≡ keeps_place (statement_at (program_of statements.now) number).statement.keyword }
{
    match statements.get(number) {
        None => false,
        Some(statement) => keeps_place(statement.keyword),
    }
}

pub fn is_block(keyword: Keyword) -> bool
    ensures { result ≡ is_block keyword }
{
    matches!(keyword, Keyword::Block)
}

pub fn is_inheriting(keyword: Keyword) -> bool
    ensures { result ≡ is_inheriting keyword }
{
    matches!(keyword, Keyword::BlockInherit)
}

pub fn is_optional(keyword: Keyword) -> bool
    ensures { result ≡ is_optional keyword }
{
    matches!(keyword, Keyword::Optional)
}

pub fn keeps_place(keyword: Keyword) -> bool
    ensures { result ≡ keeps_place keyword }
{
    matches!(keyword, Keyword::Optional | Keyword::BooleanIf)
}

/// The name that a statement declares; an empty one where it declares none.
pub fn name_at<'a>(statements: &[Statement<'a>], number: usize) -> &'a [u8]
    ensures { IsNested statements.now → result.now ≡ name_of (statement_at (program_of statements.now) number) }
{
    match statements.get(number) {
        None => &[],
        Some(statement) => match statement.declared_name() {
            None => &[],
            Some(name) => name.bytes,
        },
    }
}

/// The number of the statement in which another one directly stands.
pub fn under_at(statements: &[Statement], number: usize) -> Option<usize>
    ensures { result ≡ under_at statements.now number }
{
    match statements.get(number) {
        None => None,
        Some(statement) => statement.under,
    }
}
