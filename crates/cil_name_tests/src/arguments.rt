//! What may be an argument of the kinds of levels, and what the bodies of macros declare.

use crate::answers::{Question, is_answer};
use cil_macros::{Instances, declared_in_bodies, is_of_kind};
use cil_syntax::Sign::{
    Blocks, Classes, Macros, Permission, PlainClass, Roles, Text, Types, Unread, Users,
};
use cil_syntax::{Op, Program, Sign, Statement, written};
use cil_text_tests::set_of;
use std::alloc::Global;
use std::test::Fail;

/// Whether the one argument of the call that is the first statement has the form of a kind.
fn is_argument(statements: &[Statement], kind: Op) -> Option<bool> {
    let arguments = statements.first()?.listed_behind_first()?;
    Some(is_of_kind(kind, arguments.first()?))
}

#[derive(Drop)]
struct IsArgument(Op, bool);

impl Question for IsArgument {
    fn answer(&self, _alloc: Global, instances: &Instances, _out: &mut String) -> bool {
        is_argument(instances.spaces().statements(), self.0) == Some(self.1)
    }
}

/// The kind of a parameter, a call with an argument, and whether that has the form of the kind. Those of other kinds are in sessions.
const ARGUMENTS: &[(Op, &str, bool)] = &[
    (Op::SensitivityKind, "(call m (s0))", true),
    (Op::SensitivityKind, "(call m ((s0)))", false),
    (Op::CategoryKind, "(call m (c0))", true),
    (Op::CategoryKind, "(call m ((c0)))", false),
    (Op::CategoryKind, "(call m (all))", false),
    (Op::CategorySetKind, "(call m (c0))", true),
    (Op::CategorySetKind, "(call m (all))", true),
    (Op::CategorySetKind, "(call m (()))", true),
    (Op::CategorySetKind, "(call m ((c0 (c1 c2))))", true),
    (Op::CategorySetKind, "(call m ((range c0 c3)))", true),
    (Op::CategorySetKind, "(call m ((not (c0 c1))))", true),
    (Op::CategorySetKind, "(call m ((xor c (and d all))))", true),
    (Op::CategorySetKind, "(call m ((range c0)))", false),
    (Op::CategorySetKind, "(call m ((range c0 (c1))))", false),
    (Op::CategorySetKind, "(call m ((range c0 all)))", false),
    (Op::CategorySetKind, "(call m ((and c0)))", false),
    (Op::CategorySetKind, "(call m ((not c0 c1)))", false),
    (Op::CategorySetKind, "(call m ((c0 and c1)))", false),
    (Op::CategorySetKind, "(call m ((c0 \"c1\")))", false),
    (Op::LevelKind, "(call m (l))", true),
    (Op::LevelKind, "(call m ((s0)))", true),
    (Op::LevelKind, "(call m ((s0 (range c0 c3))))", true),
    (Op::LevelKind, "(call m ((s0 c0 c1)))", false),
    (Op::LevelKind, "(call m (()))", false),
    (Op::LevelRangeKind, "(call m (r))", true),
    (Op::LevelRangeKind, "(call m ((l (s0))))", true),
    (Op::LevelRangeKind, "(call m ((l)))", false),
    (Op::LevelRangeKind, "(call m ((l l l)))", false),
];

#[test]
fn arguments_have_the_form_of_their_kinds(rt: HostRuntime) {
    for &(kind, call, wanted) in ARGUMENTS {
        let is_so = is_answer(rt.alloc(), &[call], &IsArgument(kind, wanted), "");
        assert!(rt; is_so, "{kind:?} {call}");
    }
}

/// Two macros that declare one name in two kinds, and a type outside of both. The macros have the numbers 0 and 3.
const TWO: &str = "(macro m () (type x)(user u))(macro k () (role x))(type y)";

const SIGNS: &[Sign] = &[
    Types, Roles, Users, Classes, PlainClass, Macros, Blocks, Permission, Text, Unread,
];

/// The number of a macro, a word, and what its body declares under that name.
type Row = (usize, &'static str, Option<Sign>);

const DECLARED: &[Row] = &[
    (0, "x", Some(Types)),
    (0, "u", Some(Users)),
    (3, "x", Some(Roles)),
    (3, "u", None),
    // It is declared outside of all bodies, or it is a macro; a name is a whole one.
    (0, "y", None),
    (3, "y", None),
    (0, "m", None),
    (0, "xx", None),
    (0, "", None),
];

/// Whether the word of a row is declared as it says, and as nothing else.
fn declares(alloc: Global, program: &Program, row: Row) -> bool {
    let (number, word, want) = row;
    let Ok(declared) = declared_in_bodies(alloc, program.statements()) else {
        return false;
    };
    for &sign in SIGNS {
        if declared.has(number, word.as_bytes(), sign) != (want == Some(sign)) {
            return false;
        }
    }
    true
}

#[test]
fn bodies_declare_what_is_written_in_them(rt: HostRuntime) -> Result<(), Fail> {
    let modules = set_of(rt.alloc(), &[TWO])?;
    let program = written(rt.alloc(), &modules)?;
    for &row in DECLARED {
        assert!(rt; declares(rt.alloc(), &program, row), "{row:?}");
    }
    Ok(())
}
