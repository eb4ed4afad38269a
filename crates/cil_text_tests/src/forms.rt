//! Written statements: what they say, in which statement each is, and what they are asked by their forms.

use crate::set_of;
use cil_syntax::{Excerpt, LookedUp, Op, Sign, Spot, Statement, Term, word_and_terms, written};
use std::alloc::Global;
use std::test::Fail;

/// Adds a term: what it is, where it begins, and what it says.
fn show_term(out: &mut String, term: &Term) -> Result<(), Fail> {
    match term {
        Term::Leaf(word) => {
            let (sign, at, bytes) = (word.sign, word.at, text(word.bytes.as_slice()));
            write!(out, " {sign:?}:{at}:{bytes}")?;
        }
        Term::Name(at, bytes) => write!(out, " Name:{at}:{}", text(bytes.as_slice()))?,
        Term::Form(op, at, parts) => {
            write!(out, " {op:?}:{at}[")?;
            for part in parts {
                show_term(out, part)?;
            }
            write!(out, " ]")?;
        }
    }
    Ok(())
}

/// Adds a statement, in one line.
fn show_statement(out: &mut String, statement: &Statement) -> Result<(), Fail> {
    let (keyword, module, at) = (statement.keyword, statement.at.module, statement.at.at);
    write!(out, "{keyword:?}:{module}:{at}")?;
    if let Some(under) = statement.under {
        write!(out, " in {under}")?;
    }
    for term in &statement.args {
        show_term(out, term)?;
    }
    write!(out, "\n")?;
    Ok(())
}

/// The statements of some texts, each in one line.
fn shown(alloc: Global, texts: &[&str]) -> Result<String, Fail> {
    let modules = set_of(alloc, texts)?;
    let program = written(alloc, &modules)?;
    let mut out = String::new(alloc);
    for statement in program.statements() {
        show_statement(&mut out, statement)?;
    }
    Ok(out)
}

/// Modules, and what their statements say; behind `in` the number of the statement in which one is.
const SAID: &[(&[&str], &str)] = &[
    (&[""], ""),
    (
        &[
            "(class file (open read))(user u)(role r)(type a)(type b)(userrole u r)(roletype r a)(roletype r b)(allow a b (file (read)))",
        ],
        "Class:0:0 Name:7:file Listed:12[ Name:13:open Name:18:read ]\nUser:0:24 Name:30:u\nRole:0:32 Name:38:r\nType_:0:40 Name:46:a\nType_:0:48 Name:54:b\nUserRole:0:56 Users:66:u Roles:68:r\nRoleType:0:70 Roles:80:r Types:82:a\nRoleType:0:84 Roles:94:r Types:96:b\nAllow:0:98 Types:105:a Types:107:b ClassPermissions:109[ Classes:110:file Union:115[ Permission:116:read ] ]\n",
    ),
    (
        &["(allow .b.c self (x.y ((a) b)))"],
        "Allow:0:0 Types:7:.b.c Itself:12[ ] ClassPermissions:17[ Classes:18:x.y Union:22[ Union:23[ Permission:24:a ] Permission:27:b ] ]\n",
    ),
    (
        &["(common k (p q))(classcommon c k)(allow a self (c (and (not x) (xor all (y)))))"],
        "Common:0:0 Name:8:k Listed:10[ Name:11:p Name:13:q ]\nClassCommon:0:16 PlainClass:29:c Commons:31:k\nAllow:0:33 Types:40:a Itself:42[ ] ClassPermissions:47[ Classes:48:c And:50[ Not:55[ Permission:60:x ] Xor:63[ All:68[ ] Union:72[ Permission:73:y ] ] ] ]\n",
    ),
    (
        &["(user u)(type c)", "(type b) (type a)", "(type a)"],
        "Type_:0:0 Name:6:a\nType_:1:0 Name:6:b\nType_:1:9 Name:15:a\nUser:2:0 Name:6:u\nType_:2:8 Name:14:c\n",
    ),
    (
        &[
            "(block b (type a)(blockinherit c))(macro m ((type p)))(call m (a (b) \"s\"))(filecon x)",
        ],
        "Block:0:0 Name:7:b\nType_:0:9 in 0 Name:15:a\nBlockInherit:0:17 in 0 Blocks:31:c\nMacro:0:34 Name:41:m Parameters:43[ Parameter:44[ TypeKind:45[ ] Name:50:p ] ]\nCall:0:54 Macros:60:m Arguments:62[ Unread:63:a UnreadList:65[ Unread:66:b ] UnreadText:69[ Name:69:\"s\" ] ]\nSetAside:0:74\n",
    ),
    (
        &["(block a (type b)(block c (type d)))(macro m () (type e))"],
        "Block:0:0 Name:7:a\nType_:0:9 in 0 Name:15:b\nBlock:0:17 in 0 Name:24:c\nType_:0:26 in 2 Name:32:d\nMacro:0:36 Name:43:m Parameters:45[ ]\nType_:0:48 in 4 Name:54:e\n",
    ),
    (
        &[
            "(macro m ((role r)(user u)(class c)(name n)(string s)) (optional o (allow .r self (c ((a) ())))))(call m)(call .m ())(sid (\"x\"))",
        ],
        "Macro:0:0 Name:7:m Parameters:9[ Parameter:10[ RoleKind:11[ ] Name:16:r ] Parameter:18[ UserKind:19[ ] Name:24:u ] Parameter:26[ ClassKind:27[ ] Name:33:c ] Parameter:35[ NameKind:36[ ] Name:41:n ] Parameter:43[ TextKind:44[ ] Name:51:s ] ]\nOptional:0:55 in 0 Name:65:o\nAllow:0:67 in 1 Types:74:.r Itself:77[ ] ClassPermissions:82[ Classes:83:c Union:85[ Union:86[ Permission:87:a ] Union:90[ ] ] ]\nCall:0:97 Macros:103:m\nCall:0:105 Macros:111:.m Arguments:114[ ]\nSetAside:0:117\n",
    ),
];

#[test]
fn statements_say_what_is_written(rt: HostRuntime) -> Result<(), Fail> {
    for &(texts, want) in SAID {
        assert_eq!(rt; shown(rt.alloc(), texts)?.as_str(), want, "{want}");
    }
    Ok(())
}

/// The words of a text that is a part of another.
fn text(bytes: &[u8]) -> &str {
    match str::from_utf8(bytes) {
        Ok(text) => text,
        Err(_) => "no text",
    }
}

/// Adds what a statement declares and how many items are listed behind it, if it declares a name.
fn show_name(out: &mut String, statement: &Statement) -> Result<bool, Fail> {
    let Some(name) = statement.declared_name() else {
        return Ok(false);
    };
    let items = statement.listed_behind_name();
    let listed = items.map_or(0, |items| items.len());
    write!(
        out,
        "{} at {}, {listed} listed",
        text(name.bytes),
        name.at.at
    )?;
    Ok(true)
}

/// Adds the words of a statement that says two.
fn show_two(out: &mut String, statement: &Statement) -> Result<bool, Fail> {
    let Some(words) = statement.two_words() else {
        return Ok(false);
    };
    let (first, second) = (words.first.bytes, words.second.bytes);
    write!(
        out,
        "{} and {}",
        text(first.as_slice()),
        text(second.as_slice())
    )?;
    Ok(true)
}

/// The word of a term, where it is one.
fn word_of<'a>(term: &Term<'a>) -> &'a str {
    match term.word(0) {
        Some(word) => text(word.bytes.as_slice()),
        None => "no word",
    }
}

/// The class word of a term, where it is a class permission.
fn class_of<'a>(term: &Term<'a>) -> &'a str {
    match term.class_parts(0) {
        Some(parts) => text(parts.class.bytes.as_slice()),
        None => "no class",
    }
}

/// Adds the source, the target and the class of a rule.
fn show_rule(out: &mut String, statement: &Statement) -> Result<bool, Fail> {
    let Some(rule) = statement.rule_parts() else {
        return Ok(false);
    };
    let source = text(rule.source.bytes.as_slice());
    let (target, class) = (word_of(rule.target), class_of(rule.class_permission));
    write!(out, "{source} to {target}: {class}")?;
    Ok(true)
}

/// A statement in one line: its name, its two words, or the parts of its rule.
fn line_of(alloc: Global, statement: &Statement) -> Result<String, Fail> {
    let mut out = String::new(alloc);
    let is_shown = show_name(&mut out, statement)?
        || show_two(&mut out, statement)?
        || show_rule(&mut out, statement)?;
    if !is_shown {
        out.push_str("no form")?;
    }
    Ok(out)
}

/// Statements, and behind arrows what they are in one line.
const LINES: &[&str] = &[
    "(class file (open read)) => file at 7, 2 listed",
    "(type a) => a at 6, 0 listed",
    "(userrole u r) => u and r",
    "(allow a b (file (read))) => a to b: file",
    "(allow a self (file (read))) => a to no word: file",
    "(blockinherit b) => no form",
];

/// The first statement of a text in one line.
fn first_line(alloc: Global, text: &str) -> Result<String, Fail> {
    let modules = set_of(alloc, &[text])?;
    let program = written(alloc, &modules)?;
    let statement = program.statements().first().ok_or("no statement")?;
    line_of(alloc, statement)
}

#[test]
fn statements_are_asked_by_their_forms(rt: HostRuntime) -> Result<(), Fail> {
    for row in LINES {
        let (text, want) = row.split_once(" => ").ok_or("no row")?;
        assert_eq!(rt; first_line(rt.alloc(), text)?.as_str(), want, "{text}");
    }
    Ok(())
}

/// The word in front of terms, where there is one.
fn word_in_front<'t, 'a>(terms: &'t [Term<'a>], module: u64) -> Option<&'a str> {
    match word_and_terms(terms, module) {
        Some(found) => Some(text(found.word.bytes.as_slice())),
        None => None,
    }
}

/// How many terms are behind the word in front, where there is one.
fn terms_behind<'t, 'a>(terms: &'t [Term<'a>], module: u64) -> Option<usize> {
    match word_and_terms(terms, module) {
        Some(found) => Some(found.terms.len()),
        None => None,
    }
}

#[test]
fn terms_are_asked_by_their_forms(rt: HostRuntime) -> Result<(), Fail> {
    let bytes = Excerpt::of(b"file");
    let word = LookedUp {
        bytes,
        at: 7,
        sign: Sign::Classes,
    };
    assert_eq!(rt; word.in_module(2).at, Spot::of(2, 7));
    let terms = [Term::Leaf(word), Term::Name(12, Excerpt::of(b"read"))];
    assert_eq!(rt; word_in_front(&terms, 2), Some("file"));
    assert_eq!(rt; terms_behind(&terms, 2), Some(1));
    assert_eq!(rt; word_in_front(&[], 2), None);
    assert!(rt; Op::ClassPermissions.is_class_list());
    assert!(rt; !Op::Union.is_class_list());
    Ok(())
}

#[test]
fn statements_are_small(rt: HostRuntime) {
    assert_eq!(rt; size_of::<Term>(), 32);
    assert_eq!(rt; size_of::<Statement>(), 64);
}
