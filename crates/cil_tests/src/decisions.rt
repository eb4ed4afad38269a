//! Contexts, names and decisions over compiled tables, and a host that answers: each call once, and what no request can ask. What rules
//! give is in `rows/policies.session`, what booleans do in `rows/booleans.session`.

use crate::growths::FIRST;
use crate::hosts::{Hashers, new_host};
use cil_base::Names;
use cil_mls::Level;
use cil_server::{
    ClassId, Context, Host, QueryFault, Tables, boolean_named, class_named, compile, decide,
    defaults, parse_context, permission_at, permission_named,
};
use cil_syntax::Bytes;
use cil_text_tests::set_of;
use std::alloc::Global;
use std::test::Fail;

const WIDE: &str = "(class wide (p00 p01 p02 p03 p04 p05 p06 p07 p08 p09 p10 p11 p12 p13 p14 p15 \
    p16 p17 p18 p19 p20 p21 p22 p23 p24 p25 p26 p27 p28 p29 p30 p31))(allow a b (wide (p00 p31)))";

/// Two booleans, one of them in a block, and a rule in each branch of a condition over both.
const SWITCHED: &str = "(boolean late true)(block net (boolean open false))\
    (booleanif (and late net.open) (true (allow a b (file (open)))) (false (auditallow b a (file (read)))))";

fn tables(alloc: Global) -> Option<Tables> {
    let modules = set_of(alloc, &[FIRST, WIDE, SWITCHED]).ok()?;
    match compile(alloc, &modules) {
        Ok(compiled) => Some(compiled.tables),
        Err(_) => None,
    }
}

fn class_id(number: usize) -> ClassId {
    ClassId { number }
}

fn context(kind: usize) -> Context {
    let (user, role) = (0, 1);
    Context {
        user,
        role,
        kind,
        low: Level::none(),
        high: Level::none(),
    }
}

/// What is asked of the tables.
enum Ask {
    /// A context, and the number of its type; its user is 0 and its role 1.
    Context(&'static [u8], Option<usize>),
    /// The number of a class, a bit, and the permission there.
    Permission(usize, u32, Option<&'static [u8]>),
    /// The number of a class, the name of a permission, and its bit.
    Bit(usize, &'static [u8], Option<u32>),
    /// The name of a class or of a boolean, and its number.
    Class(&'static [u8], Option<usize>),
    Boolean(&'static [u8], Option<u32>),
    /// Whether the second boolean is turned; the source, the target and the class, and what is allowed, recorded, and recorded when it is
    /// denied.
    Decision(bool, usize, usize, usize, [u32; 3]),
}

/// Also of contexts with bytes that no request can hold in one, of bits and classes that are not there, and of types that are not.
const ASKED: &[Ask] = &[
    Ask::Context(b"u:r:a", Some(0)),
    Ask::Context(b"", None),
    Ask::Context(b"u:r:a ", None),
    Ask::Context(b" u:r:a", None),
    Ask::Context(b"u:r:a\n", None),
    Ask::Permission(0, 0, Some(b"open")),
    Ask::Permission(0, 2, None),
    Ask::Permission(0, u32::MAX, None),
    Ask::Permission(1, 31, Some(b"p31")),
    Ask::Permission(1, 32, None),
    Ask::Permission(2, 0, None),
    Ask::Bit(1, b"p31", Some(31)),
    Ask::Bit(0, b"reads", None),
    Ask::Bit(0, b"", None),
    Ask::Bit(2, b"read", None),
    Ask::Class(b"wide", Some(1)),
    Ask::Class(b"", None),
    Ask::Boolean(b"late", Some(0)),
    Ask::Boolean(b"open", None),
    Ask::Boolean(b"", None),
    Ask::Decision(false, 0, 1, 0, [0b10, 0, 0b11]),
    Ask::Decision(true, 0, 1, 0, [0b11, 0, 0b11]),
    Ask::Decision(false, 0, 1, 2, [0, 0, 0]),
    Ask::Decision(false, 0, 1, usize::MAX, [0, 0, 0]),
    Ask::Decision(false, 2, 1, 0, [0, 0, 0b11]),
    Ask::Decision(false, 0, 2, 0, [0, 0, 0b11]),
    Ask::Decision(false, 2, 2, 0, [0, 0, 0b11]),
];

/// What is decided, with the second boolean turned or not.
fn decided(tables: &Tables, is_on: bool, source: usize, target: usize, class: usize) -> [u32; 3] {
    let mut settings = defaults(tables);
    if settings.get(0) && !settings.get(1) && !settings.get(2) {
        settings.set(1, is_on);
    }
    let (from, onto) = (context(source), context(target));
    let found = decide(tables, &settings, &from, &onto, class_id(class));
    [found.allowed, found.auditallow, found.auditdeny]
}

fn answer_so(tables: &Tables, ask: &Ask) -> bool {
    match *ask {
        Ask::Context(text, kind) => parse_context(tables, text) == kind.map(context),
        Ask::Permission(class, bit, want) => permission_at(tables, class_id(class), bit) == want,
        Ask::Bit(class, name, want) => permission_named(tables, class_id(class), name) == want,
        Ask::Class(name, want) => class_named(tables, name) == want.map(class_id),
        Ask::Boolean(name, want) => boolean_named(tables, name) == want,
        Ask::Decision(is_on, source, target, class, want) => {
            decided(tables, is_on, source, target, class) == want
        }
    }
}

fn is_so(alloc: Global, ask: &Ask) -> bool {
    match tables(alloc) {
        Some(tables) => tables.rules().allow_len() == 3 && answer_so(&tables, ask),
        None => false,
    }
}

#[test]
fn tables_answer(rt: HostRuntime) {
    for (row, ask) in ASKED.iter().enumerate() {
        assert!(rt; is_so(rt.alloc(), ask), "row {row}");
    }
}

/// What becomes of a boolean of the loaded policy, and whether the first type may open the second then.
fn turned(host: &mut Host<Hashers>, name: &[u8], value: bool) -> Result<bool, QueryFault> {
    host.set_boolean(name, value)?;
    host.check(b"u:r:a", b"u:r:b", b"file", b"open")
}

fn loads(alloc: Global, host: &mut Host<Hashers>) -> bool {
    host.install(alloc, FIRST.as_bytes()).is_ok()
        && host.install(alloc, SWITCHED.as_bytes()).is_ok()
        && host.load(alloc).is_ok()
}

/// Whether a host answers nothing before it has a policy, and by the policy then.
fn host_answers(alloc: Global, host: &mut Host<Hashers>) -> bool {
    host.permission(b"file", 0).is_none()
        && turned(host, b"late", true) == Err(QueryFault::NoPolicy)
        && loads(alloc, host)
        && turned(host, b"net.open", true) == Ok(true)
        && turned(host, b"net", true) == Err(QueryFault::NoBoolean)
        && turned(host, b"late", false) == Ok(false)
        && host.permission(b"file", 1) == Some(b"read".as_slice())
        && host.permission(b"file", 2).is_none()
        && host.permission(b"file", u32::MAX).is_none()
        && host.permission(b"dir", 0).is_none()
        && host.permission(b".file", 0).is_none()
}

#[test]
fn a_host_answers(rt: HostRuntime) -> Result<(), Fail> {
    let mut host = new_host(rt.alloc()).ok_or("no host")?;
    let is_so = host_answers(rt.alloc(), &mut host);
    assert!(rt; is_so);
    Ok(())
}

fn are_kept(alloc: Global) -> Option<bool> {
    let name = Bytes::from_vec(Vec::from_slice(alloc, b"read").ok()?);
    let copy = Bytes::copy_of(alloc, name.as_slice()).ok()?;
    let names = Names::from_vec(vec![in alloc; copy].ok()?);
    let [kept] = names.as_slice() else {
        return None;
    };
    Some(kept.as_slice() == b"read".as_slice())
}

#[test]
fn names_are_kept(rt: HostRuntime) {
    assert!(rt; are_kept(rt.alloc()) == Some(true));
}

/// The faults of queries, and their numbers and sentences for people.
const QUERIES: &[(QueryFault, &str)] = &[
    (QueryFault::NoPolicy, "71 no policy is loaded"),
    (QueryFault::BadSource, "72 the source is no valid context"),
    (QueryFault::BadTarget, "72 the target is no valid context"),
    (QueryFault::NoClass, "73 no class has this name"),
    (
        QueryFault::NoPermission,
        "74 the class has no such permission",
    ),
    (QueryFault::NoBoolean, "75 no boolean has this name"),
];

#[test]
fn queries_are_refused_by_number_and_sentence(rt: HostRuntime) -> Result<(), Fail> {
    for &(fault, want) in QUERIES {
        let told = format!(in rt.alloc(); "{} {fault}", fault.number())?;
        assert_eq!(rt; told.as_str(), want);
    }
    Ok(())
}
