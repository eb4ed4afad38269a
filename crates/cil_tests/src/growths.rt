//! Tests that pass with every growth allowed, and with any one of them refused (`scripts/refuse-growths` does so in turn):
//! the call that lost it says so and has changed nothing, so each call is tried once more.

use crate::hosts::{Hashers, new_host};
use cil_modset::ModuleSet;
use cil_server::{Counted, Host, QueryFault, Served, compile, serve};
use cil_syntax::{Failure, FaultList, render};
use cil_text_tests::set_of;
use std::alloc::Global;
use std::test::Fail;

/// A module with a class, a user, a role, two types and a rule: 123 bytes.
pub(crate) const FIRST: &str =
    "(class file (open read))(user u)(role r)(type a)(type b)(userrole u r)(roletype r a)(roletype r b)(allow a b (file (read)))";

/// Adds two numbers. What holds values calls it, since to write is dear where they are held.
fn show_counts(out: &mut String, first: u64, second: u64) -> bool {
    write!(out, "{first} {second}").is_ok()
}

/// Adds the lines of faults. False where there is no memory.
pub(crate) fn show_faults(alloc: Global, faults: &FaultList, out: &mut String) -> bool {
    let Ok(lines) = render(alloc, faults) else {
        return false;
    };
    str::from_utf8(lines.as_slice()).is_ok_and(|text| out.push_str(text).is_ok())
}

/// Adds how many optionals a policy has and how many reasons, or the lines of its faults. False where there is no memory.
fn show_compiled(alloc: Global, modules: &ModuleSet, out: &mut String) -> bool {
    match compile(alloc, modules) {
        Ok(found) => show_counts(
            out,
            found.optionals.len() as u64,
            found.reasons.len() as u64,
        ),
        Err(Failure::Faults(faults)) => show_faults(alloc, &faults, out),
        Err(Failure::NoMemory) => false,
    }
}

/// The same of one text, or of two with a stroke between.
fn compile_texts(alloc: Global, texts: &str, out: &mut String) -> bool {
    let made = match texts.split_once(" | ") {
        Some((first, second)) => set_of(alloc, &[first, second]),
        None => set_of(alloc, &[texts]),
    };
    match made {
        Ok(modules) => show_compiled(alloc, &modules, out),
        Err(_) => false,
    }
}

/// Policies, one or two modules each, and behind arrows how many optionals they have and how many reasons, or their faults: of each step.
const POLICIES: &[&str] = &[
    "(class file (open read))(user u)(role r)(type a)(type b)(userrole u r)(roletype r a)(roletype r b)(allow a b (file (read))) => 0 0",
    "(class file (open read))(user u)(role r)(type a)(type b)(userrole u r)(roletype r a)(roletype r b)(allow a b (file (read))) | (optional o (allow b x (file (read))))(optional p (type x)(roletype r nobody))(optional q (allow b a (file (open)))) => 3 2",
    "(class c (p))(allow a self (c (p))) | (type 1x)(allow a b) => 23 1 9 . allow\n25 1 6 . 1x\n",
    "(block b (blockinherit b)(block x))(blockinherit nob)(macro b ())(block a (blockinherit b)(macro x ())) => 31 0 7 . b\n31 0 32 b x\n31 0 60 . b\n31 0 97 a x\n32 0 49 . nob\n33 0 23 b b\n",
    "(macro m ((type x)) (call m ()))(call m (t))(block n (call m (t))) => 34 0 26 . m\n34 0 26 n m\n35 0 26 . m\n35 0 26 n m\n",
    "(class w (p))(class w (q)) => 36 0 7 . w\n36 0 20 . w\n",
    "(block p (blockabstract p)(block x (type y))(macro m ()))(block q (blockinherit p)(block k (blockinherit .p.x)))(block n (blockinherit p)(blockinherit q.k)) => 0 0",
    "(role r)(type z)(type w)(macro a ((type t)) (type x)(roletype r t))(macro b ((type t)) (call a (t))(type y))(block n (call b (z)))(call b (z))(call a (w)) => 0 0",
    // Commons and operators; a class with two commons.
    "(class c (q))(common k (p r))(classcommon c k)(type a)(allow a self (c (and (not q) (xor all (p))))) => 0 0",
    "(class c ())(common k (x))(common j (x))(classcommon c k)(classcommon c j) => 56 0 53 . c\n56 0 70 . c\n",
    // Aliases and attributes of types, roles and users; an alias without a target, and an attribute in itself.
    "(class c (p))(role r)(roleattribute ra)(roleattributeset ra (r))(user u)(userattribute ua)(userattributeset ua (u))(userrole ua ra) | (type a)(type b)(typealias x)(typealiasactual x a)(typeattribute z)(typeattributeset z (and (not (b)) all))(typeattribute y)(typeattributeset y (xor z (b)))(roletype ra y)(allow y z (c (p))) => 0 0",
    "(typealias x)(typeattribute z)(typeattributeset z (not (z))) => 51 0 11 . x\n54 0 28 . z\n",
    // Class maps and class permissions, two of them on a circle; audit rules.
    "(class c (p q))(type a)(classmap m (x y))(classpermission n)(classpermissionset n (m (x)))(classmapping m x n)(classmapping m x (c (p)))(classmapping m y (c (not (p))))(classorder (c))(allow a a n)(auditallow a a (m (all)))(dontaudit a self (m (xor all (y)))) => 0 0",
    // Class permissions as arguments: lists that are handed on, in rules, a mapping and an optional; one that is misplaced and
    // one of a wrong form; a permission that the class lacks.
    "(class c (p q))(type a)(classmap m (x))(macro in ((classpermission l)(classpermission n)) (allow a a l)(auditallow a self n)(classmapping m x l)(optional o (dontaudit a a l)))(macro out ((classpermission k)) (call in (k (m (x)))))(call out ((c (and all (not (q))))))(neverallow a a (c (q)))(optional w (call in ((c (r)) (c (p))))) => 3 2",
    "(macro k ((classpermission l)) (classpermissionset l (c (p))))(call k ((c (q))))(call k ((c))) => 35 0 68 . k\n35 0 86 . k\n",
    "(class c (p))(type a)(macro k ((classpermission l)) (allow a a l)(dontaudit a a l))(call k ((c (not (p q))))) => 41 0 103 . q\n",
    // Lists 100 deep, of permissions and of a constraint; constraints on classes and maps, with sets, and in a macro and an optional; branches.
    "(class c (p))(type a)(allow a self (c ((((((((((((((((((((((((((((((((((((((((((((((((((((((((((((((((((((((((((((((((((((((((((((((((((((p)))))))))))))))))))))))))))))))))))))))))))))))))))))))))))))))))))))))))))))))))))))))))))))))))))))) => 0 0",
    "(class c (p))(constrain (c (p)) (not (not (not (not (not (not (not (not (not (not (not (not (not (not (not (not (not (not (not (not (not (not (not (not (not (not (not (not (not (not (not (not (not (not (not (not (not (not (not (not (not (not (not (not (not (not (not (not (not (not (not (not (not (not (not (not (not (not (not (not (not (not (not (not (not (not (not (not (not (not (not (not (not (not (not (not (not (not (not (not (not (not (not (not (not (not (not (not (not (not (not (not (not (not (not (not (not (not (not (eq u1 u2))))))))))))))))))))))))))))))))))))))))))))))))))))))))))))))))))))))))))))))))))))))))))))))))))))) => 0 0",
    "(class c (p q))(class d (p))(user u)(userattribute g)(userattributeset g (u))(role r)(type a)(typealias b)(typealiasactual b a)(constrain (c (all)) (or (eq t1 b) (and (neq u2 g) (not (eq r1 (r))))))(classmap m (x))(classmapping m x (c (q)))(classmapping m x (d (p)))(constrain (m (x)) (neq r1 r2))(macro k ((classpermission l)(type t)) (constrain l (neq t2 t)))(call k ((c (q)) a))(optional o (constrain (d (p)) (eq u1 (u g)))) => 1 0",
    "(constrain (c (p)) (eq u1 u2))(booleanif b (true (allow a b (c (d)))) (false (call m))) => 41 0 12 . c\n41 0 41 . b\n41 0 56 . a\n41 0 58 . b\n41 0 61 . c\n41 0 83 . m\n",
    // Levels: aliases, sets, names, arguments that are levels, users, and what is wrong with orders, and with levels.
    "(class c (p q))(user u)(user v)(role r)(type a)(mls true)(sensitivity s0)(sensitivity s1)(sensitivityalias lo)(sensitivityaliasactual lo s0)(sensitivityorder (lo s1))(category c0)(category c1)(categoryalias ca)(categoryaliasactual ca c1)(categoryorder (c0 c1))(categoryset cs (range c0 ca))(sensitivitycategory s0 (all))(sensitivitycategory s1 (cs))(level top (s1 (cs)))(levelrange wide ((lo) top))(userrange u wide)(macro m ((level l)(levelrange g)(user w)) (userlevel w l)(userrange w g))(call m ((s0 (not c0)) ((s0) (s1)) v))(mlsconstrain (c (p)) (or (dom h1 l2) (eq t1 a)))(optional o (rangetransition a a c ((s1) (s1)))) => 1 0",
    "(sensitivity s0)(sensitivity s1)(category c0)(categoryset cs (cs))(mls true)(mls false) => 54 0 58 . cs\n57 0 0 . -\n59 0 0 . -\n",
    "(mls true)(sensitivity s0)(category c0)(category c1)(categoryorder (c0 c1))(user u)(user v)(level l (s0 (c0)))(levelrange g ((s0 (range c1 c0)) (s0)))(userrange u ((s0) (s0)))(userrange u ((s0) (s0 (c1)))) => 61 0 101 . s0\n61 0 195 . s0\n62 0 129 . -\n63 0 89 . v\n64 0 161 . u\n64 0 186 . u\n",
];

/// Whether a policy is compiled so, at once or when it is asked again.
fn is_compiled_so(alloc: Global, texts: &str, want: &str) -> bool {
    for _ in 0..2u8 {
        let mut out = String::new(alloc);
        if compile_texts(alloc, texts, &mut out) {
            return out.as_str() == want;
        }
    }
    false
}

#[test]
fn a_refused_growth_is_no_fault_of_a_policy(rt: HostRuntime) -> Result<(), Fail> {
    for row in POLICIES {
        let (texts, want) = row.split_once(" => ").ok_or("no row")?;
        assert!(rt; is_compiled_so(rt.alloc(), texts, want), "{row}");
    }
    Ok(())
}

/// Whether a host takes in a text, at once or when it is asked again.
fn host_installs(alloc: Global, host: &mut Host<Hashers>, text: &[u8]) -> bool {
    host.install(alloc, text).is_ok() || host.install(alloc, text).is_ok()
}

/// Whether an object of the second type of the first policy may do this with one of the first.
fn is_allowed(host: &mut Host<Hashers>, mask: u32) -> bool {
    host.query(b"u:r:b", b"u:r:a", b"file")
        .is_ok_and(|decision| decision.allowed == mask)
}

/// Whether a host loads its first policy, at once or when it is asked again, and has none before.
fn loads_first(alloc: Global, host: &mut Host<Hashers>) -> bool {
    host.load(alloc).is_ok()
        || (host.query(b"u:r:b", b"u:r:a", b"file") == Err(QueryFault::NoPolicy)
            && host.load(alloc).is_ok())
}

/// Whether a host loads the next policy, at once or when it is asked again, and answers by the first before.
fn loads_next(alloc: Global, host: &mut Host<Hashers>) -> bool {
    host.load(alloc).is_ok() || (is_allowed(host, 0) && host.load(alloc).is_ok())
}

/// Whether a host takes in and loads two policies, and answers by the one that it has.
fn loads_both(alloc: Global, host: &mut Host<Hashers>) -> bool {
    host_installs(alloc, host, FIRST.as_bytes())
        && loads_first(alloc, host)
        && host_installs(alloc, host, b"(allow b a (file (open)))")
        && is_allowed(host, 0)
        && loads_next(alloc, host)
        && is_allowed(host, 1)
}

#[test]
fn a_refused_growth_leaves_the_host(rt: HostRuntime) -> Result<(), Fail> {
    let mut host = new_host(rt.alloc()).ok_or("no host")?;
    let is_left = loads_both(rt.alloc(), &mut host);
    assert!(rt; is_left);
    Ok(())
}

/// Serves some requests, and how the session ends.
fn serve_once(
    alloc: Global,
    host: &mut Host<Hashers>,
    input: &str,
    written: &mut Vec<u8>,
) -> Served {
    written.clear();
    let mut reader = Counted::new(input.as_bytes());
    serve(alloc, host, &mut reader, &mut Counted::new(written))
}

/// Whether a growth was refused: a session that wants memory for its buffers writes nothing.
fn is_lost(served: Served, written: &[u8]) -> bool {
    match served {
        Served::Fault(0) => written.is_empty(),
        Served::End => written == b"ERR 0\n".as_slice(),
        _ => false,
    }
}

/// Whether some requests are replied to so, at once or when they are asked again.
fn replies_at_last(
    alloc: Global,
    host: &mut Host<Hashers>,
    written: &mut Vec<u8>,
    row: &str,
) -> bool {
    let Some((input, output)) = row.split_once(" => ") else {
        return false;
    };
    let mut served = serve_once(alloc, host, input, &mut *written);
    if is_lost(served, written.as_slice()) {
        served = serve_once(alloc, host, input, &mut *written);
    }
    served == Served::End && written.as_slice() == output.as_bytes()
}

/// Requests, and behind arrows their replies. The digest is that of the 159 bytes that the layout of tables gives by hand.
const REQUESTS: &[&str] = &[
    "INSTALL 123\n(class file (open read))(user u)(role r)(type a)(type b)(userrole u r)(roletype r a)(roletype r b)(allow a b (file (read))) => OK new\n",
    "IMPORT 29\nCILB\x01\0\0\0\0\0\0\0\x01\0\0\0\0\0\0\0\x08(type a) => OK 1\n",
    "LOAD\n => OK 159 d45931ea9f06a9ced7e809682adb159f8b38c8e71f6a219ba0a5eab997e73225\n",
    "AV u:r:a u:r:b file\n => OK read - open,read\n",
    "INSTALL 78\n(optional o (allow b x (file (read))))(optional p (type x)(roletype r nobody)) => OK new\n",
    "LOAD\n => OK 159 d45931ea9f06a9ced7e809682adb159f8b38c8e71f6a219ba0a5eab997e73225\n",
    "OPTIONALS\n => OK 2\n1 0 . o out\n1 38 . p out\n",
    "WHY\n => OK 2\n1 38 . p missing nobody\n1 0 . o missing x\n",
    "AV u:r:b u:r:a file\n => OK - - open,read\n",
    "INSTALL 11\n(allow a a) => OK new\n",
    "LOAD\n => FAULTS 1\n23 0 0 . allow\n",
    "AV u:r:a u:r:b file\n => OK read - open,read\n",
    "OPTIONALS\n => OK 2\n1 0 . o out\n1 38 . p out\n",
    "WHY\n => OK 2\n1 38 . p missing nobody\n1 0 . o missing x\n",
];

/// The first requests that are not replied to so, at once or when they are asked again.
fn first_untold(
    alloc: Global,
    host: &mut Host<Hashers>,
    written: &mut Vec<u8>,
) -> Option<&'static str> {
    for row in REQUESTS {
        if !replies_at_last(alloc, &mut *host, &mut *written, row) {
            return Some(*row);
        }
    }
    None
}

#[test]
fn a_refused_growth_is_told(rt: HostRuntime) -> Result<(), Fail> {
    let alloc = rt.alloc();
    let mut written = Vec::with_capacity(alloc, 4096).or_else(|_| Vec::with_capacity(alloc, 4096))?;
    let mut host = new_host(alloc).ok_or("no host")?;
    let untold = first_untold(alloc, &mut host, &mut written);
    assert!(rt; untold.is_none(), "{untold:?}");
    Ok(())
}
