//! Lists of faults, how they are printed, their numbers, and their sentences for people, which no session prints.

use cil_base::NoMemory;
use cil_modset::{BundleError, BundleFault};
use cil_sexpr::{ReadCode, ReadError, ReadFault};
use cil_syntax::{Failure, FaultCode, FaultList, Spot, push_fault, render};
use std::alloc::Global;
use std::test::Fail;

/// The cause of a fault, its module, its place and its word.
type Row = (FaultCode, u64, u32, &'static str);

/// The list of some faults. None where there is none, and where there is no memory.
fn list_of(alloc: Global, rows: &[Row]) -> Option<FaultList> {
    let mut faults = Vec::new(alloc);
    for &(code, module, at, word) in rows {
        let spot = Spot::of(module, at);
        push_fault(alloc, &mut faults, code, spot, word.as_bytes()).ok()?;
    }
    FaultList::of(faults)
}

/// Faults that are printed sorted and each once.
const FAULTS: &[Row] = &[
    (FaultCode::Unresolved, 0, 1, "a"),
    (FaultCode::Clash, u64::MAX, 10, "w"),
    (FaultCode::BadName, 1, 7, "b"),
    (FaultCode::BadName, 0, 10, "b"),
    (FaultCode::BadName, 0, 9, "c"),
    (FaultCode::BadName, 0, 9, "ab"),
    (FaultCode::BadName, 0, 10, "b"),
    (FaultCode::BadName, 0, 9, "a"),
    (FaultCode::BadShape, 0, 0, ""),
    (FaultCode::UnknownStatement, 2, 2, "z"),
];

const LINES: &str =
    "21 2 2 . z\n23 0 0 . -\n25 0 9 . a\n25 0 9 . ab\n25 0 9 . c\n25 0 10 . b\n25 1 7 . b\n\
    36 18446744073709551615 10 . w\n41 0 1 . a\n";

/// Whether the lines of a list are these.
fn is_printed_so(alloc: Global, list: &FaultList, lines: &[u8]) -> bool {
    render(alloc, list).is_ok_and(|printed| printed.as_slice() == lines)
}

#[test]
fn faults_are_sorted_and_printed_once(rt: HostRuntime) -> Result<(), Fail> {
    let alloc = rt.alloc();
    assert!(rt; list_of(alloc, &[]).is_none());
    let list = list_of(alloc, FAULTS).ok_or("no list")?;
    assert!(rt; is_printed_so(alloc, &list, LINES.as_bytes()) && list.len() == 9);
    Ok(())
}

const SAME: Row = (FaultCode::BadName, 0, 3, "a");

/// The joined list of two lists of faults.
fn joined(alloc: Global, first: &[Row], second: &[Row]) -> Option<FaultList> {
    let first = list_of(alloc, first)?;
    first.join(list_of(alloc, second)?).ok()
}

/// Whether a list has faults at these places, and no others.
fn are_at(list: &FaultList, places: &[u64]) -> bool {
    let faults = list.as_slice();
    faults.len() == places.len()
        && faults
            .iter()
            .zip(places)
            .all(|(fault, place)| fault.at == *place)
}

#[test]
fn lists_are_joined(rt: HostRuntime) {
    let first = [SAME, (FaultCode::BadName, 0, 1, "a")];
    let second = [(FaultCode::BadName, 0, 2, "a"), SAME];
    let list = joined(rt.alloc(), &first, &second);
    assert!(rt; list.is_some_and(|list| are_at(&list, &[1, 2, 3])));
}

/// The sentences of faults of texts and bundles.
fn of_modules(alloc: Global) -> Result<String, Fail> {
    let mut out = String::new(alloc);
    for &code in &[
        ReadCode::TooLong,
        ReadCode::Unclosed,
        ReadCode::StrayClose,
        ReadCode::OpenQuote,
        ReadCode::BadByte,
        ReadCode::TooDeep,
        ReadCode::OutsideList,
    ] {
        let error = ReadError::Fault(ReadFault { code, at: 7 });
        write!(out, "{} {error}\n", code.number())?;
    }
    for &fault in BUNDLES {
        let error = BundleError::Fault(fault);
        write!(out, "{} {error}\n", fault.number())?;
    }
    Ok(out)
}

/// A list that ends once too often.
const STRAY: ReadFault = ReadFault {
    code: ReadCode::StrayClose,
    at: 8,
};

const BUNDLES: &[BundleFault] = &[
    BundleFault::BadMagic,
    BundleFault::Short,
    BundleFault::NotRising,
    BundleFault::BadModule {
        index: 1,
        fault: STRAY,
    },
    BundleFault::Trailing,
];

/// The sentences of faults of policies, and of the want of memory.
fn of_policies(alloc: Global) -> Result<String, Fail> {
    let mut out = String::new(alloc);
    for code in &[
        FaultCode::UnknownStatement,
        FaultCode::Unsupported,
        FaultCode::BadShape,
        FaultCode::BadName,
        FaultCode::ReservedName,
        FaultCode::Clash,
        FaultCode::Unresolved,
        FaultCode::AliasOpen,
        FaultCode::AliasTwice,
        FaultCode::AliasCycle,
        FaultCode::SetCycle,
        FaultCode::ClassWide,
        FaultCode::CommonTwice,
        FaultCode::SensitivityOrder,
        FaultCode::CategoryOrder,
        FaultCode::MlsTwice,
        FaultCode::TooMany,
        FaultCode::LevelCategory,
        FaultCode::RangeOrder,
        FaultCode::UserNoRange,
        FaultCode::UserRangeTwice,
        FaultCode::NeverAllow,
    ] {
        write!(out, "{} {code}\n", code.number())?;
    }
    let (none, text, bundle) = (NoMemory, ReadError::NoMemory, BundleError::NoMemory);
    write!(out, "{none}, {text}, {bundle}, {:?}\n", Failure::NoMemory)?;
    Ok(out)
}

#[test]
fn faults_have_their_numbers_and_sentences(rt: HostRuntime) -> Result<(), Fail> {
    assert_eq!(rt;
        of_modules(rt.alloc())?.as_str(),
        "1 the text is too long at byte 7\n2 a list is not closed at byte 7\n3 `)` closes no list at byte 7\n\
        4 a string is not closed on its line at byte 7\n5 a byte that is neither printed ASCII nor a blank at byte 7\n\
        6 lists are nested too deep at byte 7\n7 a word or a string stands outside every list at byte 7\n\
        11 the bytes do not begin as a bundle\n12 the bundle is cut short\n13 the modules do not rise in byte order\n\
        14 module 1: `)` closes no list at byte 8\n15 bytes follow the last module\n"
    );
    assert_eq!(rt;
        of_policies(rt.alloc())?.as_str(),
        "21 unknown statement\n22 not supported\n23 wrong shape\n25 no name\n26 reserved word\n36 two different declarations\n\
        41 unresolved name\n51 alias without a target\n52 alias with two targets\n53 alias that leads to itself\n\
        54 set that depends on itself\n55 class with too many permissions\n56 class with two different commons\n\
        57 no one order of sensitivities\n58 no one order of categories\n59 levels both on and off\n60 too many of one kind\n\
        61 category not permitted to the sensitivity\n62 range from high to low\n63 user without a range\n64 user with two ranges\n\
        65 forbidden and allowed\nno memory, no memory, no memory, NoMemory\n"
    );
    Ok(())
}
