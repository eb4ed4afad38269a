//! Names in namespaces, words in scopes, and what these mean.

use cil_syntax::{Kind, Sign};

/// A namespace, by the number of the one round it and its own name, and its number.
pub(crate) type Space = (usize, &'static [u8], usize);

/// Namespaces: each is added, or is there and has its number. `p` has the number 1, `r` 2 and `p.q` 3.
pub(crate) const SPACES: &[Space] = &[
    (0, b"p", 1),
    (0, b"r", 2),
    (1, b"q", 3),
    (0, b"p", 1),
    (1, b"q", 3),
    (0, b"q", 4),
    (1, b"p", 5),
    (3, b"q", 6),
];

/// A namespace, a name, its kind, and the optionals round each of its statements; with none it is declared outside all.
pub(crate) type Declared = (usize, &'static [u8], Kind, &'static [&'static [usize]]);

/// Declared names, in order.
pub(crate) const DECLARED: &[Declared] = &[
    (0, b"o", Kind::Type_, &[]),
    (1, b"o", Kind::Type_, &[&[0]]),
    (0, b"x", Kind::Type_, &[]),
    (1, b"x", Kind::Type_, &[]),
    (2, b"x", Kind::TypeAttribute, &[]),
    (3, b"x", Kind::Type_, &[&[0, 1], &[2]]),
    (0, b"x", Kind::Role, &[]),
    (2, b"y", Kind::Role, &[]),
    (3, b"z", Kind::Class, &[]),
];

pub(crate) type Found = Option<usize>;

/// What a word means: the declared name that it names in its scope where these optionals are enabled; all that it could name there; or
/// the one that it could name in every scope, and none where it hangs on the scope, or on dots.
#[derive(Clone, Copy)]
pub(crate) enum Ask {
    Names(&'static [bool], Found),
    Could(&'static [usize]),
    Everywhere(Found),
}

/// A word, what it wants, its scope, and what it means.
pub(crate) type Row = (&'static [u8], Sign, &'static [usize], Ask);

pub(crate) const NAMED: &[Row] = &[
    // The first namespace of the scope that has the name.
    (b"x", Sign::Types, &[1, 2, 0], Ask::Names(&[], Some(3))),
    (b"x", Sign::Types, &[2, 1, 0], Ask::Names(&[], Some(4))),
    (b"x", Sign::Types, &[3, 1, 0], Ask::Names(&[], Some(3))),
    (b"y", Sign::Roles, &[3, 1, 2, 0], Ask::Names(&[], Some(7))),
    (b"o", Sign::Types, &[2, 0], Ask::Names(&[], Some(0))),
    (b"x", Sign::Types, &[0], Ask::Names(&[], Some(2))),
    (b"y", Sign::Roles, &[1, 0], Ask::Names(&[], None)),
    // A leading dot asks the global namespace alone.
    (b".x", Sign::Types, &[1, 2, 0], Ask::Names(&[], Some(2))),
    (b".y", Sign::Roles, &[2, 0], Ask::Names(&[], None)),
    (b".p.x", Sign::Types, &[2, 0], Ask::Names(&[], Some(3))),
    // Names before a dot are those of namespaces.
    (b"p.x", Sign::Types, &[0], Ask::Names(&[], Some(3))),
    (b"r.x", Sign::Types, &[1, 0], Ask::Names(&[], Some(4))),
    (b"q.z", Sign::Classes, &[1, 0], Ask::Names(&[], Some(8))),
    (b"q.z", Sign::Classes, &[2, 0], Ask::Names(&[], None)),
    (
        b"p.q.z",
        Sign::Classes,
        &[2, 1, 0],
        Ask::Names(&[], Some(8)),
    ),
    (b"p.r.x", Sign::Types, &[0], Ask::Names(&[], None)),
    (b"s.x", Sign::Types, &[1, 2, 0], Ask::Names(&[], None)),
    // A name of another name space hides nothing.
    (b"x", Sign::Roles, &[1, 2, 0], Ask::Names(&[], Some(6))),
    (b"y", Sign::Types, &[2, 0], Ask::Names(&[], None)),
    (b"x", Sign::Users, &[1, 2, 0], Ask::Names(&[], None)),
    (b"x", Sign::Classes, &[1, 2, 0], Ask::Names(&[], None)),
    (b"x", Sign::Permission, &[1, 2, 0], Ask::Names(&[], None)),
    // A name in an optional is there where that is enabled.
    (b"o", Sign::Types, &[1, 0], Ask::Names(&[], Some(0))),
    (b"o", Sign::Types, &[1, 0], Ask::Names(&[false], Some(0))),
    (b"o", Sign::Types, &[1, 0], Ask::Names(&[true], Some(1))),
    (
        b"q.x",
        Sign::Types,
        &[1, 0],
        Ask::Names(&[true, false], None),
    ),
    (
        b"q.x",
        Sign::Types,
        &[1, 0],
        Ask::Names(&[true, true], Some(5)),
    ),
    (
        b"q.x",
        Sign::Types,
        &[1, 0],
        Ask::Names(&[false, false, true], Some(5)),
    ),
];

/// Names of one letter or two whose hashes begin at one of 64 slots, more than have room there.
pub(crate) const ALIKE: &[Declared] = &[
    (0, b"bp", Kind::Type_, &[]),
    (0, b"cg", Kind::Type_, &[]),
    (0, b"df", Kind::Type_, &[]),
    (0, b"gs", Kind::Type_, &[]),
    (0, b"i", Kind::Type_, &[]),
    (0, b"iq", Kind::Type_, &[]),
    (0, b"jh", Kind::Type_, &[]),
];

pub(crate) const ONE: &[Declared] = &[(1, b"x", Kind::Type_, &[&[0]])];

/// Words among these, and one in a namespace that is in the scope or is not.
pub(crate) const AMONG_ONE: &[Row] = &[
    (b"x", Sign::Types, &[3, 1, 0], Ask::Names(&[true], Some(0))),
    (b"x", Sign::Types, &[2, 0], Ask::Names(&[true], None)),
    (b".x", Sign::Types, &[1, 0], Ask::Names(&[true], None)),
    (b"p.x", Sign::Types, &[2, 0], Ask::Names(&[true], Some(0))),
    (b"y", Sign::Types, &[1, 0], Ask::Names(&[true], None)),
];

/// The first name and the last one, and those that find no room for a guess.
pub(crate) const AMONG_ALIKE: &[Row] = &[
    (b"bp", Sign::Types, &[1, 0], Ask::Names(&[true], Some(0))),
    (b"gs", Sign::Types, &[0], Ask::Names(&[true], Some(3))),
    (b"i", Sign::Types, &[0], Ask::Names(&[true], Some(4))),
    (b"iq", Sign::Types, &[1, 0], Ask::Names(&[true], Some(5))),
    (b"jh", Sign::Types, &[1, 0], Ask::Names(&[true], Some(6))),
    (b"nd", Sign::Types, &[1, 0], Ask::Names(&[true], None)),
    (b"jh", Sign::Types, &[1], Ask::Names(&[true], None)),
];

/// The names that a word could name, whatever is enabled.
pub(crate) const CANDIDATES: &[Row] = &[
    (b"x", Sign::Types, &[1, 2, 0], Ask::Could(&[3, 4, 2])),
    (b"x", Sign::Types, &[3, 2, 1, 0], Ask::Could(&[5, 4, 3, 2])),
    (b".x", Sign::Types, &[1, 2, 0], Ask::Could(&[2])),
    (b"o", Sign::Types, &[1, 0], Ask::Could(&[1, 0])),
    (b"p.q.x", Sign::Types, &[1, 0], Ask::Could(&[5])),
    (b"x", Sign::Roles, &[1, 2, 0], Ask::Could(&[6])),
    (b"x", Sign::Permission, &[1, 2, 0], Ask::Could(&[])),
    // A name that is declared once: in the scope, outside of it, of another kind, behind dots.
    (b"y", Sign::Roles, &[1, 2, 0], Ask::Could(&[7])),
    (b"y", Sign::Roles, &[1, 3, 0], Ask::Could(&[])),
    (b"y", Sign::Types, &[2, 0], Ask::Could(&[])),
    (b"r.y", Sign::Roles, &[1, 0], Ask::Could(&[7])),
    (b".y", Sign::Roles, &[2, 0], Ask::Could(&[])),
    (b"n", Sign::Types, &[2, 0], Ask::Could(&[])),
];

/// Names in the global namespace, in another one, in both, in an optional, and of two name spaces.
pub(crate) const PLACED: &[Declared] = &[
    (0, b"g", Kind::Type_, &[]),
    (1, b"k", Kind::Type_, &[]),
    (0, b"o", Kind::Type_, &[&[0]]),
    (0, b"s", Kind::Type_, &[]),
    (0, b"s", Kind::Role, &[]),
    (0, b"w", Kind::Type_, &[]),
    (1, b"w", Kind::Type_, &[]),
];

pub(crate) const UNSCOPED: &[Row] = &[
    (b"g", Sign::Types, &[], Ask::Everywhere(Some(0))),
    (b"g", Sign::Roles, &[], Ask::Everywhere(None)),
    (b"k", Sign::Types, &[], Ask::Everywhere(None)),
    (b"p.k", Sign::Types, &[], Ask::Everywhere(None)),
    (b"o", Sign::Types, &[], Ask::Everywhere(Some(2))),
    (b"s", Sign::Types, &[], Ask::Everywhere(Some(3))),
    (b"s", Sign::Roles, &[], Ask::Everywhere(Some(4))),
    (b"w", Sign::Types, &[], Ask::Everywhere(None)),
    (b"n", Sign::Types, &[], Ask::Everywhere(None)),
];

pub(crate) const TABLES: &[(&[Declared], &[Row])] = &[
    (DECLARED, NAMED),
    (DECLARED, CANDIDATES),
    (PLACED, UNSCOPED),
    (ONE, AMONG_ONE),
    (ALIKE, AMONG_ALIKE),
    (
        &[],
        &[(b"x", Sign::Types, &[1, 0], Ask::Names(&[true], None))],
    ),
];
