//! Policies with optionals, and choices for them, right and wrong.

// The first policy has the statements 0 to 8. The module behind it has those from 9 on: first all in no optional, then those in each.

/// The optional 9 has the rule 11, the optional 10 the type 12 and the rule 13.
pub(crate) const CHAIN: &str =
    "(optional A (allow a x (file (read))))(optional B (type x)(allow x nobody (file (read))))";

/// Why an optional is left out: its number, and the statement and the word that names nothing; or else what is round it is out.
pub(crate) type Why = (u32, Option<(u32, u32)>);

/// The word `nobody` of the optional 10, and `x` of the optional 9.
pub(crate) const NOBODY: Why = (10, Some((13, 1)));

pub(crate) const NO_X: Why = (9, Some((11, 1)));
/// The optional 9 has the type 11 and the rule 12, the optional 10 the type 13 and the rule 14.
pub(crate) const MUTUAL: &str =
    "(optional A (type x)(allow x y (file (read))))(optional B (type y)(allow y x (file (read))))";
/// The optional 9 has the statement 10, and the optional 11 with the type 12.
pub(crate) const NESTED: &str = "(optional A (roletype r nobody)(optional B (type z)))";

pub(crate) const OUTER_OUT: Why = (9, Some((10, 1)));

pub(crate) const NONE: &str = "(type z)";

pub(crate) const NO: u32 = u32::MAX;

/// What a row is about, `right` or what is wrong; the optionals that are in, and why the others are out.
pub(crate) type Row = (&'static str, &'static [usize], &'static [Why]);

/// Modules behind the first policy, and choices for them.
pub(crate) const CHOICES: &[(&str, &[Row])] = &[
    (
        CHAIN,
        &[
            ("right", &[], &[NOBODY, NO_X]),
            ("the other order", &[], &[NO_X, NOBODY]),
            ("one without a reason", &[], &[NOBODY]),
            ("no reasons", &[], &[]),
            ("all are in", &[9, 10], &[]),
            ("one with a missing name is in", &[9], &[NOBODY]),
            ("one twice", &[], &[NOBODY, NOBODY, NO_X]),
            ("one twice at the end", &[], &[NOBODY, NO_X, NO_X]),
            ("one is in and out", &[10], &[NOBODY, NO_X]),
            ("what it declares", &[], &[(10, Some((13, 0))), NO_X]),
            ("a permission", &[], &[NOBODY, (9, Some((11, 3)))]),
            ("no such word", &[], &[(10, Some((13, 4))), NO_X]),
            ("a word of another", &[], &[NOBODY, (9, Some((13, 1)))]),
            ("a word outside", &[], &[NOBODY, (9, Some((8, 1)))]),
            ("no optional is round it", &[], &[NOBODY, (9, None)]),
            ("no numbers", &[], &[NOBODY, NO_X, (NO, Some((NO, NO)))]),
            ("no such statement", &[], &[(10, Some((NO, 1))), NO_X]),
            ("parent of none", &[], &[NOBODY, NO_X, (14, None)]),
            ("no optional", &[], &[NOBODY, NO_X, (11, Some((11, 1)))]),
            ("a number of nothing is in", &[14], &[NOBODY, NO_X]),
            ("a number far from all is in", &[30], &[NOBODY, NO_X]),
            ("what is no optional is in", &[11], &[NOBODY, NO_X]),
        ],
    ),
    (
        MUTUAL,
        &[
            ("right", &[9, 10], &[]),
            // A good set, and not the greatest.
            ("both out", &[], &[(9, Some((12, 1))), (10, Some((14, 1)))]),
            ("one of two is out", &[9], &[(10, Some((14, 1)))]),
        ],
    ),
    (
        NESTED,
        &[
            ("right", &[], &[OUTER_OUT, (11, None)]),
            ("the inner one first", &[], &[(11, None), OUTER_OUT]),
            ("the inner one stays", &[11], &[OUTER_OUT]),
            ("it has no word", &[], &[OUTER_OUT, (11, Some((12, 0)))]),
            ("an outer word", &[], &[OUTER_OUT, (11, Some((10, 1)))]),
        ],
    ),
    (NONE, &[("right", &[], &[]), ("one is in", &[9], &[])]),
    (NONE, &[("one is out", &[], &[(0, None)])]),
];
