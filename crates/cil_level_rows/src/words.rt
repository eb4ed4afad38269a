//! What is known of sets of categories and of ranges: each set has sixteen words of 64 bits.

ghost use Rattle.std.specs.Prelude.{All};
ghost use Rattle.cil_mls.specs.Bits.{AreWords};
ghost use Rattle.cil_level_rows.specs.KeptRanges.{AreRangeWords};
ghost use Rattle.cil_level_rows.specs.Parts.{AreAllWords};

use cil_mls::{Categories, Range};

/// Sets are kept in words. It costs a step for each, and does nothing.
pub fn sets_have_words(sets: &[Categories])
    ensures { AreAllWords sets.now }
{
    for set in sets {
        has_words(*set);
    }
}

/// So are the sets of ranges.
pub fn ranges_have_words(ranges: &[Range])
    ensures { All AreRangeWords ranges.now }
{
    for range in ranges {
        range_has_words(*range);
    }
}

fn range_has_words(range: Range)
    ensures { AreRangeWords range }
{
    has_words(range.low.categories);
    has_words(range.high.categories);
}

fn has_words(set: Categories)
    ensures { AreWords set.words }
{}
