//! What a statement says, as terms whose words mean what those of its row do.

ghost use Rattle.std.specs.Prelude.{◌≡◌, ◌<◌, [], IfOk, false, length, true};
ghost use Rattle.cil_macros.specs.Items.{item_at, items_in, says_lists};
ghost use Rattle.cil_macros.specs.Listed.{all_parts_of};
ghost use Rattle.cil_macros.specs.ListTerms.{numbered};
ghost use Rattle.cil_names.specs.Resolves.{is_mapping};
ghost use Rattle.cil_known.specs.Known.{row_in};
ghost use Rattle.cil_ranges.specs.Reading.{AreRead};

use cil_base::NoMemory;
use cil_known::Known;
use cil_macros::Instances;
use cil_mls::are_plain;
use cil_syntax::Term;
use std::alloc::Global;

/// The terms that the statement at a place says. Error: out of memory, which is also the answer where there are permissions of a class
/// among them.
pub fn plain_terms<'a>(
    alloc: Global,
    instances: &Instances<'_, '_, 'a>,
    known: &Known,
    at: usize,
) -> Result<Vec<Term<'a>>, NoMemory>
    requires within { at < length (items_in instances.now) }
    requires lists { says_lists (item_at instances.now at).keyword ≡ true }
    requires plain { is_mapping (item_at instances.now at).keyword ≡ false }
    ensures { IfOk result (λ terms. AreRead known.now (numbered (all_parts_of (item_at instances.now at).args)) 0 terms.items (item_at instances.now at).args (row_in known.now (item_at instances.now at)) []) }
{
    let terms = instances.terms(alloc, at)?;
    if !are_plain(terms.as_slice()) {
        return Err(NoMemory);
    }
    Ok(terms)
}
