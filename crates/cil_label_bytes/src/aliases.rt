//! Sections of aliases: names in byte order, each with the place of the item for which it stands.

ghost use Rattle.std.specs.Prelude.{◌≡◌};
ghost use Rattle.cil_format.specs.Fields.{by_text};
ghost use Rattle.cil_format.specs.Takes.{Takes};
ghost use Rattle.cil_label_bytes.specs.Layout as layout;

use crate::name_list::{NameList, new_name_at};
use cil_base::Bytes;
use cil_format::{Section, TableError, is_below, section_at, small_at, text_in};
use cil_mls::Named;
use std::alloc::Global;

/// The aliases of items with these names.
#[derive(Drop)]
struct AliasesOf<'n, 'a> {
    names: &'n NameList<'a>,
}

impl<'n, 'a> Section for AliasesOf<'n, 'a> {
    type Record = Named;

    ghost format = { λ section. layout.alias section.names.now };

    ghost less = { by_text };

    fn read<'b>(&self, alloc: Global, bytes: &'b [u8]) -> Result<(Named, &'b [u8]), TableError> {
        let (name, rest) = new_name_at(self.names, bytes)?;
        let (place, rest) = small_at(rest, self.names.len())?;
        let alias = Named {
            name: Bytes::copy_of(alloc, name)?,
            place: place as usize,
        };
        Ok((alias, rest))
    }

    fn is_after(last: &[u8], next: &[u8]) -> bool {
        is_below(text_in(last), text_in(next))
    }
}

/// The aliases of items with these names, and the bytes behind them. Errors: the first fault, or out of memory.
pub fn aliases_at<'a>(
    alloc: Global,
    names: &NameList,
    bytes: &'a [u8],
) -> Result<(Vec<Named>, &'a [u8]), TableError>
    ensures { Takes (λ x. (x.0.items, x.1.now)) result ((layout.aliases names.now).read bytes.now) }
{
    section_at(alloc, &AliasesOf { names }, bytes, u32::MAX)
}
