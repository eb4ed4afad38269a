//! What an operator is told of the optionals of a policy: a line for each, and a line for each reason why one is left out.

ghost use Rattle.std.specs.Prelude.{◌≡◌, ◌<◌, ◌++◌, IfOk, OnOk, length, refl};
ghost use Rattle.std.specs.Option.{option_map};
ghost use Rattle.std.specs.Cmp.{eq_by_cmp_equiv, partial_equiv_from_equiv, partial_order_from_total};
ghost use Rattle.std.specs.Ordering.{as_partial_cmp, eq_by_cmp};
ghost use Rattle.cil_syntax.specs.Said.{args_of};
ghost use Rattle.cil_syntax.specs.Written.{bytes_of, named_in_front};
ghost use Rattle.cil_faults.specs.Namespaces.{qualified};
ghost use Rattle.cil_macros.specs.Item.{OptSet as AnOptSet};
ghost use Rattle.cil_macros.specs.Items.{item_at, items_in};
ghost use Rattle.cil_names.specs.Entries.{is_in};
ghost use Rattle.cil_names.specs.Resolves.{told_at};
ghost use Rattle.cil_optionals.specs.Certificate.{IsRight};
ghost use Rattle.cil_optionals.specs.Lines.{AreOptionalsOf, AreReasonsOf, IsReasonLine, lines_of, missing_of, optional_line_cmp, optional_line_total};
ghost use Rattle.cil_optionals.specs.Told.{HasStatement, IsOfItems};

use crate::reason::Reason;
use cil_base::NoMemory;
use cil_blocks::names::is_optional;
use cil_blocks::spelled::spelled;
use cil_macros::Instances;
use cil_names::{OptSet, word_asked};
use cil_syntax::{Bytes, Statement};
use std::alloc::Global;
use std::cmp::Ordering;

/// An optional of a policy, as an operator sees it. Lines are compared by their fields in this order; of two that differ in the
/// last alone, the one in force is the first. (CIL Reference Guide, "optional".)
#[derive(Debug, Drop)]
pub struct OptionalLine {
    /// The number of the module, counted from 0 in the byte order of the texts.
    pub module: u64,
    /// Where in the module, as a number of bytes from its start.
    pub at: u64,
    /// The namespace, its names joined by dots. The global namespace is empty.
    pub space: Bytes,
    /// The name of the optional.
    pub label: Bytes,
    /// Whether it is in force.
    pub enabled: bool,
}

/// Why an optional of a policy is left out.
#[derive(Debug, Drop)]
pub struct WhyLine {
    /// The number of the module, counted from 0 in the byte order of the texts.
    pub module: u64,
    /// Where in the module, as a number of bytes from its start.
    pub at: u64,
    /// The namespace, its names joined by dots. The global namespace is empty.
    pub space: Bytes,
    /// The name of the optional.
    pub label: Bytes,
    /// The word that names nothing; none where the optional round this one is left out.
    pub missing: Option<Bytes>,
}

/// A line for each optional among some instances, sorted. It costs a sort, and the spelling of each namespace. Errors: out of
/// memory.
pub fn optional_lines(
    alloc: Global,
    instances: &Instances,
    enabled: &OptSet,
) -> Result<Vec<OptionalLine>, NoMemory>
    ensures { IfOk result (λ lines. AreOptionalsOf (items_in instances.now) (is_in enabled.now) lines.items) }
{
    let mut lines = Vec::new(alloc);
    for at in 0..instances.len() {
        push_optional(alloc, instances, &mut lines, enabled, at)?;
    }
    lines.sort_unstable();
    Ok(lines)
}

/// A line for each reason why an optional is left out, in their order. What a word stands for is looked up for each line.
/// Errors: out of memory.
pub fn why_lines(
    alloc: Global,
    instances: &Instances,
    reasons: &[Reason],
) -> Result<Vec<WhyLine>, NoMemory>
    requires right { (enabled : AnOptSet) × IsRight (items_in instances.now) enabled reasons.now }
    ensures { IfOk result (λ lines. AreReasonsOf (items_in instances.now) reasons.now lines.items) }
{
    let mut lines = Vec::new(alloc);
    for reason in reasons {
        lines.push(why(alloc, instances, *reason)?)?;
    }
    Ok(lines)
}

/// Adds the line of the instance at a place, if it is an optional.
fn push_optional(
    alloc: Global,
    instances: &Instances,
    lines: &mut Vec<OptionalLine>,
    enabled: &OptSet,
    at: usize,
) -> Result<(), NoMemory>
    requires { at < length (items_in instances.now) }
    ensures { OnOk result (lines.new.items ≡ lines.old.items ++ lines_of (is_in enabled.now at) (item_at instances.now at)) }
{
    let statement = instances.statement_there(at);
    if !is_optional(statement.keyword) {
        return Ok(());
    }
    let space = space_there(alloc, instances, at)?;
    let label = Bytes::copy_of(alloc, label_in(statement))?;
    lines.push(OptionalLine {
        module: statement.at.module,
        at: statement.at.at,
        space,
        label,
        enabled: enabled.has(at),
    })?;
    Ok(())
}

/// The line of a reason.
fn why(alloc: Global, instances: &Instances, reason: Reason) -> Result<WhyLine, NoMemory>
    requires { IsOfItems (items_in instances.now) reason }
    ensures { IfOk result (IsReasonLine (items_in instances.now) reason) }
{
    let at = reason.left_out() as usize;
    let statement = instances.statement_there(at);
    let space = space_there(alloc, instances, at)?;
    let label = Bytes::copy_of(alloc, label_in(statement))?;
    let missing = missing_word(alloc, instances, reason)?;
    Ok(WhyLine {
        module: statement.at.module,
        at: statement.at.at,
        space,
        label,
        missing,
    })
}

/// The word of a reason that names nothing; none where it has none.
fn missing_word(
    alloc: Global,
    instances: &Instances,
    reason: Reason,
) -> Result<Option<Bytes>, NoMemory>
    requires { HasStatement (items_in instances.now) reason }
    ensures { IfOk result (λ word. word ≡ missing_of (items_in instances.now) reason) }
{
    match reason {
        Reason::ParentOut { optional: _ } => Ok(None),
        Reason::Missing {
            optional: _,
            instance,
            word,
        } => told_bytes(alloc, instances, instance as usize, word as usize),
    }
}

/// The namespace of the instance at a place, its names joined by dots.
fn space_there(alloc: Global, instances: &Instances, at: usize) -> Result<Bytes, NoMemory>
    ensures { IfOk result (λ space. space ≡ qualified (item_at instances.now at).space) }
{
    spelled(alloc, instances.namespaces(), instances.space(at))
}

/// The name with which a statement begins; an empty one where it begins with none.
fn label_in<'a>(statement: &Statement<'a>) -> &'a [u8]
    ensures { result.now ≡ bytes_of (named_in_front (args_of statement.now)) }
{
    match statement.declared_name() {
        None => &[],
        Some(name) => name.bytes,
    }
}

/// The bytes of the word that is told of what the instance at a place asks for, by its number.
fn told_bytes(
    alloc: Global,
    instances: &Instances,
    at: usize,
    number: usize,
) -> Result<Option<Bytes>, NoMemory>
    requires { at < length (items_in instances.now) }
    ensures { IfOk result (λ word. word ≡ option_map (λ w. w.bytes) (told_at (item_at instances.now at) number)) }
{
    let Some(told) = word_asked(alloc, instances, at, number)? else {
        return Ok(None);
    };
    let bytes = Bytes::copy_of(alloc, told.word.bytes.as_slice())?;
    Ok(Some(bytes))
}

impl PartialEq for OptionalLine {
    ghost eq = { eq_by_cmp optional_line_cmp };

    ghost laws = { partial_equiv_from_equiv (eq_by_cmp_equiv optional_line_total) };

    fn eq(&self, other: &OptionalLine) -> bool {
        self.cmp(other) == Ordering::Equal
    }
}

impl Eq for OptionalLine {
    ghost laws = { eq_by_cmp_equiv optional_line_total };
}

impl PartialOrd for OptionalLine {
    ghost partial_cmp = { as_partial_cmp optional_line_cmp };

    ghost laws = { partial_order_from_total optional_line_total };

    fn partial_cmp(&self, other: &OptionalLine) -> Option<Ordering> {
        Some(self.cmp(other))
    }
}

impl Ord for OptionalLine {
    ghost cmp = { optional_line_cmp };

    ghost total = { optional_line_total };

    ghost matches_partial_cmp = { λ a b. refl };

    ghost matches_eq = { λ a b. refl };

    fn cmp(&self, other: &OptionalLine) -> Ordering {
        self.module
            .cmp(&other.module)
            .then(self.at.cmp(&other.at))
            .then(self.space.as_slice().cmp(other.space.as_slice()))
            .then(self.label.as_slice().cmp(other.label.as_slice()))
            .then((!self.enabled).cmp(&!other.enabled))
    }
}
