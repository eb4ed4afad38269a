//! The compiler: from modules to the tables of their policy, or exactly its faults.

ghost use Rattle.std.specs.Prelude.{◌≡◌, ◌≤◌, ℕ, [], IfOk, IfErr, List, length, map};
ghost use Rattle.cil_faults.specs.Refusal.{Answers};
ghost use Rattle.cil_syntax.specs.Program.{IsNested};
ghost use Rattle.cil_blocks.specs.Places.{AreStandings, statements_in};
ghost use Rattle.cil_macros.specs.Items.{items_in, namespaces_in};
ghost use Rattle.cil_names.specs.declared.entry.Entry.{Entry as AnEntry};
ghost use Rattle.cil_names.specs.Entries.{AreEntries, is_in};
ghost use Rattle.cil_known.specs.Known.{IsKnown, enabled_in, row_in};
ghost use Rattle.cil_known.specs.Numbers.{AreApart, ArePlainNames, names_of};
ghost use Rattle.cil_names.specs.PermissionWords.{meanings};
ghost use Rattle.cil_names.specs.Rows.{IsTableOf};
ghost use Rattle.cil_names.specs.Shared.{AreShared};
ghost use Rattle.cil_names.specs.Faults.{ClashFault};
ghost use Rattle.cil_faults.specs.declared.fault.Fault.{Fault as AFault};
ghost use Rattle.cil_level_rows.specs.mls.OrderFaults.{AreOrders};
ghost use Rattle.cil_names.specs.Unresolved.{ArePermissions};
ghost use Rattle.cil_optionals.specs.Lines.{AreOptionalsOf, AreReasonsOf};
ghost use Rattle.cil_tables.specs.CompileAnswer.{IsCompiled, IsCompiledOf, StandsIn};
ghost use Rattle.cil_tables.specs.CompileSteps.{HaveNames, IsChosen};
ghost use Rattle.cil_faults.specs.First.{AreFirst};
ghost use Rattle.cil_tables.specs.CompileRefusal.{CompileFails, ItemsFail, LaterFail, later_steps};
ghost use Rattle.cil_tables.specs.Compiled.{IsTable};
ghost use Rattle.cil_classes.specs.ClassRows.{AreRowsOf};
ghost use Rattle.cil_tables.specs.SetsStep.{SetsFault};
ghost use Rattle.cil_tables.specs.Standings.{AllStand};
ghost use Rattle.cil_tables.specs.Table.{most_booleans};

use crate::filled::{fill_sections, tables_from};
use crate::limit::check_booleans;
use crate::standings::{Standings, standings_of};
use crate::tables::Tables;
use cil_base::{Bytes, NoMemory};
use cil_blocks::{Spaces, inherit};
use cil_classes::{Classes, classes};
use cil_declare::declare;
use cil_faults::{Both, Failure, together};
use cil_known::{Known, Numbering, Sections, numbered};
use cil_level_rows::{Orders, labels_of, orders};
use cil_macros::{Instances, expand};
use cil_modset::ModuleSet;
use cil_names::{Lookup, Names as DeclaredNames, Shared, Words, commons_of, permissions_of};
use cil_optionals::{
    Chosen, OptionalLine, Reason, WhyLine, asks_of, greatest_of, judged, optional_lines, settled,
    why_lines,
};
use cil_syntax::written;
use std::alloc::Global;

/// What modules compile to.
#[derive(Debug, Drop)]
pub struct Compiled {
    /// The tables of the policy.
    pub tables: Tables,
    /// A line for each optional of the policy, sorted.
    pub optionals: Vec<OptionalLine>,
    /// A reason for each optional that is left out, in an order in which they can be removed.
    pub why: Vec<Reason>,
    /// The lines of these reasons, in their order.
    pub reasons: Vec<WhyLine>,
}

/// Compiles a set of modules. The optionals that are in force are the greatest set of those whose words all name something.
/// The tables are the same for the same modules, whatever the order in which they came: each section is the list of a set in a
/// stated order. (CIL Reference Guide.)
///
/// Errors: the faults of the first step that has some (shape, blocks, calls, the limit of instances, clashing declarations,
/// unresolved words outside optionals, aliases, attributes, classes, booleans and orders, levels, rules that the policy forbids itself), or
/// out of memory.
pub fn compile(alloc: Global, modules: &ModuleSet) -> Result<Compiled, Failure>
    ensures compiled { IfOk result (IsCompiled modules.now) }
    ensures faults { IfErr result (CompileFails modules.now) }
{
    let program = written(alloc, modules)?;
    // What is known of the statements of every program.
    program.statements();
    let stands = inherit(alloc, &program)?;
    standing_policy(alloc, &stands)
}

/// What all that stands compiles to.
///
/// Errors: the faults of the first step that has some (calls, the limit of instances, clashing declarations, unresolved words
/// outside optionals, aliases, attributes, booleans, classes and orders, levels, forbidden rules), or out of memory.
fn standing_policy(alloc: Global, stands: &Spaces) -> Result<Compiled, Failure>
    requires standings { AreStandings stands.now }
    requires nested { IsNested (statements_in stands.now) }
    ensures compiled { IfOk result (λ compiled. (modules : List (List ℕ)) → StandsIn modules stands.now → IsCompiled modules compiled) }
    ensures faults { IfErr result (λ failure. (modules : List (List ℕ)) → StandsIn modules stands.now → CompileFails modules failure) }
{
    let instances = expand(alloc, stands)?;
    // What is known of all that is placed.
    instances.called();
    placed_policy(alloc, &instances)
}

/// What all that is placed compiles to.
///
/// Errors: the faults of the first step that has some (clashing declarations, unresolved words outside optionals, aliases,
/// attributes, booleans, classes and orders, levels, forbidden rules), or out of memory.
fn placed_policy(alloc: Global, instances: &Instances) -> Result<Compiled, Failure>
    requires { (es : List AnEntry) → AreEntries (namespaces_in instances.now) (items_in instances.now) es → ArePlainNames (namespaces_in instances.now) es }
    ensures compiled { IfOk result (IsCompiledOf (items_in instances.now)) }
    ensures faults { IfErr result (ItemsFail (items_in instances.now)) }
{
    let names = declare(alloc, instances)?;
    let shared = commons_of(alloc, instances, &names)?;
    let permissions = permissions_of(alloc, instances, &names, shared.as_slice())?;
    named_policy(
        alloc,
        &*instances,
        permissions.as_slice(),
        shared.as_slice(),
        &names,
    )
}

/// What all that is placed compiles to, by its names, which no declarations clash over.
///
/// Errors: the faults of the first step that has some (unresolved words outside optionals, aliases, attributes, booleans, classes and
/// orders, levels, forbidden rules), or out of memory.
fn named_policy<'a>(
    alloc: Global,
    instances: &Instances<'_, '_, 'a>,
    permissions: &[Vec<Bytes>],
    shared: &[Shared],
    names: &DeclaredNames<'a>,
) -> Result<Compiled, Failure>
    requires { HaveNames (namespaces_in instances.now) names.now (items_in instances.now) permissions.now shared.now }
    ensures compiled { IfOk result (IsCompiledOf (items_in instances.now)) }
    ensures faults { IfErr result (ItemsFail (items_in instances.now)) }
{
    let asks = asks_of(alloc, &*instances, &*names, permissions)?;
    let chosen = greatest_of(alloc, &*instances, &*names, &asks)?;
    judged(alloc, &*instances, &*names, &asks, &chosen.enabled)?;
    let words = settled(alloc, names, asks, &chosen.enabled)?;
    chosen_policy(alloc, instances, permissions, shared, &words, names, chosen)
}

/// What all that is placed compiles to, where these optionals are in force and its words have these meanings.
///
/// Errors: the faults of the first step that has some (aliases, attributes, booleans, classes and orders, levels, forbidden rules), or out of
/// memory.
fn chosen_policy(
    alloc: Global,
    instances: &Instances,
    permissions: &[Vec<Bytes>],
    shared: &[Shared],
    words: &Words,
    names: &DeclaredNames,
    chosen: Chosen,
) -> Result<Compiled, Failure>
    requires named { HaveNames (namespaces_in instances.now) names.now (items_in instances.now) permissions.now shared.now }
    requires chosen { IsChosen (items_in instances.now) chosen }
    requires table { IsTableOf (map (meanings (namespaces_in instances.now) names.now permissions.now (is_in chosen.enabled)) (items_in instances.now)) words.now }
    ensures compiled { IfOk result (IsCompiledOf (items_in instances.now)) }
    ensures faults { IfErr result (ItemsFail (items_in instances.now)) }
{
    let lookup = Lookup {
        namespaces: instances.namespaces(),
        names,
        enabled: &chosen.enabled,
    };
    let tables = tables_of(alloc, instances, permissions, shared, words, &lookup)?;
    let lines = lines_of(alloc, instances, &chosen)?;
    let Lines { optionals, reasons } = lines;
    let Chosen {
        enabled: _,
        reasons: why,
    } = chosen;
    Ok(Compiled {
        tables,
        optionals,
        why,
        reasons,
    })
}

/// The lines of a choice of optionals: one for each optional, sorted, and one for each reason, in their order.
#[derive(Drop)]
struct Lines {
    optionals: Vec<OptionalLine>,
    reasons: Vec<WhyLine>,
}

/// The lines of a choice of optionals. Error: out of memory.
fn lines_of(alloc: Global, instances: &Instances, chosen: &Chosen) -> Result<Lines, NoMemory>
    requires { IsChosen (items_in instances.now) chosen.now }
    ensures optionals { IfOk result (λ lines. AreOptionalsOf (items_in instances.now) (is_in chosen.now.enabled) lines.optionals.items) }
    ensures reasons { IfOk result (λ lines. AreReasonsOf (items_in instances.now) chosen.now.reasons.items lines.reasons.items) }
{
    let optionals = optional_lines(alloc, instances, &chosen.enabled)?;
    let reasons = why_lines(alloc, instances, chosen.reasons.as_slice())?;
    Ok(Lines { optionals, reasons })
}

/// The tables of all that is placed, where its words have these meanings, and these are the classes and commons that statements
/// join.
///
/// Errors: the faults of aliases, attributes, classes, booleans and orders together, or those of levels, or those of rules that the policy
/// forbids itself; or out of memory.
fn tables_of(
    alloc: Global,
    instances: &Instances,
    permissions: &[Vec<Bytes>],
    shared: &[Shared],
    words: &Words,
    lookup: &Lookup,
) -> Result<Tables, Failure>
    requires namespaces { lookup.now.namespaces.now ≡ namespaces_in instances.now }
    requires entries { AreEntries lookup.now.namespaces.now (items_in instances.now) lookup.now.names.now }
    requires permissions { ArePermissions lookup.now.namespaces.now lookup.now.names.now (items_in instances.now) permissions.now }
    requires shared { AreShared (namespaces_in instances.now) lookup.now.names.now (items_in instances.now) shared.now }
    requires plain { ArePlainNames lookup.now.namespaces.now lookup.now.names.now }
    requires clashes { (f : AFault) → ClashFault (items_in instances.now) f → ⊥ }
    requires table { IsTableOf (map (meanings lookup.now.namespaces.now lookup.now.names.now permissions.now (is_in lookup.now.enabled.now)) (items_in instances.now)) words.now }
    ensures tables { IfOk result (λ tables. IsTable (items_in instances.now) (is_in lookup.now.enabled.now) tables × AreFirst (later_steps (items_in instances.now) (is_in lookup.now.enabled.now)) []) }
    ensures faults { IfErr result (LaterFail (items_in instances.now) (is_in lookup.now.enabled.now)) }
{
    // What is known of the numbers of namespaces.
    lookup.namespaces.are_namespaces();
    let numbering = numbered(alloc, lookup)?;
    let known = Known {
        lookup: *lookup,
        words,
        numbers: numbering.numbers.as_slice(),
        permissions,
    };
    let judged = judged_sets(alloc, instances, &known, &numbering, shared)?;
    let Both {
        first: classes,
        second: others,
    } = judged;
    let Both {
        first: stand,
        second: rest,
    } = others;
    let sections = &numbering.sections;
    let levels = labels_of(alloc, instances, &known, sections, &rest.second)?;
    let rows = classes.rows.as_slice();
    let filled = fill_sections(alloc, instances, &known, sections, &stand, rows)?;
    Ok(tables_from(numbering, classes, filled, levels))
}

/// What is known of a policy before its levels are: its classes, what its words stand for, and its orders.
type JudgedSets = Both<Classes, Both<Standings, Both<(), Orders>>>;

/// The classes of a policy, what its words stand for, and its orders of sensitivities and categories.
///
/// Errors: the faults of aliases, attributes, classes, booleans and orders together, or out of memory.
fn judged_sets(
    alloc: Global,
    instances: &Instances,
    known: &Known,
    numbering: &Numbering,
    shared: &[Shared],
) -> Result<JudgedSets, Failure>
    requires namespaces { known.now.lookup.namespaces.now ≡ namespaces_in instances.now }
    requires shared { AreShared (namespaces_in instances.now) known.now.lookup.names.now (items_in instances.now) shared.now }
    requires table { IsTableOf (map (row_in known.now) (items_in instances.now)) known.now.words.now }
    requires known { IsKnown known.now (items_in instances.now) (names_of numbering.now.sections) }
    requires numbers { known.now.numbers.now ≡ numbering.now.numbers.items }
    requires apart { AreApart known.now.lookup.names.now (enabled_in known.now) known.now.numbers.now }
    ensures { Answers (λ both. AreRowsOf known.now.lookup.namespaces.now known.now.lookup.names.now (enabled_in known.now) known.now.permissions.now numbering.now.sections.classes.items both.first.rows.items
        × (AllStand known.now (items_in instances.now) (names_of numbering.now.sections) both.second.first
        × ((length numbering.now.sections.booleans.items ≤ most_booleans)
        × AreOrders (items_in instances.now) (enabled_in known.now) numbering.now.sections.sensitivities.items numbering.now.sections.categories.items both.second.second.second)))
        (SetsFault (enabled_in known.now) (items_in instances.now)) result }
{
    let rows = classes(
        alloc,
        instances,
        &known.lookup,
        numbering,
        known.permissions,
        shared,
    );
    let standings = standings_of(alloc, instances, known, &numbering.sections);
    let few = check_booleans(alloc, numbering.sections.booleans.as_slice());
    let ordered = orders(alloc, instances, known, &numbering.sections);
    let counted = together(few, ordered);
    let others = together(standings, counted);
    together(rows, others)
}
