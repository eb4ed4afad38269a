//! The levels of a policy, or all that is wrong with them.

ghost use Rattle.std.specs.Prelude.{◌≡◌, ◌↔◌, ◌≤◌, ℕ, All, IfOk, List, map, true};
ghost use Rattle.cil_faults.specs.declared.fault.Fault.{Fault as AFault};
ghost use Rattle.cil_syntax.specs.declared.kind.Kind as kinds;
ghost use Rattle.cil_macros.specs.Items.{items_in, namespaces_in};
ghost use Rattle.cil_names.specs.Faults.{ClashFault};
ghost use Rattle.cil_names.specs.Rows.{IsTableOf};
ghost use Rattle.cil_known.specs.declared.known.Known.{Known};
ghost use Rattle.cil_known.specs.Known.{IsKnown, enabled_in, row_in};
ghost use Rattle.cil_known.specs.Numbers.{AreApart, names_of};
ghost use Rattle.cil_mls.specs.OrderFaults.{AreOrders, OrderFault, Switches};
ghost use Rattle.cil_mls.specs.Values.{IsFew};
ghost use Rattle.cil_ranges.specs.Levels.{Ground};
ghost use Rattle.cil_ranges.specs.Given.{AreGiven, HasRoom, ReadsRanges};
ghost use Rattle.cil_ranges.specs.Made.{AreAllFaults, AreMeasured, AreTables, IsAnswered, IsFound, IsPermittedBy, IsScaleOf, MeasuresAs};
ghost use Rattle.cil_ranges.specs.Reading.{Judges};
ghost use Rattle.cil_ranges.specs.Steps.{IsGround};

use crate::check::push_level_faults;
use crate::named::{named_levels, named_ranges};
use crate::own::Judge;
use crate::scale::{Named, Ranged, Scale};
use crate::user_faults::push_user_faults;
use crate::users::{UserRanges, user_ranges};
use cil_base::NoMemory;
use cil_faults::{Failure, Fault, refuse};
use cil_known::{Known, Sections};
use cil_levels::laws::values_are_held;
use cil_levels::{category_values, permitted, sensitivity_places};
use cil_macros::Instances;
use cil_mls::{Categories, Evaluator, Held, Level, Orders, Range};
use cil_names::laws;
use std::alloc::Global;

/// The levels of a policy. Names are by the numbers of their entries.
#[derive(Drop)]
pub struct Levels {
    /// For each sensitivity, by its place in the order, the categories that may go with it.
    pub permitted: Vec<Categories>,
    /// For each declared name the level that it names.
    pub levels: Vec<Option<Level>>,
    /// For each declared name the range that it names.
    pub ranges: Vec<Option<Range>>,
    /// For each declared name the range of the user that it names.
    pub users: Vec<Option<Range>>,
}

/// What levels are measured by.
#[derive(Drop)]
struct Measured {
    /// What each declared name holds of categories.
    held: Vec<Held>,
    /// For each declared name the place of the sensitivity for which it stands.
    sensitivities: Vec<Option<u16>>,
    /// For each sensitivity the categories that may go with it.
    permitted: Vec<Categories>,
}

/// What names of levels and ranges stand for.
#[derive(Drop)]
struct Tables {
    levels: Vec<Option<Level>>,
    ranges: Vec<Option<Range>>,
}

/// What statements give users, and what is wrong.
#[derive(Drop)]
struct Found {
    users: UserRanges,
    faults: Vec<Fault>,
}

/// The levels of a policy whose sensitivities and categories have these orders. Each expression is evaluated a few times; it costs n log
/// n steps for n names, statements and words, and while it runs some 850 bytes for each name.
///
/// Errors: each level with a category that its sensitivity does not permit, each range that is turned, each user with two ranges that
/// differ and, where levels are on, each user without one; or out of memory, which is also the answer where an alias of a sensitivity or a
/// category has several targets, or where a level has permissions of a class in it: there are none of these.
pub fn levels_of(
    alloc: Global,
    instances: &Instances,
    known: &Known,
    sections: &Sections,
    orders: &Orders,
) -> Result<Levels, Failure>
    requires namespaces { known.now.lookup.namespaces.now ≡ namespaces_in instances.now }
    requires table { IsTableOf (map (row_in known.now) (items_in instances.now)) known.now.words.now }
    requires known { IsKnown known.now (items_in instances.now) (names_of sections.now) }
    requires numbers { AreApart known.now.lookup.names.now (enabled_in known.now) known.now.numbers.now }
    requires orders { AreOrders (items_in instances.now) (enabled_in known.now) sections.now.sensitivities.items sections.now.categories.items orders.now }
    requires none { (f : AFault) → OrderFault (items_in instances.now) (enabled_in known.now) f → ⊥ }
    requires apart { (f : AFault) → ClashFault (items_in instances.now) f → ⊥ }
    ensures { IsAnswered known.now (items_in instances.now) result }
{
    // Expressions are evaluated to what they have.
    values_are_held();
    let measured = measure(alloc, instances, known, sections, orders)?;
    let categories = orders.categories.as_slice();
    let count = categories.len();
    let tables = name_tables(alloc, instances, known, &measured, count)?;
    let found = judge(
        alloc,
        instances,
        known,
        &measured,
        &tables,
        count,
        orders.are_on,
    )?;
    answer(measured, tables, found)
}

/// These levels, where nothing is wrong with them. Errors: what was found to be wrong.
fn answer(measured: Measured, tables: Tables, found: Found) -> Result<Levels, Failure>
    ensures { (k : Known) (g : Ground) → IsGround g.items (enabled_in k) g → IsPermittedBy k g measured → AreTables k g tables → IsFound k g found → IsAnswered k g.items result }
{
    match refuse(found.faults) {
        Ok(()) => Ok(Levels {
            permitted: measured.permitted,
            levels: tables.levels,
            ranges: tables.ranges,
            users: found.users.ranges,
        }),
        Err(failure) => Err(failure),
    }
}

/// What levels are measured by. Error: out of memory.
fn measure(
    alloc: Global,
    instances: &Instances,
    known: &Known,
    sections: &Sections,
    orders: &Orders,
) -> Result<Measured, NoMemory>
    requires namespaces { known.now.lookup.namespaces.now ≡ namespaces_in instances.now }
    requires table { IsTableOf (map (row_in known.now) (items_in instances.now)) known.now.words.now }
    requires known { IsKnown known.now (items_in instances.now) (names_of sections.now) }
    requires numbers { AreApart known.now.lookup.names.now (enabled_in known.now) known.now.numbers.now }
    requires orders { AreOrders (items_in instances.now) (enabled_in known.now) sections.now.sensitivities.items sections.now.categories.items orders.now }
    requires none { (f : AFault) → OrderFault (items_in instances.now) (enabled_in known.now) f → ⊥ }
    ensures { IfOk result (λ m. (o : AreOrders (items_in instances.now) (enabled_in known.now) sections.now.sensitivities.items sections.now.categories.items orders.now)
        → AreMeasured known.now (items_in instances.now) o.of_sensitivities.row o.of_categories.row m) }
{
    let held = category_values(alloc, instances, known, sections, orders)?;
    let sensitivities = sensitivity_places(alloc, instances, known, sections, orders)?;
    let permitted = permitted(alloc, instances, known, sections, orders, held.as_slice())?;
    Ok(Measured {
        held,
        sensitivities,
        permitted,
    })
}

/// What levels that are written out are read by.
fn scale_of(measured: &Measured, count: usize) -> Scale<'_>
    ensures { IsScaleOf measured.now count result }
{
    Scale {
        categories: Evaluator {
            count,
            held: measured.held.as_slice(),
        },
        sensitivities: measured.sensitivities.as_slice(),
    }
}

/// What names of levels and ranges stand for, where there are so many categories. Error: out of memory.
fn name_tables(
    alloc: Global,
    instances: &Instances,
    known: &Known,
    measured: &Measured,
    count: usize,
) -> Result<Tables, NoMemory>
    requires namespaces { known.now.lookup.namespaces.now ≡ namespaces_in instances.now }
    requires table { IsTableOf (map (row_in known.now) (items_in instances.now)) known.now.words.now }
    requires known { (sections : kinds.Kind → List (List ℕ)) × IsKnown known.now (items_in instances.now) sections }
    requires apart { (f : AFault) → ClashFault (items_in instances.now) f → ⊥ }
    requires count { count ≤ 1024 }
    requires few { All IsFew measured.now.held.items }
    ensures { IfOk result (λ t. (g : Ground) → g.items ≡ items_in instances.now → MeasuresAs known.now measured.now count g → AreTables known.now g t) }
{
    let scale = scale_of(measured, count);
    let levels = named_levels(alloc, instances, known, &scale)?;
    let named = Named {
        scale,
        levels: levels.as_slice(),
    };
    let ranges = named_ranges(alloc, instances, known, &named)?;
    Ok(Tables { levels, ranges })
}

/// The ranges of users, and all that is wrong with levels and ranges. Error: out of memory.
fn judge(
    alloc: Global,
    instances: &Instances,
    known: &Known,
    measured: &Measured,
    tables: &Tables,
    count: usize,
    are_on: bool,
) -> Result<Found, NoMemory>
    requires namespaces { known.now.lookup.namespaces.now ≡ namespaces_in instances.now }
    requires table { IsTableOf (map (row_in known.now) (items_in instances.now)) known.now.words.now }
    requires known { (sections : kinds.Kind → List (List ℕ)) × IsKnown known.now (items_in instances.now) sections }
    requires apart { (f : AFault) → ClashFault (items_in instances.now) f → ⊥ }
    requires count { count ≤ 1024 }
    requires few { All IsFew measured.now.held.items }
    requires on { (are_on ≡ true) ↔ Switches (items_in instances.now) (enabled_in known.now) true }
    ensures { IfOk result (λ found. (g : Ground) → g.items ≡ items_in instances.now → MeasuresAs known.now measured.now count g → AreTables known.now g tables.now → IsPermittedBy known.now g measured.now
        → IsFound known.now g found) }
{
    // What is known of a word: it means the entry that it names.
    laws::means_what_it_names();
    let named = Named {
        scale: scale_of(measured, count),
        levels: tables.levels.as_slice(),
    };
    let ranged = Ranged {
        named,
        ranges: tables.ranges.as_slice(),
    };
    let judge = Judge {
        named,
        permitted: measured.permitted.as_slice(),
    };
    let users = user_ranges(alloc, instances, known, &ranged)?;
    let faults = found_faults(alloc, instances, known, &ranged, &judge, &users, are_on)?;
    Ok(Found { users, faults })
}

/// All that is wrong with levels and ranges, where statements give users these. Error: out of memory.
fn found_faults(
    alloc: Global,
    instances: &Instances,
    known: &Known,
    ranged: &Ranged,
    judge: &Judge,
    users: &UserRanges,
    are_on: bool,
) -> Result<Vec<Fault>, NoMemory>
    requires namespaces { known.now.lookup.namespaces.now ≡ namespaces_in instances.now }
    requires table { IsTableOf (map (row_in known.now) (items_in instances.now)) known.now.words.now }
    requires known { (sections : kinds.Kind → List (List ℕ)) × IsKnown known.now (items_in instances.now) sections }
    requires room { HasRoom known.now users.now }
    requires count { ranged.now.named.scale.categories.count ≤ 1024 }
    requires few { All IsFew ranged.now.named.scale.categories.held.now }
    requires judged_count { judge.now.named.scale.categories.count ≤ 1024 }
    requires judged_few { All IsFew judge.now.named.scale.categories.held.now }
    ensures { IfOk result (λ faults. (g : Ground) → g.items ≡ items_in instances.now → ReadsRanges known.now ranged.now g → Judges known.now judge.now g → AreGiven known.now g (items_in instances.now) users.now
        → ((are_on ≡ true) ↔ Switches g.items (enabled_in known.now) true) → AreAllFaults (enabled_in known.now) g faults.items) }
{
    let mut faults = Vec::new(alloc);
    push_level_faults(alloc, instances, known, judge, &mut faults)?;
    push_user_faults(alloc, instances, known, ranged, users, are_on, &mut faults)?;
    Ok(faults)
}
