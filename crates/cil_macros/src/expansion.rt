//! Macros as a step of the compiler: all instances of statements, or exactly what is wrong with the calls.

ghost use Rattle.std.specs.Prelude.{◌≡◌, ◌+◌, ◌≤◌, length};
ghost use Rattle.cil_base.specs.Lists.{Lists};
ghost use Rattle.cil_faults.specs.Refusal.{Answers};
ghost use Rattle.cil_blocks.specs.InheritFaults.{most_instances};
ghost use Rattle.cil_blocks.specs.Places.{entries_in};
ghost use Rattle.cil_macros.specs.Calls.{IsPlaced, placed_cmp};
ghost use Rattle.cil_macros.specs.ExpandFaults.{ExpandStep};
ghost use Rattle.cil_macros.specs.Expansion.{AreAllBrought, AreJudged, AreOpened, IsLawful};
ghost use Rattle.cil_macros.specs.Macros.{all_standing};
ghost use Rattle.cil_macros.specs.Scene.{IsOpened, IsScene, placed_of_scene};
ghost use Rattle.cil_macros.specs.Walks.{IsSource, written_in};

use crate::brings::marks_of;
use crate::chain::Brought;
use crate::declared_names::{Declared, declared_in_bodies};
use crate::faults::call_faults;
use crate::instances::Instances;
use crate::list_places::list_marks;
use crate::macros::macros_of;
use crate::nesting::innermost_of;
use crate::openings::{Opening, openings_of};
use crate::scene::Scene;
use crate::source::Source;
use crate::walk::walk;
use cil_blocks::inheritance::over_the_limit;
use cil_blocks::parts::parts_of;
use cil_blocks::{MOST_INSTANCES, Spaces};
use cil_syntax::{Failure, FaultList};
use std::alloc::Global;

/// All instances of statements: what stands, and what calls bring. (CIL Reference Guide, "Call / Macro Statements"; for the
/// scopes and the faults this project's profile.)
///
/// Errors: one fault where there are more than 1,000,000 instances; otherwise the faults of calls that came through their own
/// macro, of calls whose arguments do not fit or are lists where only a name may stand, and of calls in branches that bring what may
/// not be in a branch; or out of memory.
pub fn expand<'s, 'p, 'a>(
    alloc: Global,
    spaces: &'s Spaces<'p, 'a>,
) -> Result<Instances<'s, 'p, 'a>, Failure>
    ensures { Answers (λ i. i.0 ≡ spaces.now) (ExpandStep (written_in spaces.now) (all_standing spaces.now)) result }
{
    let opened = opened_by(alloc, spaces)?;
    let innermost = innermost_of(alloc, spaces, &opened.brought)?;
    Ok(Instances {
        spaces,
        brought: opened.brought,
        declared: opened.declared,
        openings: opened.openings,
        innermost,
    })
}

/// What calls bring, with what the bodies of macros have.
#[derive(Drop)]
struct Opened<'a> {
    brought: Brought,
    declared: Declared<'a>,
    openings: Vec<Opening<'a>>,
}

/// What calls bring, where nothing is wrong with them.
///
/// Errors: those of `expand`.
fn opened_by<'a>(alloc: Global, spaces: &Spaces<'_, 'a>) -> Result<Opened<'a>, Failure>
    ensures { Answers (AreOpened spaces.now) (ExpandStep (written_in spaces.now) (all_standing spaces.now)) result }
{
    let macros = macros_of(alloc, spaces)?;
    let parts = parts_of(alloc, spaces.statements())?;
    let source = Source {
        spaces,
        macros: &macros,
        parts: &parts,
    };
    opened_from(alloc, &source)
}

/// The same, by the macros that stand and what is directly in each statement.
fn opened_from<'a>(alloc: Global, source: &Source<'_, '_, 'a>) -> Result<Opened<'a>, Failure>
    requires { IsSource source.now }
    ensures { Answers (AreOpened source.now.spaces.now) (ExpandStep (written_in source.now.spaces.now) (all_standing source.now.spaces.now)) result }
{
    let Some(brought) = walk(alloc, source, MOST_INSTANCES)? else {
        return Err(Failure::Faults(over_the_limit(alloc)?));
    };
    opened_with(alloc, source, brought)
}

/// The same of what calls bring.
fn opened_with<'a>(
    alloc: Global,
    source: &Source<'_, '_, 'a>,
    brought: Brought,
) -> Result<Opened<'a>, Failure>
    requires source { IsSource source.now }
    requires all { AreAllBrought source.now.spaces.now most_instances brought }
    ensures { Answers (AreOpened source.now.spaces.now) (ExpandStep (written_in source.now.spaces.now) (all_standing source.now.spaces.now)) result }
{
    let declared = declared_in_bodies(alloc, source.spaces.statements())?;
    let scene = Scene {
        spaces: source.spaces,
        brought: &brought,
        declared: &declared,
    };
    let openings = judged_openings(alloc, source, &scene)?;
    Ok(Opened {
        brought,
        declared,
        openings,
    })
}

/// What the bodies of macros have from their calls, where nothing is wrong with these.
fn judged_openings<'a>(
    alloc: Global,
    source: &Source,
    scene: &Scene<'_, '_, 'a>,
) -> Result<Vec<Opening<'a>>, Failure>
    requires source { IsSource source.now }
    requires same { source.now.spaces.now ≡ scene.now.spaces.now }
    requires scene { IsScene scene.now }
    requires all { AreAllBrought scene.now.spaces.now most_instances scene.now.brought.now }
    ensures { Answers (λ os. AreJudged scene.now os.items) (ExpandStep (written_in scene.now.spaces.now) (all_standing scene.now.spaces.now)) result }
{
    let openings = openings_of(alloc, scene)?;
    judge(alloc, source, scene, openings.as_slice())?;
    Ok(openings)
}

/// Judges the calls of all that is placed.
///
/// Errors: what is wrong with them, or out of memory.
fn judge<'a>(
    alloc: Global,
    source: &Source,
    scene: &Scene<'_, '_, 'a>,
    openings: &[Opening<'a>],
) -> Result<(), Failure>
    requires source { IsSource source.now }
    requires same { source.now.spaces.now ≡ scene.now.spaces.now }
    requires opened { IsOpened scene.now openings.now }
    requires placed { Lists placed_cmp (IsPlaced (written_in scene.now.spaces.now) (all_standing scene.now.spaces.now)) (placed_of_scene scene.now) }
    requires few { length (entries_in scene.now.spaces.now) + length scene.now.brought.now.entries.items ≤ most_instances }
    ensures { Answers (λ u. IsLawful scene.now.spaces.now) (ExpandStep (written_in scene.now.spaces.now) (all_standing scene.now.spaces.now)) result }
{
    let marks = marks_of(alloc, scene.spaces, scene.brought)?;
    let lists = list_marks(alloc, scene, openings)?;
    let faults = call_faults(
        alloc,
        source,
        scene.brought,
        marks.as_slice(),
        lists.as_slice(),
    )?;
    match FaultList::of(faults) {
        None => Ok(()),
        Some(list) => Err(Failure::Faults(list)),
    }
}
