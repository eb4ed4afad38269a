//! A guess at levels. Statements are taken away one by one: those that lead to none that is left. What stays leads to a
//! cycle, or lies on one. It costs one pass over the statements and over the targets of all blockinherits, of which there
//! are several for one only where a name is given twice. Nothing is promised of a guess; `levels.rt` tries it.

use crate::levels::Steps;
use crate::walker::parts_at;
use cil_base::NoMemory;
use cil_syntax::Statement;
use std::alloc::Global;

/// A level for each statement: the later it was taken away, the higher. What stays has the highest.
pub(crate) fn guess(
    alloc: Global,
    statements: &[Statement],
    steps: &Steps,
) -> Result<Vec<usize>, NoMemory> {
    let naming = naming_of(alloc, steps)?;
    let mut levels = vec![in alloc; steps.count; steps.count]?;
    let mut left = steps_from_each(alloc, steps)?;
    for at in 0..steps.count {
        let Some(number) = left.free.get(at).copied() else {
            return Ok(levels);
        };
        set_level(levels.as_mut_slice(), number, at);
        left.leave(under_at(statements, number))?;
        left.leave_all(naming_at(naming.as_slice(), number))?;
    }
    Ok(levels)
}

fn set_level(levels: &mut [usize], number: usize, level: usize) {
    if number < levels.len() {
        levels[number] = level;
    }
}

/// The number of the statement round one.
fn under_at(statements: &[Statement], number: usize) -> Option<usize> {
    match statements.get(number) {
        None => None,
        Some(statement) => statement.under,
    }
}

/// For each statement the blockinherits that name it.
fn naming_of(alloc: Global, steps: &Steps) -> Result<Vec<Vec<usize>>, NoMemory> {
    let mut naming = no_lists(alloc, steps.count)?;
    for number in 0..steps.count {
        name_all(naming.as_mut_slice(), steps.targets.at(number), number)?;
    }
    Ok(naming)
}

fn no_lists(alloc: Global, count: usize) -> Result<Vec<Vec<usize>>, NoMemory> {
    let mut lists = Vec::with_capacity(alloc, count)?;
    for _ in 0..count {
        lists.push(Vec::new(alloc))?;
    }
    Ok(lists)
}

/// Puts a blockinherit in the list of each of its targets.
fn name_all(naming: &mut [Vec<usize>], targets: &[usize], number: usize) -> Result<(), NoMemory> {
    for target in targets {
        if *target < naming.len() {
            naming[*target].push(number)?;
        }
    }
    Ok(())
}

fn naming_at(naming: &[Vec<usize>], number: usize) -> &[usize] {
    match naming.get(number) {
        None => &[],
        Some(numbers) => numbers.as_slice(),
    }
}

/// What is left while statements are taken away.
#[derive(Drop)]
struct Left {
    /// For each statement how many steps it has to those that are left.
    steps: Vec<usize>,
    /// Those that have no such step, in the order in which they lost the last one.
    free: Vec<usize>,
}

/// All are left, and the steps from each are counted.
fn steps_from_each(alloc: Global, steps: &Steps) -> Result<Left, NoMemory> {
    let mut left = no_steps(alloc, steps.count)?;
    for number in 0..steps.count {
        let inside = parts_at(steps.parts, number).len();
        let named = steps.targets.at(number).len();
        left.begin(number, inside.saturating_add(named))?;
    }
    Ok(left)
}

fn no_steps(alloc: Global, count: usize) -> Result<Left, NoMemory> {
    let steps = Vec::with_capacity(alloc, count)?;
    Ok(Left {
        steps,
        free: Vec::new(alloc),
    })
}

impl Left {
    /// Adds a statement that has so many steps.
    fn begin(&mut self, number: usize, count: usize) -> Result<(), NoMemory> {
        self.steps.push(count)?;
        if count > 0 {
            return Ok(());
        }
        self.free.push(number)?;
        Ok(())
    }

    /// Takes one step from each of some statements.
    fn leave_all(&mut self, numbers: &[usize]) -> Result<(), NoMemory> {
        for number in numbers {
            self.leave(Some(*number))?;
        }
        Ok(())
    }

    /// Takes one step from a statement.
    fn leave(&mut self, number: Option<usize>) -> Result<(), NoMemory> {
        let Some(number) = number else {
            return Ok(());
        };
        if number >= self.steps.len() {
            return Ok(());
        }
        let count = self.steps[number].saturating_sub(1);
        self.steps[number] = count;
        if count > 0 {
            return Ok(());
        }
        self.free.push(number)?;
        Ok(())
    }
}
