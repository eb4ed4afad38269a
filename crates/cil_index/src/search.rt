//! The first of some rising aims that is not below an aim.

ghost use Rattle.std.specs.Prelude.{◌≡◌, ◌≤◌, ◌<◌, ◌+◌, false, length};
ghost use Rattle.cil_index.specs.Entries.{AreBelow, IsLater, RiseIn};

/// So few aims are gone through one by one: that takes less time than to halve them.
const FEW: usize = 16;

/// The first of some rising aims that is not below an aim. It costs a step for each where there are few, and else a search by halving, of a
/// comparison of numbers a step.
fn aim_start(aims: &Vec<u32>, start: usize, end: usize, aim: u32) -> usize
    requires within { end ≤ length aims.now.items }
    requires rising { RiseIn aims.now.items start end }
    ensures behind { start ≤ result }
    ensures below { AreBelow aims.now.items start result aim }
{
    if are_few(start, end) {
        return passed(aims, start, end, aim);
    }
    halved(aims, start, end, aim)
}

/// The same as `aim_start`. It costs as little where the aim is one of the first few.
pub fn near_start(aims: &Vec<u32>, start: usize, end: usize, aim: u32) -> usize
    requires within { end ≤ length aims.now.items }
    requires rising { RiseIn aims.now.items start end }
    ensures behind { start ≤ result }
    ensures below { AreBelow aims.now.items start result aim }
{
    let near = near_end(aims, start, end, aim);
    aim_start(aims, start, near, aim)
}

/// The place a few behind another where the aim there is not below an aim, or the end.
fn near_end(aims: &Vec<u32>, start: usize, end: usize, aim: u32) -> usize
    requires { end ≤ length aims.now.items }
    ensures { result ≤ end }
{
    if are_few(start, end) {
        return end;
    }
    if aims[start + FEW] < aim {
        return end;
    }
    start + FEW
}

/// Whether there are few, or none.
pub fn are_few(start: usize, end: usize) -> bool
    ensures { result ≡ false → start + 16 < end }
{
    end <= start || end - start <= FEW
}

/// The first of some aims that is not below an aim, one by one.
fn passed(aims: &Vec<u32>, start: usize, end: usize, aim: u32) -> usize
    requires { end ≤ length aims.now.items }
    ensures behind { start ≤ result }
    ensures below { AreBelow aims.now.items start result aim }
{
    let mut at = start;
    while at < end {
        if aims[at] >= aim {
            return at;
        }
        at += 1;
    }
    at
}

/// The first of some rising aims that is not below an aim, by halving.
fn halved(aims: &Vec<u32>, start: usize, end: usize, aim: u32) -> usize
    requires within { end ≤ length aims.now.items }
    requires rising { RiseIn aims.now.items start end }
    ensures behind { start ≤ result }
    ensures below { AreBelow aims.now.items start result aim }
{
    if end <= start {
        return start;
    }
    let mut low = start;
    let mut size = end - start;
    while size > 1 {
        let half = size / 2;
        low = later(aims, low, low + half, aim);
        size -= half;
    }
    if aims[low] < aim {
        return low + 1;
    }
    low
}

/// The later of two places where the aim there is below an aim.
fn later(aims: &Vec<u32>, low: usize, middle: usize, aim: u32) -> usize
    requires { middle < length aims.now.items }
    ensures { IsLater aims.now.items low middle aim result }
{
    if aims[middle] < aim { middle } else { low }
}
