// What the planner is to answer for at most five jobs, by a search through all lists of starts 0 to 5, from the words of document 01
// and of document 02, request 13.
//
// A list has a number below 7,776: its starts are the digits in base six, the first job's last. A job that the file does not have starts in slot 0.
ghost use Rattle.std.specs.Prelude.{◌<◌};

use crate::draw::{Needs, Sizes};

// Why a file has no table, by the number of the question that says so.
#[derive(Clone, Copy, PartialEq, Eq)]
pub(crate) enum Refused {
    Circle = 11,
    Wide = 12,
    NoList = 13,
}

// The list of a number.
fn list(number: u32) -> [u8; 5] {
    [
        (number % 6) as u8,
        (number / 6 % 6) as u8,
        (number / 36 % 6) as u8,
        (number / 216 % 6) as u8,
        (number / 1296 % 6) as u8,
    ]
}

// How many lists so many jobs have.
fn lists(jobs: usize) -> u32 {
    match jobs {
        1 => 6,
        2 => 36,
        3 => 216,
        4 => 1296,
        _ => 7776,
    }
}

// The largest start plus one.
pub(crate) fn slots(starts: &[u8; 5]) -> u8 {
    starts.iter().copied().max().unwrap_or(0).saturating_add(1)
}

// Does the taker run in the slot right after the giver, with a need between them?
pub(crate) fn follows(needs: &Needs, starts: &[u8; 5], giver: usize, taker: usize) -> bool
    requires { (giver < 5) × (taker < 5) }
{
    needs[giver][taker] && starts[giver].checked_add(1) == Some(starts[taker])
}

// Does a taker start before the slot after its giver?
fn early(needs: &Needs, starts: &[u8; 5]) -> bool {
    for (takers, giver) in needs.iter().zip(starts) {
        if takers
            .iter()
            .zip(starts)
            .any(|(need, taker)| *need && *taker <= *giver)
        {
            return true;
        }
    }
    false
}

// Are a and b both takers of the job in the slot right after it, or both its givers in the slot right before it?
fn beside(needs: &Needs, starts: &[u8; 5], job: usize, a: usize, b: usize) -> bool
    requires { (job < 5) × (a < 5) × (b < 5) }
{
    if follows(needs, starts, job, a) && follows(needs, starts, job, b) {
        return true;
    }
    follows(needs, starts, a, job) && follows(needs, starts, b, job)
}

// Do two takers of one job start in the slot right after it, or two givers of one job run in the slot right before it?
fn crowded(needs: &Needs, starts: &[u8; 5]) -> bool {
    for job in 0..5 {
        for b in 0..5 {
            for a in 0..b {
                if beside(needs, starts, job, a, b) {
                    return true;
                }
            }
        }
    }
    false
}

// How many of so many jobs start in the slot.
fn load(starts: &[u8; 5], jobs: usize, slot: u8) -> usize {
    starts
        .iter()
        .take(jobs)
        .filter(|start| **start == slot)
        .count()
}

// Do more jobs start in some slot than there are boards, eight without tag 9?
fn overloaded(sizes: Sizes, starts: &[u8; 5]) -> bool {
    let most = usize::from(sizes.sockets.unwrap_or(8));
    (0..6).any(|slot| most < load(starts, sizes.jobs, slot))
}

// Is the list a preferred to b? The earliest slot whose jobs differ decides, and there the lowest job that runs in just one of them.
fn preferred(a: &[u8; 5], b: &[u8; 5]) -> bool {
    for slot in 0..6 {
        for (mine, other) in a.iter().zip(b) {
            let runs = *mine == slot;
            if runs != (*other == slot) {
                return runs;
            }
        }
    }
    false
}

// Does the list come before the other: is it shorter, or as short and preferred?
fn before(starts: &[u8; 5], other: &[u8; 5]) -> bool {
    let size = slots(starts);
    let other_size = slots(other);
    if size != other_size {
        return size < other_size;
    }
    preferred(starts, other)
}

// Does a list fit the limit and the boards, and satisfy P?
fn fits(needs: &Needs, sizes: Sizes, starts: &[u8; 5]) -> bool {
    if sizes.limit < slots(starts) || overloaded(sizes, starts) {
        return false;
    }
    !early(needs, starts) && !crowded(needs, starts)
}

// Does the list come before the best so far, and fit?
fn better(needs: &Needs, sizes: Sizes, starts: &[u8; 5], best: &Option<[u8; 5]>) -> bool {
    if let Some(best) = best {
        if !before(starts, best) {
            return false;
        }
    }
    fits(needs, sizes, starts)
}

// Adds what a chain by way of one more job leads to.
fn lead(reached: &mut Needs, via: usize)
    requires { via < 5 }
{
    for from in 0..5 {
        for to in 0..5 {
            if reached[from][via] && reached[via][to] {
                reached[from][to] = true;
            }
        }
    }
}

// Does a chain of needs lead from a job back to it?
fn circle(needs: &Needs) -> bool {
    let mut reached = *needs;
    for via in 0..5 {
        lead(&mut reached, via);
    }
    reached[0][0] || reached[1][1] || reached[2][2] || reached[3][3] || reached[4][4]
}

// The best list for these sizes, or the refusal.
pub(crate) fn best(needs: &Needs, sizes: Sizes) -> Result<[u8; 5], Refused> {
    if circle(needs) {
        return Err(Refused::Circle);
    }
    let mut best = None;
    for number in 0..lists(sizes.jobs) {
        let starts = list(number);
        if better(needs, sizes, &starts, &best) {
            best = Some(starts);
        }
    }
    best.ok_or(Refused::NoList)
}
