// The boards of a start list of at most five jobs, from the words of document 01: slot by slot, first the jobs with a giver in the slot before.
ghost use Rattle.std.specs.Prelude.{◌<◌, ◌≤◌};

use crate::draw::Needs;
use crate::lists::follows;

// The board of the giver in the slot before.
fn inherited(needs: &Needs, starts: &[u8; 5], boards: &[Option<u8>; 5], job: usize) -> Option<u8>
    requires { job < 5 }
{
    for giver in 0..5 {
        if follows(needs, starts, giver, job) {
            return boards[giver];
        }
    }
    None
}

// Does a job of the slot have the board?
fn taken(starts: &[u8; 5], boards: &[Option<u8>; 5], slot: u8, board: u8) -> bool {
    starts
        .iter()
        .zip(boards)
        .any(|(start, other)| *start == slot && *other == Some(board))
}

// The lowest board left in the slot.
fn left(starts: &[u8; 5], boards: &[Option<u8>; 5], slot: u8) -> u8 {
    for board in 1..5 {
        if !taken(starts, boards, slot, board) {
            return board;
        }
    }
    5
}

// Gives those of so many jobs that start in the slot and inherit a board theirs.
fn place_takers(
    needs: &Needs,
    starts: &[u8; 5],
    jobs: usize,
    slot: u8,
    boards: &mut [Option<u8>; 5],
)
    requires { jobs ≤ 5 }
{
    for job in 0..jobs {
        if starts[job] == slot {
            boards[job] = inherited(needs, starts, boards, job);
        }
    }
}

// Gives each of so many jobs that starts in the slot without a board the lowest one left.
fn place_others(starts: &[u8; 5], jobs: usize, slot: u8, boards: &mut [Option<u8>; 5])
    requires { jobs ≤ 5 }
{
    for job in 0..jobs {
        if starts[job] == slot && boards[job].is_none() {
            boards[job] = Some(left(starts, boards, slot));
        }
    }
}

// The boards of so many jobs.
pub(crate) fn place(needs: &Needs, starts: &[u8; 5], jobs: usize) -> [Option<u8>; 5]
    requires { jobs ≤ 5 }
{
    let mut boards = [None; 5];
    for slot in 0..6 {
        place_takers(needs, starts, jobs, slot, &mut boards);
        place_others(starts, jobs, slot, &mut boards);
    }
    boards
}
