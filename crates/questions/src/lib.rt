// Questions 15 to 18 of a table, over the starts and boards of its rows in number order.
#![tactic(auto)]

ghost use Rattle.std.specs.Prelude.{◌≡◌, ℕ, ◌<◌, ◌≤◌, length, leb};
ghost use Rattle.rules.specs.Basics.{at, all, largest};
ghost use Rattle.rules.specs.Table.{apartb};
ghost use Rattle.rules.specs.Sizes.{max_jobs};
ghost use Rattle.questions.specs.Questions.{labelled_by, Placed, labelled_in, sized_in, InCells, late_enough, RowsIn, row_kept, rows_kept};

use fields::{value_at, word_at};
use jobset::Set;
use needrows::takers;
use sizes::{MAX_JOBS, MAX_SLOTS};

// ---- 15

// Has the row its job's name, and its level in centimetres? By the values of their fields.
fn labelled_row(job: &[u8], row: &[u8]) -> bool
    requires { (2 ≤ length job.now) × (4 ≤ length row.now) }
    ensures { result ≡ labelled_by job.now row.now }
{
    if job[2..] != row[4..] {
        return false;
    }
    levels::centimetres(word_at(job, 0)) == word_at(row, 2)
}

// Question 15: has each job its name and its level in centimetres? `jobs` and `rows` say where the fields begin.
pub fn labelled(
    file: &[u8],
    jobs: &[u16; MAX_JOBS],
    table: &[u8],
    rows: &[u16; MAX_JOBS],
    count: usize,
) -> bool
    requires { (count ≤ max_jobs) × ((i : ℕ) → i < count → Placed file.now (at jobs.now i) table.now (at rows.now i)) }
    ensures { result ≡ labelled_in file.now jobs.now table.now rows.now count }
{
    for (job, row) in jobs[..count].iter().zip(&rows[..count]) {
        let job = value_at(file, usize::from(*job));
        let row = value_at(table, usize::from(*row));
        if !labelled_row(job, row) {
            return false;
        }
    }
    true
}

// ---- 16

// The largest entry; 0 where there is none.
fn largest_of(list: &[u8]) -> usize
    ensures { result ≡ largest list.now }
{
    usize::from(list.iter().copied().max().unwrap_or(0))
}

// Is each entry at least 1?
fn all_positive(list: &[u8]) -> bool
    ensures { result ≡ all (leb 1) list.now }
{
    list.iter().all(|entry| 1 <= *entry)
}

// Question 16: are slots and boards those of the rows, and within their bounds?
pub fn sized(
    limit: usize,
    most: usize,
    slots: usize,
    boards: usize,
    start: &[u8],
    board: &[u8],
) -> bool
    ensures { result ≡ sized_in limit most slots boards start.now board.now }
{
    if slots != largest_of(start) + 1 {
        return false;
    }
    if limit < slots {
        return false;
    }
    if !all_positive(board) {
        return false;
    }
    if boards != largest_of(board) {
        return false;
    }
    boards <= most
}

// ---- 17

// Question 17: do no two jobs share start and board? Of each slot `taken` has the boards so far.
pub fn apart(start: &[u8], board: &[u8]) -> bool
    requires { (length board.now ≡ length start.now) × InCells start.now board.now }
    ensures { result ≡ apartb (length start.now) start.now board.now }
{
    let mut taken = [0; MAX_SLOTS];
    for (start, board) in start.iter().zip(board) {
        let slot = usize::from(*start);
        let number = usize::from(*board);
        let boards = Set { bits: taken[slot] };
        if boards.has(number) {
            return false;
        }
        taken[slot] = boards.with(number).bits;
    }
    true
}

// ---- 18

// Does the taker start late enough after the giver: one slot on its board, two on another?
fn late_enough(start: &[u8], board: &[u8], giver: usize, taker: usize) -> bool
    requires { (giver < length start.now) × (taker < length start.now) × (length board.now ≡ length start.now) }
    ensures { result ≡ late_enough start.now board.now giver taker }
{
    let before = usize::from(start[giver]);
    let after = usize::from(start[taker]);
    if board[taker] == board[giver] {
        return before + 1 <= after;
    }
    before + 2 <= after
}

// Are the needs of one giver kept, by its row?
fn row_kept(rows: &[u8], start: &[u8], board: &[u8], giver: usize) -> bool
    requires { (giver < length start.now) × (length board.now ≡ length start.now) × RowsIn rows.now (length start.now) }
    ensures { result ≡ row_kept rows.now start.now board.now giver }
{
    for taker in takers(rows, start.len(), giver) {
        if !late_enough(start, board, giver, taker) {
            return false;
        }
    }
    true
}

// Question 18: are the needs kept, by the rows of takers?
pub fn needs_kept(rows: &[u8], start: &[u8], board: &[u8]) -> bool
    requires { (length board.now ≡ length start.now) × RowsIn rows.now (length start.now) }
    ensures { result ≡ rows_kept rows.now start.now board.now }
{
    for giver in 0..start.len() {
        if !row_kept(rows, start, board, giver) {
            return false;
        }
    }
    true
}
