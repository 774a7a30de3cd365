// The lookup: what a board does in a slot, and the name of the job.
ghost use Rattle.std.specs.Prelude.{◌≡◌, ◌&&◌, ◌≤◌, length, eqb};
ghost use Rattle.std.specs.Option.{unwrap_or};
ghost use Rattle.rules.specs.Sizes.{max_limit, max_boards};
ghost use Rattle.rules.specs.Answers.{lookup as Answers·lookup, name_at};
ghost use Rattle.refusals.specs.Refusals.{refusal_number, answer_of};
ghost use Rattle.table.specs.Entries.{cell_number, job_in, row_number, found_of, place_of};

use fields::value_at;
use jobfile::most_boards;
use questions::{apart, sized};
use refusals::Refusal;
use rows::{Rows, read_rows};
use sizes::{MAX_JOBS, MAX_SLOTS};

// A job, by its number, from 1, and where its name stands in the table, from start to before end.
#[derive(Clone, Copy)]
pub struct Place {
    pub job: usize,
    pub start: usize,
    pub end: usize,
}

// Questions 16 and 17 of the rows that were read, for a job file with this limit and, where it gives them, these most boards; without a job file there are
// none, and the boards are compared with eight.
pub fn cells(
    t: Rows,
    start: &[u8],
    board: &[u8],
    limit: usize,
    sockets: Option<u8>,
) -> Result<(), Refusal>
    requires { (length board.now ≡ length start.now) × (limit ≤ max_limit) × (unwrap_or sockets max_boards ≤ max_boards) }
    ensures { refusal_number result ≡ cell_number limit sockets t.slots t.boards start.now board.now }
{
    let most = usize::from(most_boards(sockets));
    if !sized(limit, most, t.slots, t.boards, start, board) {
        return Err(Refusal::BadSize);
    }
    if !apart(start, board) {
        return Err(Refusal::SharedCell);
    }
    Ok(())
}

// Is this the start and that the board?
fn runs_at(start: u8, board: u8, s: usize, b: usize) -> bool
    ensures { result ≡ (eqb start s && eqb board b) }
{
    usize::from(start) == s && usize::from(board) == b
}

// The first row with slot s and board b.
fn row_at(start: &[u8], board: &[u8], s: usize, b: usize) -> Option<usize>
    requires { length board.now ≡ length start.now }
    ensures { row_number result ≡ job_in 1 start.now board.now s b }
{
    start
        .iter()
        .zip(board)
        .position(|(slot, number)| runs_at(*slot, *number, s, b))
}

// The job on a board in a slot, and where its name stands; none where the board is idle.
pub fn find(table: &[u8], slot: usize, board: usize) -> Result<Option<Place>, Refusal>
    ensures { answer_of result ≡ place_of table.now (Answers·lookup table.now slot board) }
{
    let mut rows = [0; MAX_JOBS];
    let mut starts = [0; MAX_JOBS];
    let mut boards = [0; MAX_JOBS];
    let Some(t) = read_rows(table, &mut rows, &mut starts, &mut boards) else {
        return Err(Refusal::BadTable);
    };
    let n = t.count;
    if n < 1 {
        return Err(Refusal::BadTable);
    }
    cells(t, &starts[..n], &boards[..n], MAX_SLOTS, None)?;
    let Some(index) = row_at(&starts[..n], &boards[..n], slot, board) else {
        return Ok(None);
    };
    let row = usize::from(rows[index]);
    let v = value_at(table, row);
    Ok(Some(Place {
        job: index + 1,
        start: row + 7,
        end: row + 3 + v.len(),
    }))
}

// What a board does in a slot: the number of its job, from 1; none where it is idle.
pub fn lookup(table: &[u8], slot: usize, board: usize) -> Result<Option<usize>, Refusal>
    ensures { answer_of result ≡ found_of (Answers·lookup table.now slot board) }
{
    match find(table, slot, board)? {
        Some(place) => Ok(Some(place.job)),
        None => Ok(None),
    }
}

// The name of the job on a board in a slot, as the part of the table that holds it; empty where the lookup is idle or refused.
pub fn name(table: &[u8], slot: usize, board: usize) -> &[u8]
    ensures { result.now ≡ name_at table.now slot board }
{
    match find(table, slot, board) {
        Ok(Some(place)) => &table[place.start..place.end],
        Ok(None) => &table[..0],
        Err(_) => &table[..0],
    }
}
