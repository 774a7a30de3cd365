// The slot table: the check (questions 2 to 11 and 21 of the job file and 14 to 18 of the table), and the lookup and the name (14, 16 and 17 of the table).
#![tactic(auto)]

mod places;

ghost use Rattle.std.specs.Prelude.{◌≡◌};
ghost use Rattle.rules.specs.Answers.{check as Answers·check};
ghost use Rattle.refusals.specs.Refusals.{answer_of};
ghost use Rattle.table.specs.Entries.{passed_of};

use needrows::ROWS_BYTES;
use places::cells;
pub use places::{Place, find, lookup, name};
use questions::{labelled, needs_kept};
use refusals::Refusal;
use rows::read_rows;
use sizes::MAX_JOBS;

// Is this a table for the job file? Where not, the question that says no.
pub fn check(file: &[u8], table: &[u8]) -> Result<(), Refusal>
    ensures { answer_of result ≡ passed_of (Answers·check file.now table.now) }
{
    let mut offsets = [0; MAX_JOBS];
    let mut takers = [0; ROWS_BYTES];
    let f = jobfile::read_file(file, &mut offsets, &mut takers)?;
    let jobs = f.jobs;
    let mut order = [0; MAX_JOBS];
    let mut release = [0; MAX_JOBS];
    if !releases::peel(&takers, jobs, &mut order, &mut release) {
        return Err(Refusal::Circle);
    }
    let mut rows = [0; MAX_JOBS];
    let mut start = [0; MAX_JOBS];
    let mut board = [0; MAX_JOBS];
    let Some(t) = read_rows(table, &mut rows, &mut start, &mut board) else {
        return Err(Refusal::BadTable);
    };
    if t.count != jobs {
        return Err(Refusal::BadTable);
    }
    if !labelled(file, &offsets, table, &rows, jobs) {
        return Err(Refusal::BadLabel);
    }
    cells(t, &start[..jobs], &board[..jobs], f.limit, f.sockets)?;
    if !needs_kept(&takers, &start[..jobs], &board[..jobs]) {
        return Err(Refusal::BrokenNeed);
    }
    Ok(())
}
