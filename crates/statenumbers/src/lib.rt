// The planner with state numbers for the service screen (document 02, request 11): one for each slot of the table.
//
// The planner is called as it is. Where it has written a table, the job file and the table are read once more, and crate slotstates makes the numbers
// of the starts in the table and the windows of the file. The working buffer, which the planner has cleared, holds the needs (crate needrows)
// meanwhile.
#![tactic(auto)]

ghost use Rattle.std.specs.Prelude.{◌≡◌, ◌≤◌, length};
ghost use Rattle.rules.specs.Sizes.{states_size};
ghost use Rattle.rules.specs.Reports.{report_on, reported};
ghost use Rattle.rules.specs.States.{state_bytes, plan_states};
ghost use Rattle.needrows.specs.Rows.{rows_size};
ghost use Rattle.planner.specs.Planner.{outcome_of};
ghost use Rattle.statenumbers.specs.Answer.{PlannedFor};

use needrows::ROWS_BYTES;
use refusals::Refusal;
use sizes::{MAX_JOBS, STATE_BYTES};

// The numbers of the table that was planned for a job file: both are read once more, the windows with the file's limit. `takers` is room for the needs.
fn put_states(file: &[u8], table: &[u8], takers: &mut [u8], states: &mut [u8])
    requires { PlannedFor file.now table.now × (rows_size ≤ length takers.old) × (states_size ≤ length states.old) }
    ensures { states.new ≡ reported (report_on state_bytes file.now) states.old }
{
    let mut offsets = [0; MAX_JOBS];
    let f = jobfile::read_file(file, &mut offsets, takers).unwrap();
    let jobs = f.jobs;
    let mut order = [0; MAX_JOBS];
    let mut release = [0; MAX_JOBS];
    releases::peel(takers, jobs, &mut order, &mut release);
    let mut tail = [0; MAX_JOBS];
    releases::tails(takers, jobs, &order, &mut tail);
    let mut rows = [0; MAX_JOBS];
    let mut starts = [0; MAX_JOBS];
    let mut boards = [0; MAX_JOBS];
    let t = rows::read_rows(table, &mut rows, &mut starts, &mut boards).unwrap();
    slotstates::put_numbers(&starts, &release, &tail, jobs, f.limit, t.slots, states);
}

// The planner, and for a table its state numbers, two bytes for each slot, low byte first. Bytes behind them, and all after a refusal, stay as they were.
// Where there is not room for the numbers of every table nothing is changed.
pub fn state_numbers(
    file: &[u8],
    work: &mut [u8],
    table: &mut [u8],
    states: &mut [u8],
) -> Result<usize, Refusal>
    ensures table_after { outcome_of result work.new table.new
        ≡ (plan_states file.now work.old table.old states.old).outcome }
    ensures states_after { states.new
        ≡ (plan_states file.now work.old table.old states.old).report }
{
    if states.len() < STATE_BYTES {
        return Err(Refusal::ShortBuffer);
    }
    let size = planner::plan(file, work, table)?;
    put_states(file, &table[..size], &mut work[..ROWS_BYTES], states);
    bitmap::clear(work, ROWS_BYTES);
    Ok(size)
}
