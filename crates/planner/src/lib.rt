// The planner: questions 1 to 13 and 21 of documents 01 and 02, and the table.
//
// Jobs are counted from 0 here. The working buffer holds the needs (crate needrows) until the tables of places are made, and then the bitmap of
// the search.
#![tactic(auto)]

ghost use Rattle.std.specs.Prelude.{◌≡◌, ◌≤◌, ◌<◌, length, Ok};
ghost use Rattle.rules.specs.Sizes.{max_jobs, work_size, table_size};
ghost use Rattle.rules.specs.Answers.{plan};
ghost use Rattle.planner.specs.Planner.{outcome_of, Answers, first_length, WindowsRead, PlanRead};

use layout::{CAP, TABLES};
use refusals::Refusal;
use sizes::{MAX_JOBS, MAX_SLOTS, TABLE_BYTES, WORK_BYTES};

// The table of the plan that was found: starts, boards, and both written. Gives the table's size.
fn write_plan(
    file: &[u8],
    offsets: &[u16; MAX_JOBS],
    tables: &[u16; TABLES],
    path: &[u8; MAX_SLOTS],
    jobs: usize,
    slots: usize,
    table: &mut [u8],
) -> usize
    requires { (table_size ≤ length table.old) × PlanRead file.now jobs offsets.now tables.now path.now slots }
    ensures { Answers file.now (Ok result) table.old table.new }
{
    let mut starts = [0; MAX_JOBS];
    lengths::starts_of(tables, path, slots, &mut starts);
    let mut boards = [0; MAX_JOBS];
    let count = slotboards::place(tables, path, jobs, slots, &mut boards);
    // No `try_from`: at most 64 slots and 8 boards (the plan), so its error could not come.
    writer::write_table(
        file,
        offsets,
        &starts,
        &boards,
        jobs,
        slots as u8,
        count as u8,
        table,
    )
}

// The first length that the search tries: what releases and tails leave, or as many slots as so many jobs take at `cap` a slot.
fn first_length(least: usize, jobs: usize, cap: u8) -> usize
    requires { (0 < cap) × (jobs ≤ max_jobs) }
    ensures { result ≡ first_length least jobs cap }
{
    least.max(jobs.div_ceil(usize::from(cap)))
}

// Questions 12 and 13; then the table. No slot gets more jobs than there are boards.
fn plan_windows(
    file: &[u8],
    offsets: &[u16; MAX_JOBS],
    release: &[u16; MAX_JOBS],
    tail: &[u16; MAX_JOBS],
    jobs: usize,
    limit: usize,
    boards: u8,
    work: &mut [u8],
    table: &mut [u8],
) -> Result<usize, Refusal>
    requires { (work_size ≤ length work.old) × (table_size ≤ length table.old)
        × WindowsRead file.now jobs limit boards offsets.now work.old release.now tail.now }
    ensures { Answers file.now result table.old table.new }
{
    let mut places = [0; MAX_JOBS];
    let mut tables = [0; TABLES];
    let seated = seats::seat_all(work, jobs, release, tail, limit, &mut places, &mut tables);
    let filled = seated.ok_or(Refusal::TooWide)?;
    tables[CAP] = u16::from(boards);
    let least = first_length(releases::least(release, tail, jobs), jobs, boards);
    let mut path = [0; MAX_SLOTS];
    let slots = lengths::search(
        &mut tables,
        filled,
        least,
        limit,
        jobs,
        &places,
        tail,
        work,
        &mut path,
    )
    .ok_or(Refusal::NoPlan)?;
    Ok(write_plan(file, offsets, &tables, &path, jobs, slots, table))
}

// Questions 2 to 11 and 21, with full buffers; then the rest.
fn plan_file(file: &[u8], work: &mut [u8], table: &mut [u8]) -> Result<usize, Refusal>
    requires { (work_size ≤ length work.old) × (table_size ≤ length table.old) }
    ensures { Answers file.now result table.old table.new }
{
    let mut offsets = [0; MAX_JOBS];
    let f = jobfile::read_file(file, &mut offsets, work)?;
    let mut order = [0; MAX_JOBS];
    let mut release = [0; MAX_JOBS];
    if !releases::peel(work, f.jobs, &mut order, &mut release) {
        return Err(Refusal::Circle);
    }
    let mut tail = [0; MAX_JOBS];
    releases::tails(work, f.jobs, &order, &mut tail);
    plan_windows(
        file,
        &offsets,
        &release,
        &tail,
        f.jobs,
        f.limit,
        jobfile::most_boards(f.sockets),
        work,
        table,
    )
}

// The planner. After every answer but refusal 1 the first 65,536 bytes of the working buffer are zero; the table buffer is changed only
// by a table, and only where the table stands.
pub fn plan(file: &[u8], work: &mut [u8], table: &mut [u8]) -> Result<usize, Refusal>
    ensures { outcome_of result work.new table.new ≡ plan file.now work.old table.old }
{
    if work.len() < WORK_BYTES {
        return Err(Refusal::ShortBuffer);
    }
    if table.len() < TABLE_BYTES {
        return Err(Refusal::ShortBuffer);
    }
    let answer = plan_file(file, &mut work[..WORK_BYTES], table);
    bitmap::clear(work, WORK_BYTES);
    answer
}
