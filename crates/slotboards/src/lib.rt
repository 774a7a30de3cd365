// The boards of a plan, slot by slot: document 01, "Preference and boards".
//
// The jobs of a slot are a set of its places (crate layout), and the jobs of all slots are the path. Jobs are counted from 0, boards from 1; in a
// set of boards, board c is the member c.
#![tactic(auto)]

ghost use Rattle.std.specs.Prelude.{◌≡◌, ℕ, ◌<◌, ◌≤◌, replicate};
ghost use Rattle.rules.specs.Sizes.{max_limit, max_width, max_jobs};
ghost use Rattle.rules.specs.Basics.{at, most};
ghost use Rattle.layout.specs.Layout.{tables_in};
ghost use Rattle.places.specs.Slot.{near_at};
ghost use Rattle.jobset.specs.Sets.{set_at};
ghost use Rattle.placesets.specs.Listing.{row_from, Listable};
ghost use Rattle.slotboards.specs.Placing.{filling, inherit, leave, inherited, others_of, take_row, others_row, place_others, place_slots, blank};
ghost use Rattle.slotboards.specs.Placing.{Below64, HereIn, LastIn, Fits, Plan, Boarded};
ghost use Rattle.slotboards.specs.Rows.{PathIn, path_of, blank_columns, with_start, record_of, RowsSeated, RowsBoarded};

use jobset::Set;
use layout::{TABLES, job_at};
use placesets::{by_number, givers_at};
use sizes::{MAX_JOBS, MAX_SLOTS, PLACES};

// The boards 1 to 63.
const ALL_BOARDS: Set = Set {
    bits: 18446744073709551614,
};

// Within a slot: the boards left, and the places of the jobs that take no giver's board.
#[derive(Clone, Copy)]
struct Inherited {
    pub free: Set,
    pub others: Set,
}

// A job in a lent row: the slot it starts in and its board.
#[derive(Clone, Copy)]
pub struct JobRecord {
    pub start: u8,
    pub board: u8,
}

// A row of job records in arrays by job, and the number of boards.
#[derive(Clone, Copy)]
struct Columns {
    pub count: usize,
    pub starts: [u8; MAX_JOBS],
    pub boards: [u8; MAX_JOBS],
}

// The givers of the job at place p in the slot before, whose jobs are `last`.
fn near_at(tables: &[u16; TABLES], slot: usize, last: Set, p: usize) -> Set
    requires { (slot < max_limit) × (p < max_width) }
    ensures { result ≡ near_at (tables_in tables.now) slot last p }
{
    let givers = givers_at(tables, slot, p);
    givers.intersection(last)
}

// The job at place p takes the board of its giver in the slot before, whose jobs are `last`; without one it is left to the others.
fn inherit(
    z: Inherited,
    tables: &[u16; TABLES],
    slot: usize,
    last: Set,
    p: usize,
    boards: &mut [u8; MAX_JOBS],
) -> Inherited
    requires { (slot < max_limit) × (p < max_width) × ((tables_in tables.now).who slot p < max_jobs) × LastIn tables.now slot last × Below64 boards.old }
    ensures { (filling result.free boards.new ≡ inherit (tables_in tables.now) slot last p (filling z.free boards.old))
        × (result.others ≡ leave (tables_in tables.now) slot last p z.others) }
{
    let near = near_at(tables, slot, last, p);
    let Some((giver, _)) = near.split_first() else {
        return Inherited {
            others: z.others.with(p),
            ..z
        };
    };
    let board = boards[job_at(tables, slot - 1, giver)];
    boards[job_at(tables, slot, p)] = board;
    Inherited {
        free: z.free.without(usize::from(board)),
        ..z
    }
}

// The jobs of a slot that have a giver in the slot before take its board.
fn inherit_all(
    tables: &[u16; TABLES],
    slot: usize,
    last: Set,
    jobs: Set,
    boards: &mut [u8; MAX_JOBS],
) -> Inherited
    requires { (slot < max_limit) × HereIn tables.now slot jobs × LastIn tables.now slot last × Below64 boards.old }
    ensures { (filling result.free boards.new ≡ inherited (tables_in tables.now) slot last jobs boards.old)
        × (result.others ≡ others_of (tables_in tables.now) slot last jobs) }
{
    let mut z = Inherited {
        free: ALL_BOARDS,
        others: Set::EMPTY,
    };
    for p in jobs {
        z = inherit(z, tables, slot, last, p, boards);
    }
    z
}

// The jobs at the places of a row, from its end, take the lowest boards left.
fn take_row(
    first: Set,
    tables: &[u16; TABLES],
    slot: usize,
    row: &[u8; PLACES],
    count: usize,
    boards: &mut [u8; MAX_JOBS],
)
    requires { (slot < max_limit) × (count ≤ max_width) × Fits tables.now slot (row_from row.now count) (filling first boards.old) }
    ensures { boards.new
        ≡ take_row (tables_in tables.now) slot (row_from row.now count) (filling first boards.old) }
{
    for (place, board) in row[..count].iter().rev().zip(first.into_iter()) {
        boards[job_at(tables, slot, usize::from(*place))] = board as u8;
    }
}

// The others, in rising number, take the lowest boards left.
fn take_lowest(z: Inherited, tables: &[u16; TABLES], slot: usize, boards: &mut [u8; MAX_JOBS])
    requires { (slot < max_limit) × Listable ((tables_in tables.now).who slot) z.others
        × Fits tables.now slot (others_row (tables_in tables.now) slot z.others) (filling z.free boards.old) }
    ensures { boards.new ≡ place_others (tables_in tables.now) slot z.others (filling z.free boards.old) }
{
    let mut row = [0; PLACES];
    let count = by_number(tables, slot, z.others, &mut row);
    take_row(z.free, tables, slot, &row, count, boards);
}

// The places of the jobs of a slot.
fn jobs_of(path: &[u8; MAX_SLOTS], slot: usize) -> Set
    requires { slot < max_limit }
    ensures { result ≡ set_at path.now slot }
{
    Set::of_byte(path[slot])
}

// All slots, one after the other.
fn place_slots(
    tables: &[u16; TABLES],
    path: &[u8; MAX_SLOTS],
    slots: usize,
    boards: &mut [u8; MAX_JOBS],
)
    requires { ((n : ℕ) × Plan n tables.now path.now slots) × (boards.old ≡ blank) }
    ensures { boards.new ≡ place_slots (tables_in tables.now) path.now slots blank }
{
    let mut last = Set::EMPTY;
    for slot in 0..slots {
        let jobs = jobs_of(path, slot);
        let z = inherit_all(tables, slot, last, jobs, boards);
        take_lowest(z, tables, slot, boards);
        last = jobs;
    }
}

// The largest board.
fn largest(boards: &[u8; MAX_JOBS], jobs: usize) -> usize
    requires { jobs ≤ max_jobs }
    ensures { result ≡ most (at boards.now) jobs }
{
    usize::from(boards[..jobs].iter().copied().max().unwrap_or(0))
}

// The boards of so many jobs that run as the path says; gives the number of boards. The boards are zeros before.
pub fn place(
    tables: &[u16; TABLES],
    path: &[u8; MAX_SLOTS],
    jobs: usize,
    slots: usize,
    boards: &mut [u8; MAX_JOBS],
) -> usize
    requires { Plan jobs tables.now path.now slots × (boards.old ≡ blank) }
    ensures { Boarded jobs tables.now path.now slots result boards.new }
{
    place_slots(tables, path, slots, boards);
    largest(boards, jobs)
}

// ---- a lent row of job records

// No record is copied yet.
fn blank_columns() -> Columns
    ensures { result ≡ blank_columns }
{
    Columns {
        count: 0,
        starts: [0; MAX_JOBS],
        boards: [0; MAX_JOBS],
    }
}

// The start of record i is copied out.
fn with_start(mut c: Columns, i: usize, r: JobRecord) -> Columns
    requires { i < max_jobs }
    ensures { result ≡ with_start c i r }
{
    c.starts[i] = r.start;
    c
}

// The set of the places of the jobs of each slot; the path is zeros before.
fn path_of(
    starts: &[u8; MAX_JOBS],
    places: &[u8; MAX_JOBS],
    jobs: usize,
    path: &mut [u8; MAX_SLOTS],
)
    requires { (jobs ≤ max_jobs) × PathIn starts.now places.now jobs × (path.old ≡ replicate max_limit 0) }
    ensures { path.new ≡ path_of starts.now places.now jobs }
{
    for (start, place) in starts[..jobs].iter().zip(places) {
        let slot = usize::from(*start);
        let before = jobs_of(path, slot);
        let after = before.with(usize::from(*place));
        path[slot] = after.bits as u8;
    }
}

// The placing over arrays, for jobs at these places.
fn place_columns(
    c: Columns,
    tables: &[u16; TABLES],
    places: &[u8; MAX_JOBS],
    jobs: usize,
    slots: usize,
) -> Columns
    requires { PathIn c.starts places.now jobs × Plan jobs tables.now (path_of c.starts places.now jobs) slots }
    ensures { (result.starts ≡ c.starts)
        × Boarded jobs tables.now (path_of c.starts places.now jobs) slots result.count result.boards }
{
    let mut path = [0; MAX_SLOTS];
    path_of(&c.starts, places, jobs, &mut path);
    let mut boards = [0; MAX_JOBS];
    let count = place(tables, &path, jobs, slots, &mut boards);
    Columns { count, boards, ..c }
}

// The record of job i.
fn record_of(c: Columns, i: usize) -> JobRecord
    requires { i < max_jobs }
    ensures { result ≡ record_of c i }
{
    JobRecord {
        start: c.starts[i],
        board: c.boards[i],
    }
}

// The boards of a lent row of job records: copied out, placed over arrays, written back. Gives the number of boards.
pub fn place_rows(
    rows: &mut [JobRecord],
    tables: &[u16; TABLES],
    places: &[u8; MAX_JOBS],
    slots: usize,
) -> usize
    requires { RowsSeated rows.old tables.now places.now slots }
    ensures { RowsBoarded rows.old tables.now places.now slots (record { count = result; rows = rows.new }) }
{
    let mut c = blank_columns();
    for (i, record) in rows.iter().enumerate() {
        c = with_start(c, i, *record);
    }
    c = place_columns(c, tables, places, rows.len(), slots);
    for (i, record) in rows.iter_mut().enumerate() {
        *record = record_of(c, i);
    }
    c.count
}
