// Needs that follow from others: document 02, request 5.
//
// Jobs are counted from 0 here. The takers of each job, and the jobs beyond them, are rows of bits (crate needrows): beyond a job stand
// the jobs that a chain of two needs or more leads to. So a need follows from others where its taker stands beyond its giver.
#![tactic(auto)]

ghost use Rattle.std.specs.Prelude.{◌≡◌, [], ◌∷◌, ℕ, ◌+◌, ◌*◌, ◌≤◌, ◌<◌, length};
ghost use Rattle.rules.specs.Sizes.{max_jobs};
ghost use Rattle.rules.specs.Basics.{at};
ghost use Rattle.rules.specs.Implied.{pair_numbers, list_implied};
ghost use Rattle.laws.specs.Writing.{put};
ghost use Rattle.needrows.specs.Rows.{row_bytes, takers_of};
ghost use Rattle.releases.specs.Ordered.{OrderOf};
ghost use Rattle.implied.specs.Beyond.{Others, RowsThere, Joined, BeyondAre};
ghost use Rattle.implied.specs.Listing.{row_from, rows_from, listing_of};

use needrows::{ROW_BYTES, ROWS_BYTES};
use refusals::Refusal;
use sizes::{MAX_JOBS, PAIR_ENTRIES};

// The marks of a row.
const ROW_BITS: usize = 8 * ROW_BYTES;

// ---- what stands beyond each job

// Beyond the giver comes what the taker leads to: its takers, and what stands beyond it. (Both rows of `beyond` are in one slice: so by index.)
fn add_taker(takers: &[u8], jobs: usize, giver: usize, taker: usize, beyond: &mut [u8])
    requires { RowsThere takers.now jobs beyond.old × (giver < jobs) × (taker < jobs) × (taker ≡ giver → ⊥) }
    ensures { Joined takers.now jobs giver (taker ∷ []) beyond.old beyond.new }
{
    let to = ROW_BYTES * giver;
    let from = ROW_BYTES * taker;
    for i in 0..jobs.div_ceil(8) {
        beyond[to + i] = beyond[to + i] | takers[from + i] | beyond[from + i];
    }
}

// The same of all takers of the giver.
fn add_takers(takers: &[u8], jobs: usize, giver: usize, beyond: &mut [u8])
    requires { RowsThere takers.now jobs beyond.old × (giver < jobs) × Others jobs giver (takers_of takers.now jobs giver) }
    ensures { Joined takers.now jobs giver (takers_of takers.now jobs giver) beyond.old beyond.new }
{
    for taker in needrows::takers(takers, jobs, giver) {
        add_taker(takers, jobs, giver, taker, beyond);
    }
}

// The same of all jobs, from the last of the order to the first: so each taker comes before its givers.
fn add_rows(takers: &[u8], jobs: usize, order: &[u16; MAX_JOBS], beyond: &mut [u8])
    requires { OrderOf takers.now jobs order.now × (row_bytes * jobs ≤ length beyond.old) × ((i : ℕ) → at beyond.old i ≡ 0) }
    ensures { BeyondAre takers.now jobs beyond.new × (length beyond.new ≡ length beyond.old) }
{
    for next in (0..jobs).rev() {
        let giver = usize::from(order[next]);
        add_takers(takers, jobs, giver, beyond);
    }
}

// ---- the list

// A pair, as the file numbers its jobs, at entry `at` of the list.
fn put_pair(giver: usize, taker: usize, list: &mut [u16], at: usize)
    requires { (giver < max_jobs) × (taker < max_jobs) × (at + 2 ≤ length list.old) }
    ensures { list.new ≡ put at (pair_numbers ((giver, taker) ∷ [])) list.old }
{
    list[at] = (giver + 1) as u16;
    list[at + 1] = (taker + 1) as u16;
}

// The pairs of a giver with its takers that stand beyond it too, in rising order, from entry `at` of the list on; gives the entry behind them.
fn put_row(
    takers: &[u8],
    beyond: &[u8],
    jobs: usize,
    giver: usize,
    list: &mut [u16],
    at: usize,
) -> usize
    requires { RowsThere takers.now jobs beyond.now × (giver < jobs)
        × (at + length (row_from takers.now beyond.now jobs giver 0) ≤ length list.old) }
    ensures size { result ≡ at + length (row_from takers.now beyond.now jobs giver 0) }
    ensures entries { list.new ≡ put at (row_from takers.now beyond.now jobs giver 0) list.old }
{
    let mut next = at;
    for taker in needrows::takers(takers, jobs, giver) {
        if bitmap::marked(beyond, ROW_BITS * giver + taker) {
            put_pair(giver, taker, list, next);
            next += 2;
        }
    }
    next
}

// The pairs of all givers, in rising order; gives the entry behind them.
fn put_rows(takers: &[u8], beyond: &[u8], jobs: usize, list: &mut [u16]) -> usize
    requires { RowsThere takers.now jobs beyond.now × (length (rows_from takers.now beyond.now jobs 0) ≤ length list.old) }
    ensures size { result ≡ length (rows_from takers.now beyond.now jobs 0) }
    ensures entries { list.new ≡ put 0 (rows_from takers.now beyond.now jobs 0) list.old }
{
    let mut next = 0;
    for giver in 0..jobs {
        next = put_row(takers, beyond, jobs, giver, list, next);
    }
    next
}

// The needs of a job file that follow from others: giver and taker of each, as the file numbers them, one pair behind the other from the
// front of the list; gives how many pairs they are. A refusal leaves the list as it was.
pub fn implied_needs(file: &[u8], list: &mut [u16]) -> Result<usize, Refusal>
    ensures { listing_of result list.new ≡ list_implied file.now list.old }
{
    if list.len() < PAIR_ENTRIES {
        return Err(Refusal::ShortBuffer);
    }
    let mut offsets = [0; MAX_JOBS];
    let mut takers = [0; ROWS_BYTES];
    let counts = jobfile::read_file(file, &mut offsets, &mut takers)?;
    let jobs = counts.jobs;
    let mut order = [0; MAX_JOBS];
    let mut release = [0; MAX_JOBS];
    if !releases::peel(&takers, jobs, &mut order, &mut release) {
        return Err(Refusal::Circle);
    }
    let mut beyond = [0; ROWS_BYTES];
    add_rows(&takers, jobs, &order, &mut beyond);
    let entries = put_rows(&takers, &beyond, jobs, list);
    Ok(entries / 2)
}
