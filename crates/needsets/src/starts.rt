// The fewest slots of a set of needs, by trying every start list with starts below the number of jobs.
//
// A list has an index: its starts are the digits in base `jobs`, the first job's the lowest; the entries behind the last job are 0.
ghost use Rattle.std.specs.Prelude.{◌≡◌, ◌+◌, ◌*◌, ◌^◌, ◌≤◌, ◌<◌, max, length, eqb};
ghost use Rattle.rules.specs.Program.{slots};
ghost use Rattle.rules.specs.SmallGates.{needs_of, fewest};
ghost use Rattle.needsets.specs.Starts.{digits, conflicts, conflict_free, keeps, keeping, as_option, least_with};

use crate::numbers::is_set;

// The starts of the list with this index.
fn put_starts(jobs: usize, index: usize, starts: &mut [u8; 4])
    requires { (1 ≤ jobs) × (jobs ≤ 4) × (length starts.old ≡ 4) }
    ensures { starts.new ≡ digits jobs 4 index }
{
    let mut rest = index;
    for start in starts.iter_mut() {
        *start = (rest % jobs) as u8;
        rest /= jobs;
    }
}

// Is the taker's start the slot right after the giver's?
fn is_next(giver: u8, taker: u8) -> bool
    ensures { result ≡ eqb (giver + 1) taker }
{
    usize::from(giver) + 1 == usize::from(taker)
}

// Is there a conflict with the other place: another need, of the same giver or the same taker, whose taker starts right after its giver too?
fn is_conflict(jobs: usize, number: usize, starts: &[u8; 4], place: usize, other: usize) -> bool
    requires { (1 ≤ jobs) × (jobs ≤ 4) × (place < jobs * jobs) × (other < jobs * jobs) }
    ensures { result ≡ conflicts jobs number starts.now place other }
{
    if other == place {
        return false;
    }
    if !is_set(number, other) {
        return false;
    }
    let giver = other / jobs;
    let taker = other % jobs;
    if !is_next(starts[giver], starts[taker]) {
        return false;
    }
    if giver == place / jobs {
        return true;
    }
    taker == place % jobs
}

// Is there a conflict with no other place?
fn is_conflict_free(jobs: usize, number: usize, starts: &[u8; 4], place: usize) -> bool
    requires { (1 ≤ jobs) × (jobs ≤ 4) × (place < jobs * jobs) }
    ensures { result ≡ conflict_free jobs number starts.now place }
{
    (0..jobs * jobs).all(|other| !is_conflict(jobs, number, starts, place, other))
}

// If there is a need at this place: does its taker start later than its giver, and where it starts right after it, is there no conflict?
fn is_kept(jobs: usize, number: usize, starts: &[u8; 4], place: usize) -> bool
    requires { (1 ≤ jobs) × (jobs ≤ 4) × (place < jobs * jobs) }
    ensures { result ≡ keeps jobs number starts.now place }
{
    if !is_set(number, place) {
        return true;
    }
    let giver = starts[place / jobs];
    let taker = starts[place % jobs];
    if taker <= giver {
        return false;
    }
    if !is_next(giver, taker) {
        return true;
    }
    is_conflict_free(jobs, number, starts, place)
}

// Are all needs kept?
fn are_kept(jobs: usize, number: usize, starts: &[u8; 4]) -> bool
    requires { (1 ≤ jobs) × (jobs ≤ 4) }
    ensures { result ≡ keeping jobs number starts.now }
{
    // A `for`, and no `all`, which took a third more time in all of `small_gates`, here and in `numbers::is_ready`.
    for place in 0..jobs * jobs {
        if !is_kept(jobs, number, starts, place) {
            return false;
        }
    }
    true
}

// The largest start plus one.
fn slots(starts: &[u8; 4]) -> usize
    requires { length starts.now ≡ 4 }
    ensures { result ≡ slots starts.now }
{
    let last = starts[0].max(starts[1].max(starts[2].max(starts[3])));
    usize::from(last) + 1
}

// The fewest slots: the smaller of those so far and those of this list, if it keeps the needs; else those so far.
fn least_with(jobs: usize, number: usize, starts: &[u8; 4], least: Option<usize>) -> Option<usize>
    requires { (1 ≤ jobs) × (jobs ≤ 4) × (length starts.now ≡ 4) }
    ensures { result ≡ least_with jobs number starts.now least }
{
    if !are_kept(jobs, number, starts) {
        return least;
    }
    let size = slots(starts);
    match least {
        Some(fewest) => Some(size.min(fewest)),
        None => Some(size),
    }
}

// How many start lists so many jobs have.
fn list_count(jobs: usize) -> usize
    requires { (1 ≤ jobs) × (jobs ≤ 4) }
    ensures { result ≡ jobs ^ jobs }
{
    jobs.pow(jobs as u32)
}

// The fewest slots; None where no list keeps the needs.
pub fn fewest(jobs: usize, number: usize) -> Option<usize>
    requires { (1 ≤ jobs) × (jobs ≤ 4) }
    ensures { result ≡ as_option (fewest jobs (needs_of jobs number)) }
{
    let many = list_count(jobs);
    let mut starts = [0; 4];
    let mut least = None;
    for index in 0..many {
        put_starts(jobs, index, &mut starts);
        least = least_with(jobs, number, &starts, least);
    }
    least
}
