// The places of a file's jobs, and the tables of places that the search reads.
//
// A job whose window is open has one of PLACES places, a bit of a byte: jobs enter by release, and each takes the lowest place that no job
// with an open window has. None left is question 12. Jobs are counted from 0; 0 stands for no job where jobs are linked, and job + 1 for a job.
//
// A deadline, `last`, is the slot right behind a window. The tables are those of crate layout.
#![tactic(auto)]

ghost use Rattle.std.specs.Prelude.{◌≡◌, ℕ, ◌+◌, ◌-◌, ◌*◌, ◌<◌, ◌≤◌, min, length, replicate, MatchOption};
ghost use mathlib.Core.List.{Memᴰ};
ghost use Rattle.rules.specs.Sizes.{max_width, max_limit, max_jobs};
ghost use Rattle.rules.specs.Basics.{at, most};
ghost use Rattle.needrows.specs.Rows.{takers_of, row_bytes};
ghost use Rattle.layout.specs.Layout.{marks_at, prev_at, table_words, place_sets, marks_room};
ghost use Rattle.places.specs.Windows.{Windows};
ghost use Rattle.seats.specs.Words.{Small, with_threes, with_place, seated};
ghost use Rattle.seats.specs.Carry.{stayed, carried};
ghost use Rattle.seats.specs.Give.{gave, give_each};
ghost use Rattle.seats.specs.Links.{LinkedAll, link_first, link_next};
ghost use Rattle.seats.specs.Due.{without_due, with_due};
ghost use Rattle.seats.specs.Enter.{Given};
ghost use Rattle.seats.specs.Filled.{Fitting, Fitted};
ghost use Rattle.seats.specs.Slots.{Enters, EntersAll, SeatedAll};

use jobset::Set;
use layout::{DUE, ENDS, HELD, MARKS, PREV, SLOTS, TABLES, THREE, WHO, set_at};
use sizes::{MAX_JOBS, MAX_SLOTS, PLACE_SETS, PLACES};

// All places of a slot.
const EVERY_PLACE: Set = Set { bits: 255 };

// The set gets one place more.
fn add_place(tables: &mut [u16; TABLES], i: usize, place: usize)
    requires { (i < table_words) × (place < max_width) × (at tables.old i < place_sets) }
    ensures { tables.new ≡ with_place tables.old i place }
{
    let before = set_at(tables, i);
    let after = before.with(place);
    tables[i] = after.bits as u16;
}

// ---- jobs by release

// The job comes before all others of its release.
fn link_job(
    slot: usize,
    limit: usize,
    job: usize,
    first: &mut [u16; MAX_SLOTS],
    next: &mut [u16; MAX_JOBS],
)
    requires { (limit ≤ max_limit) × (job < max_jobs) }
    ensures { (first.new ≡ link_first first.old slot limit job)
        × (next.new ≡ link_next first.old next.old slot limit job) }
{
    if slot < limit {
        next[job] = first[slot];
        first[slot] = (job + 1) as u16;
    }
}

// ---- a job takes a place

// One taker: it enters at its release.
fn give(givers: &mut [u8; MAX_JOBS], entry: usize, taker: usize, place: usize, last: usize)
    requires { (taker < max_jobs) × (place < max_width) }
    ensures { givers.new ≡ gave givers.old entry taker place last }
{
    if entry <= last {
        let before = Set::of_byte(givers[taker]);
        let after = before.with(place);
        givers[taker] = after.bits as u8;
    }
}

// The job enters the slot at the place, and its window ends with its deadline.
fn seat(tables: &mut [u16; TABLES], slot: usize, job: usize, place: usize, last: usize, before: u8)
    requires { (slot < max_limit) × (job < max_jobs) × (place < max_width) × (last ≤ max_limit) × ((n : ℕ) × Small n tables.old) }
    ensures { (tables.new ≡ seated tables.old slot job place last before) × (before < place_sets) }
{
    add_place(tables, HELD + slot, place);
    add_place(tables, ENDS + last, place);
    tables[PREV + PLACES * slot + place] = before as u16;
    tables[WHO + PLACES * slot + place] = job as u16;
}

// The job that a link leads to; none where it leads to no job. A link is a number, and no Option<u16>, which would take twice its memory.
fn linked(link: u16) -> Option<usize>
    ensures { MatchOption result (link ≡ 0) (λ job. link ≡ job + 1) }
{
    usize::from(link).checked_sub(1)
}

// ---- slot by slot

// The jobs stay at their places: the givers of each in the slot before are those it had, without those that ended there.
fn stay(tables: &mut [u16; TABLES], slot: usize)
    requires { (1 ≤ slot) × (slot < max_limit) × ((p : ℕ) → p < max_width → at tables.old (prev_at + max_width * (slot - 1) + p) < place_sets) }
    ensures { tables.new ≡ stayed tables.old (slot - 1) slot }
{
    let ended = set_at(tables, ENDS + (slot - 1));
    let from = PLACES * (slot - 1);
    let to = PLACES * slot;
    for p in 0..PLACES {
        let givers = set_at(tables, PREV + from + p);
        let left = givers.minus(ended);
        tables[PREV + to + p] = left.bits as u16;
    }
    // No copy_within: the archive for C may need memcpy and memset alone, and copy_within needs memmove.
    for q in 0..PLACES {
        tables[WHO + to + q] = tables[WHO + from + q];
    }
}

// The slot has what the one before it had, without what ended; and the row of marks behind its own begins where its own ends.
// A state has two parts of the places before: its number is at most twice the number of them all, and a byte has eight marks.
fn carry(tables: &mut [u16; TABLES], slot: usize)
    requires { (1 ≤ slot) × (slot < max_limit) × (at tables.old (marks_at + slot) ≤ marks_room) × ((n : ℕ) × Small n tables.old) }
    ensures { tables.new ≡ carried tables.old (slot - 1) slot }
{
    let before = set_at(tables, HELD + (slot - 1));
    let held = before.minus(set_at(tables, ENDS + slot));
    let size = usize::from(tables[THREE + before.bits as usize]) / 4 + 1;
    let mark = usize::from(tables[MARKS + slot]) + size;
    tables[HELD + slot] = held.bits as u16;
    tables[MARKS + slot + 1] = mark as u16;
    stay(tables, slot);
}

// The slots in which jobs enter: one more than the greatest release, at most the limit. No job with a window enters behind them.
fn entries(release: &[u16; MAX_JOBS], jobs: usize, limit: usize) -> usize
    requires { jobs ≤ max_jobs }
    ensures { result ≡ most (λ i. min (at release.now i + 1) limit) jobs }
{
    release[..jobs]
        .iter()
        .map(|entry| behind(*entry, limit))
        .max()
        .unwrap_or(0)
}

// One more than a release, at most the limit.
fn behind(release: u16, limit: usize) -> usize
    ensures { result ≡ min (release + 1) limit }
{
    (usize::from(release) + 1).min(limit)
}

// The table of base-three numbers, once for all states: a constant array is laid down anew wherever it is read.
fn put_threes(tables: &mut [u16; TABLES])
    ensures { tables.new ≡ with_threes tables.old }
{
    // No copy_from_slice: it would be a call of memcpy, and the archive for C needs memset alone.
    let entries = threes::THREES;
    for byte in 0..PLACE_SETS {
        tables[THREE + byte] = entries[byte];
    }
}

// The jobs that take places: the rows of their needs, how many they are, their releases and tails, and the limit of the slots.
#[derive(Clone, Copy)]
struct Jobs<'a> {
    pub rows: &'a [u8],
    pub count: usize,
    pub release: &'a [u16; MAX_JOBS],
    pub tail: &'a [u16; MAX_JOBS],
    pub limit: usize,
}

impl Jobs<'_> {
    // The deadline of a job; 0 where no slot is left.
    fn deadline(self, job: usize) -> usize
        requires { job < max_jobs }
        ensures { result ≡ self.entry.limit - at self.entry.tail.now job }
    {
        self.limit.saturating_sub(usize::from(self.tail[job]))
    }

    // The jobs of each release below the limit, linked in rising number: `first` has the first of each release, `next` the one behind each job.
    fn link(self, first: &mut [u16; MAX_SLOTS], next: &mut [u16; MAX_JOBS])
        requires { (self.count ≤ max_jobs) × (self.limit ≤ max_limit) × (first.old ≡ replicate max_limit 0) × (length next.old ≡ max_jobs) }
        ensures { LinkedAll self.entry.release.now self.entry.limit first.new next.new self.entry.count 0 }
    {
        for job in (0..self.count).rev() {
            link_job(usize::from(self.release[job]), self.limit, job, first, next);
        }
    }

    // The place goes to all takers of a giver with this deadline that enter while its window or the slot behind it is open.
    fn give_row(self, giver: usize, givers: &mut [u8; MAX_JOBS], place: usize, last: usize)
        requires { (self.count ≤ max_jobs) × (giver < self.count) × (row_bytes * self.count ≤ length self.rows.now)
            × ((k : ℕ) → Memᴰ k (takers_of self.rows.now self.count giver) → k < self.count) × (place < max_width) }
        ensures { givers.new ≡ give_each self.entry.release.now place last
            (takers_of self.entry.rows.now self.entry.count giver) givers.old }
    {
        for taker in needrows::takers(self.rows, self.count, giver) {
            give(givers, usize::from(self.release[taker]), taker, place, last);
        }
    }

    // The jobs that enter a slot take their places, from the first of them on; none where the places run out.
    fn enter(
        self,
        next: &[u16; MAX_JOBS],
        first: u16,
        slot: usize,
        places: &mut [u8; MAX_JOBS],
        givers: &mut [u8; MAX_JOBS],
        tables: &mut [u16; TABLES],
    ) -> Option<()>
        requires { (W : Windows) × Enters W self.rows.now self.release.now self.tail.now next.now self.count self.limit first slot
            tables.old places.old givers.old }
        ensures { (W : Windows)
            → Enters W self.entry.rows.now self.entry.release.now self.entry.tail.now next.now self.entry.count self.entry.limit first slot
            tables.old places.old givers.old
            → EntersAll W slot result tables.new places.new givers.new }
    {
        let mut link = first;
        // No `for`: each job's link says which comes next.
        while let Some(job) = linked(link) {
            link = next[job];
            let last = self.deadline(job);
            if slot < last {
                let free = EVERY_PLACE.minus(set_at(tables, HELD + slot));
                let (place, _) = free.split_first()?;
                places[job] = place as u8;
                seat(tables, slot, job, place, last, givers[job]);
                self.give_row(job, givers, place, last);
            }
        }
        Some(())
    }
}

// Every job whose window holds a slot takes its place: gives the slots that the tables then have, those in which jobs enter; none
// where places run out (question 12). The tables and the places are zeros before.
pub fn seat_all(
    rows: &[u8],
    jobs: usize,
    release: &[u16; MAX_JOBS],
    tail: &[u16; MAX_JOBS],
    limit: usize,
    places: &mut [u8; MAX_JOBS],
    tables: &mut [u16; TABLES],
) -> Option<usize>
    requires { (1 ≤ jobs) × (1 ≤ limit) × (places.old ≡ replicate max_jobs 0) × (tables.old ≡ replicate table_words 0)
        × ((W : Windows) × Given W rows.now release.now tail.now jobs limit) }
    ensures { (W : Windows) → Given W rows.now release.now tail.now jobs limit
        → SeatedAll W limit result tables.new places.new }
{
    let mut first = [0; MAX_SLOTS];
    let mut next = [0; MAX_JOBS];
    let slots = entries(release, jobs, limit);
    let jobs = Jobs {
        rows,
        count: jobs,
        release,
        tail,
        limit,
    };
    jobs.link(&mut first, &mut next);
    let mut givers = [0; MAX_JOBS];
    tables[MARKS + 1] = 1;
    put_threes(tables);
    for slot in 0..slots {
        jobs.enter(&next, first[slot], slot, places, &mut givers, tables)?;
        if slot + 1 < slots {
            carry(tables, slot + 1);
        }
    }
    Some(slots)
}

// ---- one length

// No job is due yet.
fn clear_due(tables: &mut [u16; TABLES], slots: usize)
    requires { slots ≤ max_limit }
    ensures { tables.new ≡ without_due tables.old (slots + 1) }
{
    tables[DUE..DUE + slots + 1].fill(0);
}

// Each job is due when the slots of its tail are left.
fn set_due(
    tables: &mut [u16; TABLES],
    slots: usize,
    jobs: usize,
    places: &[u8; MAX_JOBS],
    tail: &[u16; MAX_JOBS],
)
    requires { (slots ≤ max_limit) × (jobs ≤ max_jobs) × ((i : ℕ) → i < jobs → (at places.now i < max_width) × (at tail.now i ≤ slots))
        × ((n : ℕ) × Small n tables.old) }
    ensures { tables.new ≡ with_due slots places.now tail.now jobs tables.old }
{
    for (place, behind) in places[..jobs].iter().zip(tail) {
        add_place(
            tables,
            DUE + (slots - usize::from(*behind)),
            usize::from(*place),
        );
    }
}

// The tables of a plan of so many slots, where they have `filled` before: the slots that are missing, and when each job is due.
pub fn fit(
    tables: &mut [u16; TABLES],
    filled: usize,
    slots: usize,
    jobs: usize,
    places: &[u8; MAX_JOBS],
    tail: &[u16; MAX_JOBS],
)
    requires { (W : Windows) × Fitting W filled slots jobs tables.old places.now tail.now }
    ensures { (W : Windows) → Fitting W filled slots jobs tables.old places.now tail.now
        → Fitted W slots tables.old tables.new }
{
    for slot in filled..slots {
        carry(tables, slot);
    }
    clear_due(tables, slots);
    set_due(tables, slots, jobs, places, tail);
    tables[SLOTS] = slots as u16;
}
