// Question 11 (circles), and the release and the tail of each job: formula (1) of document 000, section 3.2, along the needs and against them.
//
// Jobs are peeled (a topological sort): a job whose givers are all peeled enters the order, and its release is raised by each giver's as that one is peeled.
// Where jobs are left over there is a circle. Tails come in the reverse order, each by one pass over the job's takers.
// Jobs are counted from 0. The needs are rows of takers (crate needrows).
//
// A slot is gathered as a code: twice the latest that was met, and one more where it was met twice.
#![tactic(auto)]

ghost use Rattle.std.specs.Prelude.{◌≡◌, ℕ, ◌+◌, ◌≤◌, ◌<◌, length, replicate};
ghost use mathlib.Core.List.{List, Memᴰ};
ghost use Rattle.rules.specs.Sizes.{max_jobs};
ghost use Rattle.rules.specs.Basics.{at};
ghost use Rattle.rules.specs.Needs.{Need, NeedsIn};
ghost use Rattle.rules.specs.Windows.{tail as tail_of};
ghost use Rattle.needrows.specs.Rows.{takers_of, RowsAre};
ghost use Rattle.releases.specs.Codes.{slot_bound, raised, behind};
ghost use Rattle.releases.specs.Peels.{each, peel_of, peel_need, peel_all, released, peel_job};
ghost use Rattle.releases.specs.Ready.{Ready};
ghost use Rattle.releases.specs.Ordered.{OfNeeds, OrderOf, RowsOf, Peeled};
ghost use Rattle.releases.specs.Ends.{Waits, First};
ghost use Rattle.releases.specs.Counted.{Countable};
ghost use Rattle.releases.specs.Tails.{tail_over};
ghost use Rattle.releases.specs.Least.{least_of};

use sizes::MAX_JOBS;

// The code after one slot more.
fn raised(code: u16, slot: u16) -> u16
    requires { slot < slot_bound }
    ensures { result ≡ raised code slot }
{
    let once = 2 * slot;
    if code < once {
        return once;
    }
    if code == once {
        return once + 1;
    }
    code
}

// The slot behind those that a code has met: the latest, and one more where it was met twice.
#[tactic(auto, unfolding(crate::specs::Codes::behind))]
fn behind(code: u16) -> u16
    ensures { result ≡ behind code }
{
    code / 2 + code % 2
}

// ---- the order and the releases

// The takers of a giver have one giver more.
fn count_takers(waits: &mut [u16; MAX_JOBS], rows: &[u8], jobs: usize, giver: usize)
    requires { RowsOf rows.now jobs × (giver < jobs) × Countable (takers_of rows.now jobs giver) waits.old }
    ensures { waits.new ≡ each (◌+ 1) (takers_of rows.now jobs giver) waits.old }
{
    for taker in needrows::takers(rows, jobs, giver) {
        waits[taker] += 1;
    }
}

// Of each job how many givers it has.
fn count_givers(waits: &mut [u16; MAX_JOBS], rows: &[u8], jobs: usize)
    requires { RowsOf rows.now jobs × (waits.old ≡ replicate max_jobs 0) }
    ensures { Waits rows.now jobs waits.new }
{
    for giver in 0..jobs {
        count_takers(waits, rows, jobs, giver);
    }
}

// The jobs without a giver are the first of the order; gives how many they are.
fn first_jobs(waits: &[u16; MAX_JOBS], jobs: usize, order: &mut [u16; MAX_JOBS]) -> usize
    requires { (jobs ≤ max_jobs) × (length order.old ≡ max_jobs) }
    ensures { First waits.now jobs result order.new }
{
    let mut count = 0;
    for job in 0..jobs {
        if waits[job] == 0 {
            order[count] = job as u16;
            count += 1;
        }
    }
    count
}

// A giver of the taker is peeled: its slot raises the taker's code, and where it was the last one the taker enters the order, which has
// `count` jobs before and as many as this gives after.
#[tactic(auto, unfolding(crate::specs::Peels::peel_need, rules::specs::Basics::choose))]
fn peel_need(
    release: &mut [u16; MAX_JOBS],
    waits: &mut [u16; MAX_JOBS],
    order: &mut [u16; MAX_JOBS],
    count: usize,
    taker: usize,
    slot: u16,
) -> usize
    requires { (taker < max_jobs) × (count < max_jobs) × (0 < at waits.old taker) × (slot < slot_bound) }
    ensures { peel_of release.new waits.new order.new result
        ≡ peel_need slot taker (peel_of release.old waits.old order.old count) }
{
    release[taker] = raised(release[taker], slot);
    let left = waits[taker] - 1;
    waits[taker] = left;
    if left == 0 {
        order[count] = taker as u16;
        return count + 1;
    }
    count
}

// The same of all takers of a job.
fn peel_takers(
    rows: &[u8],
    jobs: usize,
    release: &mut [u16; MAX_JOBS],
    waits: &mut [u16; MAX_JOBS],
    order: &mut [u16; MAX_JOBS],
    count: usize,
    job: usize,
    slot: u16,
) -> usize
    requires { RowsOf rows.now jobs × (job < jobs) × (slot < slot_bound)
        × Ready jobs (takers_of rows.now jobs job) (peel_of release.old waits.old order.old count) }
    ensures { peel_of release.new waits.new order.new result
        ≡ peel_all slot (takers_of rows.now jobs job) (peel_of release.old waits.old order.old count) }
{
    let mut entered = count;
    for taker in needrows::takers(rows, jobs, job) {
        entered = peel_need(release, waits, order, entered, taker, slot);
    }
    entered
}

// A job is peeled: its code becomes its release, and its takers have one giver less.
fn peel_job(
    rows: &[u8],
    jobs: usize,
    release: &mut [u16; MAX_JOBS],
    waits: &mut [u16; MAX_JOBS],
    order: &mut [u16; MAX_JOBS],
    count: usize,
    job: usize,
) -> usize
    requires { RowsOf rows.now jobs × (job < jobs) × (behind (at release.old job) + 1 < slot_bound)
        × Ready jobs (takers_of rows.now jobs job) (released job (peel_of release.old waits.old order.old count)) }
    ensures { peel_of release.new waits.new order.new result
        ≡ peel_job rows.now jobs job (peel_of release.old waits.old order.old count) }
{
    let slot = behind(release[job]);
    release[job] = slot;
    peel_takers(rows, jobs, release, waits, order, count, job, slot + 1)
}

// Are the needs free of circles? Then `order` has every job behind its givers, and `release` the release of each.
pub fn peel(
    rows: &[u8],
    jobs: usize,
    order: &mut [u16; MAX_JOBS],
    release: &mut [u16; MAX_JOBS],
) -> bool
    requires { OfNeeds rows.now jobs × (length order.old ≡ max_jobs) × (release.old ≡ replicate max_jobs 0) }
    ensures { (needs : List Need) → NeedsIn jobs needs → RowsAre rows.now jobs needs
        → Peeled jobs needs result order.new release.new }
{
    let mut waits = [0; MAX_JOBS];
    count_givers(&mut waits, rows, jobs);
    let mut count = first_jobs(&waits, jobs, order);
    for next in 0..jobs {
        if next == count {
            return false;
        }
        let job = usize::from(order[next]);
        count = peel_job(rows, jobs, release, &mut waits, order, count, job);
    }
    true
}

// ---- the tails

// The tail of a job whose takers have theirs: one pass over the takers.
fn tail_of(rows: &[u8], jobs: usize, tail: &[u16; MAX_JOBS], job: usize) -> u16
    requires { RowsOf rows.now jobs × (job < jobs) × ((k : ℕ) → Memᴰ k (takers_of rows.now jobs job) → at tail.now k + 1 < slot_bound) }
    ensures { result ≡ tail_over rows.now jobs tail.now job }
{
    let mut code = 0;
    for taker in needrows::takers(rows, jobs, job) {
        code = raised(code, tail[taker] + 1);
    }
    behind(code)
}

// The tail of each job, from the last of the order to the first.
pub fn tails(rows: &[u8], jobs: usize, order: &[u16; MAX_JOBS], tail: &mut [u16; MAX_JOBS])
    requires { OrderOf rows.now jobs order.now × (length tail.old ≡ max_jobs) }
    ensures { (needs : List Need) → NeedsIn jobs needs → RowsAre rows.now jobs needs
        → (i : ℕ) → i < jobs → at tail.new i ≡ tail_of jobs needs i }
{
    for next in (0..jobs).rev() {
        let job = usize::from(order[next]);
        tail[job] = tail_of(rows, jobs, tail, job);
    }
}

// ---- the least makespan

// The slots that a job takes with all that must stand before and behind it.
fn span(release: u16, tail: u16) -> usize
    ensures { result ≡ release + tail + 1 }
{
    usize::from(release) + usize::from(tail) + 1
}

// The least makespan that leaves every job a slot: the greatest span.
pub fn least(release: &[u16; MAX_JOBS], tail: &[u16; MAX_JOBS], jobs: usize) -> usize
    requires { jobs ≤ max_jobs }
    ensures { result ≡ least_of release.now tail.now jobs }
{
    let mut most = 0;
    for job in 0..jobs {
        most = span(release[job], tail[job]).max(most);
    }
    most
}
