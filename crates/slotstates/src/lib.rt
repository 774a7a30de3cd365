// The state numbers of slots (document 02, request 11), from the starts, releases and tails of the jobs.
//
// The jobs whose windows hold a slot are ranked in rising number, from 0. Each gives the digit at its rank, in base three: 0 not done, 1 done in an
// earlier slot, 2 running now. So the number is the sum of two entries of the table of base-three numbers (crate threes): the entry for the ranks
// of the jobs that have begun, done or running, and the entry for the ranks of those that are running. Jobs are counted from 0.
#![tactic(auto)]

ghost use Rattle.std.specs.Prelude.{◌≡◌, ◌&&◌, ℕ, ◌+◌, ◌*◌, ◌≤◌, ◌<◌, length, leb};
ghost use Rattle.rules.specs.Sizes.{max_jobs, max_limit, max_width};
ghost use Rattle.rules.specs.Numbers.{word_bytes};
ghost use Rattle.laws.specs.Writing.{put};
ghost use Rattle.threes.specs.Threes.{number_of};
ghost use Rattle.slotstates.specs.Ranks.{ranked, times, ranks_in, Narrow, RanksFit};
ghost use Rattle.slotstates.specs.Slots.{slots_bytes};

use jobset::Set;
use sizes::MAX_JOBS;
use std::cmp::Ordering;

// What the jobs of a slot have given so far: how many windows hold it, the ranks of the jobs that have begun, and of those that are running.
#[derive(Clone, Copy)]
struct Ranks {
    pub count: usize,
    pub begun: Set,
    pub running: Set,
}

impl Ranks {
    // No window holds the slot.
    const NONE: Ranks = Ranks {
        count: 0,
        begun: Set::EMPTY,
        running: Set::EMPTY,
    };

    // One window more holds the slot: that of a job that starts in slot `start`.
    fn ranked(self, start: usize, slot: usize) -> Ranks
        requires { self.count < max_width }
        ensures { result ≡ ranked slot start self }
    {
        let rank = self.count;
        let counted = Ranks {
            count: rank + 1,
            ..self
        };
        match slot.cmp(&start) {
            Ordering::Less => counted,
            Ordering::Greater => Ranks {
                begun: self.begun.with(rank),
                ..counted
            },
            Ordering::Equal => Ranks {
                begun: self.begun.with(rank),
                running: self.running.with(rank),
                ..counted
            },
        }
    }

    // The number of a slot: the entry for the jobs that have begun, and the entry for those that are running.
    fn number(self) -> u16
        requires { RanksFit self }
        ensures { result ≡ number_of self.begun self.running }
    {
        threes::entry(self.begun.bits as u8) + threes::entry(self.running.bits as u8)
    }
}

// Does the window of a job with this release and tail hold the slot?
fn holds(release: u16, tail: u16, limit: usize, slot: usize) -> bool
    requires { slot < max_limit }
    ensures { result ≡ (leb release slot && leb (slot + 1 + tail) limit) }
{
    usize::from(release) <= slot && slot + 1 + usize::from(tail) <= limit
}

// The ranks of a slot, of so many jobs with these starts, releases and tails, in rising number.
fn ranks_in(
    starts: &[u8; MAX_JOBS],
    release: &[u16; MAX_JOBS],
    tail: &[u16; MAX_JOBS],
    jobs: usize,
    limit: usize,
    slot: usize,
) -> Ranks
    requires { (jobs ≤ max_jobs) × (slot < max_limit) × Narrow (times starts.now release.now tail.now jobs limit) slot }
    ensures { result ≡ ranks_in (times starts.now release.now tail.now jobs limit) slot }
{
    let mut ranks = Ranks::NONE;
    for job in 0..jobs {
        if holds(release[job], tail[job], limit, slot) {
            ranks = ranks.ranked(usize::from(starts[job]), slot);
        }
    }
    ranks
}

// A two-byte number, low byte first.
fn put_word(states: &mut [u8], at: usize, w: u16)
    requires { at + 2 ≤ length states.old }
    ensures { states.new ≡ put at (word_bytes w) states.old }
{
    let [low, high] = w.to_le_bytes();
    states[at] = low;
    states[at + 1] = high;
}

// The numbers of so many slots, two bytes each, low byte first.
pub fn put_numbers(
    starts: &[u8; MAX_JOBS],
    release: &[u16; MAX_JOBS],
    tail: &[u16; MAX_JOBS],
    jobs: usize,
    limit: usize,
    slots: usize,
    states: &mut [u8],
)
    requires { (jobs ≤ max_jobs) × (slots ≤ max_limit) × (2 * slots ≤ length states.old)
        × ((s : ℕ) → s < slots → Narrow (times starts.now release.now tail.now jobs limit) s) }
    ensures { states.new
        ≡ put 0 (slots_bytes (times starts.now release.now tail.now jobs limit) slots) states.old }
{
    for slot in 0..slots {
        let ranks = ranks_in(starts, release, tail, jobs, limit, slot);
        put_word(states, 2 * slot, ranks.number());
    }
}
