// Random numbers, sizes, needs and job files of at most five jobs, and of extra jobs without needs behind them. Jobs count from 0.
ghost use Rattle.std.specs.Prelude.{◌<◌, ◌≤◌};

use sizes::TABLE_BYTES;

// Which needs there are: a row for each giver, in it a value for each taker.
pub(crate) type Needs = [[bool; 5]; 5];

// What a job file says besides its needs. `sockets` is the value of tag 9.
#[derive(Clone, Copy)]
pub(crate) struct Sizes {
    pub jobs: usize,
    pub limit: u8,
    pub sockets: Option<u8>,
}

// Random numbers below 65,536: each is the upper half of the state.
#[derive(Clone, Copy)]
pub(crate) struct Random(u32);

impl Random {
    // From the first state on.
    pub(crate) fn new() -> Random {
        Random(1)
    }

    // The number of this state.
    pub(crate) fn number(&self) -> u32 {
        self.0 >> 16
    }

    // The number of the next state.
    pub(crate) fn next(&mut self) -> u32 {
        self.0 = self.0.wrapping_mul(1664525).wrapping_add(1013904223);
        self.number()
    }
}

// 1 to 5 jobs, five of them in half of the files.
pub(crate) fn jobs_of(number: u32) -> usize
    ensures { result ≤ 5 }
{
    let jobs = 1 + (number % 8) as usize;
    jobs.min(5)
}

// The value of tag 9 in half of the files: 1 to 4, now and then 8.
pub(crate) fn sockets_of(number: u32) -> Option<u8> {
    if number % 2 == 0 {
        return None;
    }
    if number / 2 % 16 == 0 {
        return Some(8);
    }
    Some(1 + (number / 32 % 4) as u8)
}

// The rank of a job in a random order, 0 to 7.
fn rank(order: u32, job: usize) -> u32 {
    match job {
        0 => order % 8,
        1 => order / 8 % 8,
        2 => order / 64 % 8,
        3 => order / 512 % 8,
        _ => order / 4096 % 8,
    }
}

// Is there to be a need between two of so many jobs: of those that keep the order, so many of eight; now and then one that does not?
fn wanted(number: u32, order: u32, share: u32, jobs: usize, giver: usize, taker: usize) -> bool {
    if giver >= jobs || taker >= jobs || giver == taker || number % 8 >= share {
        return false;
    }
    rank(order, giver) < rank(order, taker) || number / 8 % 32 == 0
}

// Needs between so many jobs.
pub(crate) fn draw_needs(random: &mut Random, jobs: usize) -> Needs {
    let order = random.next();
    let share = 1 + random.next() % 7;
    let mut needs = [[false; 5]; 5];
    for giver in 0..5 {
        for taker in 0..5 {
            needs[giver][taker] = wanted(random.next(), order, share, jobs, giver, taker);
        }
    }
    needs
}

// A need, behind so many bytes: at every second step by tag 6. Gives the length with it.
fn put_need(file: &mut [u8; TABLE_BYTES], step: usize, at: usize, giver: u8, taker: u8) -> usize
    requires { at ≤ 7599 }
{
    if step % 2 == 1 {
        return drafts::put_wide_need(file, at, u16::from(giver), u16::from(taker));
    }
    drafts::put_need(file, at, giver, taker)
}

// At a step of writing the needs, the one at a place of the table, row by row, where it is there, behind so many bytes; at place 0, which no need has, the
// field of tag 9. Gives the length with it.
fn put_if(
    file: &mut [u8; TABLE_BYTES],
    sockets: Option<u8>,
    needs: &Needs,
    step: usize,
    place: usize,
    at: usize,
) -> usize
    requires { place < 25 }
{
    if at > TABLE_BYTES - 7 {
        return at;
    }
    if place == 0 {
        return match sockets {
            Some(boards) => drafts::put_sockets(file, at, boards),
            None => at,
        };
    }
    if needs[place / 5][place % 5] {
        return put_need(file, step, at, 1 + (place / 5) as u8, 1 + (place % 5) as u8);
    }
    at
}

// The value of tag 9 at a step of writing the needs: it is written in the first round alone.
fn sockets_at(sockets: Option<u8>, step: usize) -> Option<u8> {
    if step < 25 { sockets } else { None }
}

// How many places are gone through from this one on: all, or in half of the files 15 once more.
fn steps_from(first: usize) -> usize
    ensures { result ≤ 40 }
{
    if first % 2 == 0 { 25 } else { 40 }
}

// The job file of these sizes with so many extra jobs, and with these needs in the order of the table from a place on and then around; in half of the files
// those at 15 places come twice, by both tags. Gives its length.
pub(crate) fn put_file(
    file: &mut [u8; TABLE_BYTES],
    sizes: Sizes,
    extras: usize,
    needs: &Needs,
    first: usize,
) -> usize
    requires { (sizes.jobs ≤ 5) × (extras ≤ 9) × (first ≤ 25) }
{
    let mut at = drafts::put_jobs(file, sizes.limit, sizes.jobs + extras);
    for step in 0..steps_from(first) {
        let sockets = sockets_at(sizes.sockets, step);
        at = put_if(file, sockets, needs, step, (first + step) % 25, at);
    }
    at
}
