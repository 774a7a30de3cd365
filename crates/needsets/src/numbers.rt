// Which sets of needs have no circle, and how many sets there are.
ghost use Rattle.std.specs.Prelude.{◌≡◌, ◌*◌, ◌^◌, ◌≤◌, ◌<◌};
ghost use Rattle.rules.specs.SmallGates.{bit, gateb};
ghost use Rattle.needsets.specs.Marks.{waits_on, is_ready, marked_bits};

// Is the bit at this place set?
pub(crate) fn is_set(number: usize, place: usize) -> bool
    requires { place < 64 }
    ensures { result ≡ bit number place }
{
    (number >> place) % 2 == 1
}

// Does the job need a giver that is not marked?
fn waits(jobs: usize, number: usize, marked: usize, job: usize, giver: usize) -> bool
    requires { (jobs ≤ 4) × (job < jobs) × (giver < jobs) }
    ensures { result ≡ waits_on jobs number marked job giver }
{
    if !is_set(number, giver * jobs + job) {
        return false;
    }
    !is_set(marked, giver)
}

// Are all givers of the job marked?
fn is_ready(jobs: usize, number: usize, marked: usize, job: usize) -> bool
    requires { (jobs ≤ 4) × (job < jobs) }
    ensures { result ≡ is_ready jobs number marked job }
{
    // A `for`, and no `all`: this is asked most in all of `small_gates`, and `all` took a third more time there.
    for giver in 0..jobs {
        if waits(jobs, number, marked, job, giver) {
            return false;
        }
    }
    true
}

// A round: the jobs whose givers were all marked before.
fn mark(jobs: usize, number: usize, marked: usize) -> usize
    requires { jobs ≤ 4 }
    ensures { result ≡ marked_bits jobs number marked }
{
    let mut next = 0;
    for job in (0..jobs).rev() {
        next *= 2;
        if is_ready(jobs, number, marked, job) {
            next += 1;
        }
    }
    next
}

// Does the number stand for needs without a circle? Then as many rounds as there are jobs mark every job.
pub fn is_gate(jobs: usize, number: usize) -> bool
    requires { jobs ≤ 4 }
    ensures { result ≡ gateb jobs number }
{
    let mut marked = 0;
    for _ in 0..jobs {
        marked = mark(jobs, number, marked);
    }
    marked == (1 << jobs) - 1
}

// How many sets of needs so many jobs have, with a circle or without.
pub fn set_count(jobs: usize) -> usize
    requires { jobs ≤ 4 }
    ensures { result ≡ 2 ^ (jobs * jobs) }
{
    1 << (jobs * jobs)
}
