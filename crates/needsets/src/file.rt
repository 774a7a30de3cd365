// The job file of a number: header, limit, jobs and needs.
ghost use Rattle.std.specs.Prelude.{◌≡◌, ◌++◌, ◌+◌, ◌*◌, ◌≤◌, ◌<◌, length, drop};
ghost use Rattle.rules.specs.Basics.{joined, range};
ghost use Rattle.rules.specs.SmallGates.{job_field, need_field, needs_of, gate_file};
ghost use Rattle.laws.specs.Writing.{put};
ghost use Rattle.needsets.specs.Files.{head_bytes};

use crate::numbers::is_set;

// Header and limit, at the front.
fn put_head(jobs: usize, file: &mut [u8])
    requires { (jobs ≤ 4) × (8 ≤ length file.old) }
    ensures { file.new ≡ head_bytes jobs ++ drop 8 file.old }
{
    let head = [1, 1, 0, 1, 2, 1, 0, jobs as u8];
    file[..8].copy_from_slice(&head);
}

// A job, at the front: level 0, and a letter for its name.
fn put_job(job: usize, file: &mut [u8])
    requires { (job < 4) × (6 ≤ length file.old) }
    ensures { file.new ≡ job_field job ++ drop 6 file.old }
{
    let field = [3, 3, 0, 0, 0, b'a' + (job as u8)];
    file[..6].copy_from_slice(&field);
}

// So many jobs, behind header and limit; gives the byte behind them.
fn put_jobs(jobs: usize, file: &mut [u8]) -> usize
    requires { (jobs ≤ 4) × (8 + length (joined job_field (range jobs 0)) ≤ length file.old) }
    ensures size { result ≡ 8 + length (joined job_field (range jobs 0)) }
    ensures bytes { file.new ≡ put 8 (joined job_field (range jobs 0)) file.old }
{
    let mut at = 8;
    for job in 0..jobs {
        put_job(job, &mut file[at..]);
        at += 6;
    }
    at
}

// A need, at the front, with the numbers that its jobs have in a file.
fn put_need(giver: usize, taker: usize, file: &mut [u8])
    requires { (giver < 4) × (taker < 4) × (5 ≤ length file.old) }
    ensures { file.new ≡ need_field (giver, taker) ++ drop 5 file.old }
{
    let field = [4, 2, 0, (giver + 1) as u8, (taker + 1) as u8];
    file[..5].copy_from_slice(&field);
}

// The needs of a number, from byte `first` on; gives the byte behind them.
fn put_needs(jobs: usize, number: usize, file: &mut [u8], first: usize) -> usize
    requires { (1 ≤ jobs) × (jobs ≤ 4) × (first + length (joined need_field (needs_of jobs number)) ≤ length file.old) }
    ensures size { result ≡ first + length (joined need_field (needs_of jobs number)) }
    ensures bytes { file.new ≡ put first (joined need_field (needs_of jobs number)) file.old }
{
    let mut at = first;
    for place in 0..jobs * jobs {
        if is_set(number, place) {
            put_need(place / jobs, place % jobs, &mut file[at..]);
            at += 5;
        }
    }
    at
}

// The job file of a number, at the front; gives its length.
pub fn put_file(jobs: usize, number: usize, file: &mut [u8]) -> usize
    requires { (1 ≤ jobs) × (jobs ≤ 4) × (length (gate_file jobs number) ≤ length file.old) }
    ensures size { result ≡ length (gate_file jobs number) }
    ensures bytes { file.new ≡ gate_file jobs number ++ drop result file.old }
{
    put_head(jobs, file);
    let at = put_jobs(jobs, file);
    put_needs(jobs, number, file, at)
}
