// The cases of document 01, section "Gates on paper", whose files have jobs; up to 401 jobs (document 02, request 8); refusals of needs, and needs given
// twice. A need is a pair: giver, taker.
ghost use Rattle.std.specs.Prelude.{◌≤◌};

use crate::answers::plan;
use sizes::TABLE_BYTES;

// These needs, behind so many bytes. Gives the length with them.
pub(crate) fn put_needs(file: &mut [u8; TABLE_BYTES], from: usize, needs: &[(u8, u8)]) -> usize {
    let mut at = from;
    for (giver, taker) in needs {
        if at <= TABLE_BYTES - 5 {
            at = drafts::put_need(file, at, *giver, *taker);
        }
    }
    at
}

// So many jobs with these needs.
pub(crate) fn with_needs(rt: &impl Print, label: &str, limit: u8, jobs: usize, needs: &[(u8, u8)])
    requires { jobs ≤ 401 }
{
    let mut file = [0; TABLE_BYTES];
    let end = drafts::put_jobs(&mut file, limit, jobs);
    let size = put_needs(&mut file, end, needs);
    plan(rt, label, drafts::front(&file, size));
}

// So many chains side by side, of so many jobs in all.
fn side_by_side(rt: &impl Print, label: &str, limit: u8, chains: u16, jobs: u16)
    requires { (chains ≤ 8) × (jobs ≤ 401) }
{
    let mut file = [0; TABLE_BYTES];
    let end = drafts::put_jobs(&mut file, limit, usize::from(jobs));
    let size = drafts::put_chains(&mut file, end, chains, jobs);
    plan(rt, label, drafts::front(&file, size));
}

// A chain of so many jobs.
fn chain(rt: &impl Print, label: &str, limit: u8, jobs: u16)
    requires { jobs ≤ 401 }
{
    side_by_side(rt, label, limit, 1, jobs);
}

fn one(rt: &impl Print) {
    with_needs(rt, "one job, limit 1", 1, 1, &[]);
    with_needs(rt, "one job, limit 64", 64, 1, &[]);
}

fn three(rt: &impl Print) {
    with_needs(rt, "needs 1-2 1-3, limit 3", 3, 3, &[(1, 2), (1, 3)]);
    with_needs(rt, "needs 1-2 1-3, limit 2", 2, 3, &[(1, 2), (1, 3)]);
    with_needs(rt, "needs 1-3 2-3, limit 3", 3, 3, &[(1, 3), (2, 3)]);
    with_needs(rt, "needs 1-2 2-1, limit 64", 64, 2, &[(1, 2), (2, 1)]);
}

fn refused(rt: &impl Print) {
    with_needs(rt, "8 a need of the third of two jobs", 64, 2, &[(1, 3)]);
    with_needs(rt, "8 a need of a job for itself", 64, 2, &[(2, 2)]);
    with_needs(rt, "8 a need of job 0", 64, 2, &[(1, 2), (0, 2)]);
}

fn repeated(rt: &impl Print) {
    with_needs(rt, "needs 1-2 1-2, limit 2", 2, 2, &[(1, 2), (1, 2)]);
    with_needs(rt, "needs 1-2 1-2, limit 1", 1, 2, &[(1, 2), (1, 2)]);
    with_needs(
        rt,
        "needs 1-2 1-3 2-3 2-3, limit 3",
        3,
        3,
        &[(1, 2), (1, 3), (2, 3), (2, 3)],
    );
    with_needs(
        rt,
        "needs 1-2 2-1 1-2, limit 64",
        64,
        2,
        &[(1, 2), (2, 1), (1, 2)],
    );
}

fn figure(rt: &impl Print, label: &str, limit: u8) {
    with_needs(
        rt,
        label,
        limit,
        8,
        &[
            (1, 3),
            (1, 4),
            (1, 5),
            (2, 5),
            (3, 6),
            (4, 6),
            (5, 7),
            (5, 8),
        ],
    );
}

fn wide(rt: &impl Print) {
    with_needs(rt, "eight jobs, limit 1", 1, 8, &[]);
    with_needs(rt, "nine jobs, limit 1", 1, 9, &[]);
    with_needs(rt, "65 jobs, limit 64", 64, 65, &[]);
    with_needs(rt, "400 jobs, limit 64", 64, 400, &[]);
    with_needs(rt, "401 jobs, limit 64", 64, 401, &[]);
}

fn chains(rt: &impl Print) {
    chain(rt, "a chain of nine, limit 16", 16, 9);
    chain(rt, "a chain of nine, limit 17", 17, 9);
    chain(rt, "a chain of nine, limit 8", 8, 9);
    chain(rt, "a chain of 64, limit 64", 64, 64);
    chain(rt, "a chain of 65, limit 64", 64, 65);
    chain(rt, "a chain of 400, limit 64", 64, 400);
    chain(rt, "a chain of 401, limit 64", 64, 401);
}

// Four hundred jobs: with limit 50 each has a window of one slot, with limit 51 of two, with limit 49 of none.
fn eight_chains(rt: &impl Print) {
    side_by_side(rt, "eight chains of 50, limit 50", 50, 8, 400);
    side_by_side(rt, "eight chains of 50, limit 51", 51, 8, 400);
    side_by_side(rt, "eight chains of 50, limit 49", 49, 8, 400);
}

pub(crate) fn all(rt: &impl Print) {
    one(rt);
    three(rt);
    figure(rt, "figure 1, limit 6", 6);
    figure(rt, "figure 1, limit 4", 4);
    wide(rt);
    chains(rt);
    eight_chains(rt);
    refused(rt);
    repeated(rt);
}
