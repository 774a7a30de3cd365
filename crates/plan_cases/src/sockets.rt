// The cases of tag 9, the most boards (document 02, request 13).
ghost use Rattle.std.specs.Prelude.{◌≤◌};

use crate::answers::{plan, plan_each};
use crate::paper::{put_needs, with_needs};
use sizes::TABLE_BYTES;

// Needs 2-3, 3-4 and 5-4.
const NEEDS: [(u8, u8); 3] = [(2, 3), (3, 4), (5, 4)];

// Header, limit and tag 9.
const REFUSED: [(&str, &[u8]); 5] = [
    (
        "6 tag 9 with 0",
        b"\x01\x01\x00\x01\x02\x01\x00\x05\x09\x01\x00\x00",
    ),
    (
        "6 tag 9 with 9",
        b"\x01\x01\x00\x01\x02\x01\x00\x05\x09\x01\x00\x09",
    ),
    (
        "6 tag 9 of length 2",
        b"\x01\x01\x00\x01\x02\x01\x00\x05\x09\x02\x00\x02\x02",
    ),
    (
        "21 tag 9 twice",
        b"\x01\x01\x00\x01\x02\x01\x00\x05\x09\x01\x00\x02\x09\x01\x00\x02",
    ),
    (
        "6 tag 9 again, with 9",
        b"\x01\x01\x00\x01\x02\x01\x00\x05\x09\x01\x00\x02\x09\x01\x00\x09",
    ),
];

// So many jobs, the most boards, and these needs.
fn with_sockets(
    rt: &impl Print,
    label: &str,
    limit: u8,
    jobs: usize,
    boards: u8,
    needs: &[(u8, u8)],
)
    requires { jobs ≤ 401 }
{
    let mut file = [0; TABLE_BYTES];
    let end = drafts::put_jobs(&mut file, limit, jobs);
    let from = drafts::put_sockets(&mut file, end, boards);
    let size = put_needs(&mut file, from, needs);
    plan(rt, label, drafts::front(&file, size));
}

// Five jobs with limit 5: two boards hold job 1 back.
fn five(rt: &impl Print, label: &str, boards: u8) {
    with_sockets(rt, label, 5, 5, boards, &NEEDS);
}

fn planned(rt: &impl Print) {
    with_needs(rt, "five jobs without tag 9", 5, 5, &NEEDS);
    five(rt, "five jobs, tag 9 with 8", 8);
    five(rt, "five jobs, tag 9 with 3", 3);
    five(rt, "five jobs, tag 9 with 2", 2);
    five(rt, "five jobs, tag 9 with 1", 1);
}

fn without_needs(rt: &impl Print) {
    with_sockets(rt, "13 three jobs, tag 9 with 1, limit 2", 2, 3, 1, &[]);
    with_sockets(rt, "12 nine jobs, tag 9 with 2, limit 1", 1, 9, 2, &[]);
}

pub(crate) fn all(rt: &impl Print) {
    planned(rt);
    without_needs(rt);
    plan_each(rt, &REFUSED);
}
