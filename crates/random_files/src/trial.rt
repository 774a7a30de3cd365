// The planner on random files, compared with the search, and what is counted.
ghost use Rattle.std.specs.Prelude.{◌≤◌};

use crate::counts::{Counts, Right, Wrong};
use crate::draw::{Needs, Random, Sizes, draw_needs, jobs_of, put_file, sockets_of};
use crate::lists::{Refused, best, slots};
use crate::placing::place;
use crate::width::width;
use sizes::{TABLE_BYTES, WORK_BYTES};

// Have so many rows of a table these starts and boards?
fn same_rows(
    table: &[u8; TABLE_BYTES],
    starts: &[u8; 5],
    boards: &[Option<u8>; 5],
    jobs: usize,
) -> bool
    requires { jobs ≤ 5 }
{
    for job in 0..jobs {
        if table[9 + 8 * job] != starts[job] || Some(table[10 + 8 * job]) != boards[job] {
            return false;
        }
    }
    true
}

// The largest of these boards.
fn largest(boards: &[Option<u8>; 5]) -> Option<u8> {
    boards.iter().filter_map(|board| *board).max()
}

// Has a table these starts, the boards that they lead to, and the head that goes with them?
fn same_table(table: &[u8; TABLE_BYTES], needs: &Needs, starts: &[u8; 5], jobs: usize) -> bool
    requires { jobs ≤ 5 }
{
    let boards = place(needs, starts, jobs);
    if table[4] != slots(starts) || Some(table[5]) != largest(&boards) {
        return false;
    }
    same_rows(table, starts, &boards, jobs)
}

// What both buffers are full of before a call: a byte that differs from file to file, and is never 0.
fn noise(file: &[u8]) -> u8 {
    let length = file.len();
    if length < 255 {
        return 255 - (length as u8);
    }
    170
}

// The planner's answer, where it leaves both buffers as it is to. The working buffer has eight bytes more than are used.
fn plan(file: &[u8], table: &mut [u8; TABLE_BYTES]) -> Result<Result<usize, u32>, Wrong> {
    let before = noise(file);
    let mut work = [before; WORK_BYTES + 8];
    let answer = trials::answer(gate::gate_plan(file, &mut work, table));
    if trials::clean(answer, before, &work, table) {
        Ok(answer)
    } else {
        Err(Wrong::Differs)
    }
}

// Does the check pass a table of so many bytes?
fn passes(file: &[u8], table: &[u8; TABLE_BYTES], size: usize) -> bool {
    gate::gate_check(file, drafts::front(table, size)) == 0
}

// What is said of a table of so many bytes, compared with a list of starts.
fn say_table(
    file: &[u8],
    table: &[u8; TABLE_BYTES],
    size: usize,
    needs: &Needs,
    jobs: usize,
    starts: &[u8; 5],
) -> Result<Right, Wrong>
    requires { jobs ≤ 5 }
{
    if !same_table(table, needs, starts, jobs) {
        return Err(Wrong::Differs);
    }
    if !passes(file, table, size) {
        return Err(Wrong::Unchecked);
    }
    Ok(Right::Table(slots(starts)))
}

// What is said of a file for which the search gives this.
fn say(
    file: &[u8],
    needs: &Needs,
    jobs: usize,
    right: Result<[u8; 5], Refused>,
) -> Result<Right, Wrong>
    requires { jobs ≤ 5 }
{
    let mut table = [noise(file); TABLE_BYTES];
    match (plan(file, &mut table)?, right) {
        (Ok(size), Ok(starts)) => say_table(file, &table, size, needs, jobs, &starts),
        (Err(question), Err(refused)) if question == refused as u32 => Ok(Right::Refused(refused)),
        _ => Err(Wrong::Differs),
    }
}

// Has the file a table that passes, or is it refused by 13?
fn narrow(file: &[u8]) -> Result<bool, Wrong> {
    let mut table = [noise(file); TABLE_BYTES];
    match plan(file, &mut table)? {
        Ok(size) => Ok(passes(file, &table, size)),
        Err(question) => Ok(question == Refused::NoList as u32),
    }
}

// Is the file refused by 12?
fn wide(file: &[u8]) -> Result<bool, Wrong> {
    let mut table = [noise(file); TABLE_BYTES];
    Ok(plan(file, &mut table)? == Err(Refused::Wide as u32))
}

// How many jobs without needs make the width of a file eight.
fn room(width: usize) -> usize
    ensures { result ≤ 8 }
{
    8usize.saturating_sub(width)
}

// What is said of a file with so many extra jobs, that make its width eight, and with one more.
fn say_wide(needs: &Needs, sizes: Sizes, extras: usize, first: usize) -> Result<Right, Wrong>
    requires { (sizes.jobs ≤ 5) × (extras ≤ 8) × (first ≤ 25) }
{
    let mut eight = [0; TABLE_BYTES];
    let mut nine = [0; TABLE_BYTES];
    let size = put_file(&mut eight, sizes, extras, needs, first);
    let more = put_file(&mut nine, sizes, extras + 1, needs, first);
    if narrow(drafts::front(&eight, size))? && wide(drafts::front(&nine, more))? {
        Ok(Right::Refused(Refused::Wide))
    } else {
        Err(Wrong::Differs)
    }
}

// Does the search give something else without tag 9?
fn changed(needs: &Needs, sizes: Sizes, right: Result<[u8; 5], Refused>) -> bool {
    let without = Sizes {
        sockets: None,
        ..sizes
    };
    sizes.sockets.is_some() && best(needs, without) != right
}

// One file, with limit 1 to 6; where it has no circle, with extra jobs too.
fn try_file(random: &mut Random, counts: &mut Counts) {
    let number = random.number();
    let jobs = jobs_of(number);
    let needs = draw_needs(random, jobs);
    let sizes = Sizes {
        jobs,
        limit: 1 + (number / 8 % 6) as u8,
        sockets: sockets_of(random.number()),
    };
    let first = (number / 64 % 25) as usize;
    let mut file = [0; TABLE_BYTES];
    let size = put_file(&mut file, sizes, 0, &needs, first);
    let right = best(&needs, sizes);
    counts.count(say(drafts::front(&file, size), &needs, jobs, right));
    if right != Err(Refused::Circle) {
        let extras = room(width(&needs, sizes));
        counts.count(say_wide(&needs, sizes, extras, first));
    }
    if changed(&needs, sizes, right) {
        counts.count_changed();
    }
}

// So many files, and what was counted.
pub(crate) fn try_files(files: u64) -> Counts {
    let mut counts = Counts::default();
    let mut random = Random::new();
    for _ in 0..files {
        try_file(&mut random, &mut counts);
        random.next();
    }
    counts
}
