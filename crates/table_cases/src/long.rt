// Files and tables with many jobs, each with the name `a` and level 0.
ghost use Rattle.std.specs.Prelude.{◌≡◌, ◌+◌, ◌*◌, ◌≤◌, ◌<◌};

use crate::checked::show;
use sizes::TABLE_BYTES;

// The low byte of a number.
fn low(n: usize) -> u8 {
    (n & 0xff) as u8
}

// A table of so many rows, slot by slot on so many boards.
fn put_table(table: &mut [u8; TABLE_BYTES], count: usize, slots: u8, boards: usize) -> usize
    requires { (count ≤ 401) × (0 < boards) }
    ensures { result ≡ 6 + 8 * count }
{
    table[0] = 16;
    table[1] = 3;
    table[3] = 1;
    table[4] = slots;
    table[5] = low(boards);
    for i in 0..count {
        let at = 6 + 8 * i;
        table[at] = 17;
        table[at + 1] = 5;
        table[at + 3] = low(i / boards);
        table[at + 4] = low(1 + i % boards);
        table[at + 7] = 97;
    }
    6 + 8 * count
}

// The lines of a file and a table: the check, and the lookup in a slot on a board.
fn answers(
    rt: &impl Print,
    label: &str,
    file: &[u8],
    table: &[u8],
    cell: &str,
    slot: usize,
    board: usize,
) {
    show(rt, label, gate::gate_check(file, table));
    show(rt, cell, gate::gate_lookup(table, slot, board));
    show(rt, "  name at", gate::gate_name_at(table, slot, board));
}

// A chain of so many jobs with limit 64, and a table with a row for each in the next slot.
fn chain(rt: &impl Print, label: &str, jobs: u16, rows: usize, slots: u8)
    requires { (jobs ≤ 401) × (rows ≤ 401) }
{
    let mut file = [0; TABLE_BYTES];
    let mut table = [0; TABLE_BYTES];
    let end = drafts::put_jobs(&mut file, 64, usize::from(jobs));
    let n = drafts::put_chains(&mut file, end, 1, jobs);
    let m = put_table(&mut table, rows, slots, 1);
    answers(
        rt,
        label,
        drafts::front(&file, n),
        drafts::front(&table, m),
        "  in slot 63",
        63,
        1,
    );
}

// Eight chains side by side, of so many jobs in all, and a table with eight rows in each slot, where the rows of jobs 392 and 400 have these starts.
fn eight_chains(
    rt: &impl Print,
    label: &str,
    jobs: u16,
    rows: usize,
    slots: u8,
    start_392: u8,
    start_400: u8,
)
    requires { (jobs ≤ 401) × (rows ≤ 401) }
{
    let mut file = [0; TABLE_BYTES];
    let mut table = [0; TABLE_BYTES];
    let end = drafts::put_jobs(&mut file, 64, usize::from(jobs));
    let n = drafts::put_chains(&mut file, end, 8, jobs);
    let m = put_table(&mut table, rows, slots, 8);
    table[3137] = start_392;
    table[3201] = start_400;
    answers(
        rt,
        label,
        drafts::front(&file, n),
        drafts::front(&table, m),
        "  in slot 49 on board 8",
        49,
        8,
    );
}

// Nine jobs without needs: the planner refuses the file by question 12.
fn wide(rt: &impl Print) {
    let mut file = [0; TABLE_BYTES];
    let mut table = [0; TABLE_BYTES];
    let n = drafts::put_jobs(&mut file, 2, 9);
    let m = put_table(&mut table, 9, 2, 5);
    answers(
        rt,
        "nine jobs without needs in two slots",
        drafts::front(&file, n),
        drafts::front(&table, m),
        "  in slot 63",
        63,
        1,
    );
}

pub(crate) fn all(rt: &impl Print) {
    chain(rt, "a chain of 64", 64, 64, 64);
    chain(rt, "16 a chain of 65", 65, 65, 65);
    chain(rt, "14 a chain of 64, 65 rows", 64, 65, 65);
    eight_chains(rt, "eight chains of 50", 400, 400, 50, 48, 49);
    eight_chains(
        rt,
        "18 starts of jobs 392 and 400 exchanged",
        400,
        400,
        50,
        49,
        48,
    );
    eight_chains(rt, "14 400 jobs, 401 rows", 400, 401, 51, 48, 49);
    eight_chains(rt, "7 401 jobs", 401, 400, 50, 48, 49);
    wide(rt);
}
