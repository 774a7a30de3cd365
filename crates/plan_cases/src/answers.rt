// The planner's answer to a job file, as a line. Where a piece of it cannot be written, those behind it are tried all the same.
ghost use Rattle.std.specs.Prelude.{◌≡◌, length};

use sizes::{TABLE_BYTES, WORK_BYTES};

// What both buffers are full of before a call.
const NOISE: u8 = 170;

// A working buffer that is full of noise.
fn noise() -> [u8; WORK_BYTES]
    ensures { 65536 ≡ length result }
{
    [NOISE; WORK_BYTES]
}

// A table buffer that is full of noise.
fn noise_table() -> [u8; TABLE_BYTES]
    ensures { 7606 ≡ length result }
{
    [NOISE; TABLE_BYTES]
}

// A byte behind a blank.
fn print_byte(rt: &impl Print, byte: u8) {
    let _ = print!(rt; " {byte}");
}

// A name and a value of each job: the byte at this place of its row. Each name has one byte, so a row has eight.
fn print_each(rt: &impl Print, name: &str, rows: &[u8], place: usize) {
    let _ = print!(rt; "{name}");
    for row in rows.chunks_exact(8) {
        print_byte(rt, row.get(place).copied().unwrap_or(0));
    }
}

// A table.
fn print_table(rt: &impl Print, table: &[u8]) {
    let [_, _, _, _, slots, boards, rows @ ..] = table else {
        return;
    };
    let _ = print!(rt; ": slots {slots} boards {boards}");
    print_each(rt, " starts", rows, 3);
    print_each(rt, " boards", rows, 4);
}

// The label, and the table with what the check says of it or the refusal.
fn print_answer(
    rt: &impl Print,
    label: &str,
    file: &[u8],
    table: &[u8],
    answer: Result<usize, u32>,
) {
    let _ = print!(rt; "{label}");
    match answer {
        Ok(size) => {
            let table = table.get(..size).unwrap_or(table);
            print_table(rt, table);
            let _ = print!(rt; ", check {}", gate::gate_check(file, table));
        }
        Err(question) => {
            let _ = print!(rt; ": refused {question}");
        }
    }
}

// The line of a job file with these buffers, which are full of noise: the answer, and whether both are as it leaves them.
fn plan_in(rt: &impl Print, label: &str, file: &[u8], work: &mut [u8], table: &mut [u8]) {
    let answer = trials::answer(gate::gate_plan(file, work, table));
    print_answer(rt, label, file, table, answer);
    let clean = trials::clean(answer, NOISE, work, table);
    let _ = println!(rt; ", buffers {}", if clean { "ok" } else { "WRONG" });
}

// The line of a job file.
pub(crate) fn plan(rt: &impl Print, label: &str, file: &[u8]) {
    let mut work = noise();
    let mut table = noise_table();
    plan_in(rt, label, file, &mut work, &mut table);
}

// The lines of these files.
pub(crate) fn plan_each(rt: &impl Print, files: &[(&str, &[u8])]) {
    for (label, file) in files {
        plan(rt, label, file);
    }
}

// The line of a job file with a working buffer that is one byte short.
pub(crate) fn plan_short_work(rt: &impl Print, label: &str, file: &[u8]) {
    let mut work = [NOISE; WORK_BYTES - 1];
    let mut table = noise_table();
    plan_in(rt, label, file, &mut work, &mut table);
}

// The line of a job file with a table buffer that is one byte short.
pub(crate) fn plan_short_table(rt: &impl Print, label: &str, file: &[u8]) {
    let mut work = noise();
    let mut table = [NOISE; TABLE_BYTES - 1];
    plan_in(rt, label, file, &mut work, &mut table);
}

// The bytes of a job file's table.
pub(crate) fn plan_bytes(rt: &impl Print, label: &str, file: &[u8]) {
    let mut work = noise();
    let mut table = noise_table();
    let answer = trials::answer(gate::gate_plan(file, &mut work, &mut table));
    let _ = print!(rt; "{label}:");
    for byte in table.iter().take(answer.unwrap_or(0)) {
        print_byte(rt, *byte);
    }
    let _ = println!(rt);
}
