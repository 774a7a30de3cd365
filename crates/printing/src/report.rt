// A planned table as text: a line with slots and boards, then a line for each job with its number, name, start, board and centimetres.
use crate::print_short;
use fields::{is_whole, value_at, word_at};
use streams::STDOUT_FILENO;

// These bytes.
fn print(text: &[u8]) {
    io::write_all(STDOUT_FILENO, text);
}

// A number, in decimal.
fn print_number(n: usize) {
    io::print_decimal(STDOUT_FILENO, n as u64);
}

// The line of a job, by the value of its row: start, board, level and name.
fn print_job(number: usize, row: &[u8]) {
    if row.len() < 4 {
        return;
    }
    print_number(number);
    print(b" ");
    print(&row[4..]);
    print(b" ");
    print_number(usize::from(row[0]));
    print(b" ");
    print_number(usize::from(row[1]));
    print(b" ");
    print_short(word_at(row, 2).cast_signed());
    print(b"\n");
}

// The lines of the jobs.
fn print_jobs(table: &[u8]) {
    let mut at = 6;
    let mut number = 0;
    // No `for`: each row says where the next begins.
    while at < table.len() {
        if !is_whole(table, at) {
            return;
        }
        let row = value_at(table, at);
        number += 1;
        print_job(number, row);
        at += 3 + row.len();
    }
}

// A table that the planner wrote.
pub(crate) fn print_table(table: &[u8]) {
    if table.len() < 6 {
        return;
    }
    print(b"slots ");
    print_number(usize::from(table[4]));
    print(b" boards ");
    print_number(usize::from(table[5]));
    print(b"\n");
    print_jobs(table);
}
