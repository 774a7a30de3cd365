// Writing the table: its head, then a field for each job in number order.
#![tactic(auto)]

ghost use Rattle.std.specs.Prelude.{◌≡◌, ◌++◌, ◌+◌, ◌<◌, ◌≤◌, length, drop};
ghost use Rattle.rules.specs.Sizes.{max_jobs, table_size};
ghost use Rattle.rules.specs.Table.{row_bytes, encode};
ghost use Rattle.writer.specs.Written.{head_bytes, fixed_bytes, row_with, table_with, JobFields};

use fields::{value_at, word_at};
use sizes::MAX_JOBS;

// The field with tag 16: edition 1, slots and boards.
fn put_head(slots: u8, boards: u8, table: &mut [u8])
    requires { 6 ≤ length table.old }
    ensures { table.new ≡ head_bytes slots boards ++ drop 6 table.old }
{
    let head = [16, 3, 0, 1, slots, boards];
    table[..6].copy_from_slice(&head);
}

// The fixed bytes of the field with tag 17.
fn put_fixed(size: u8, start: u8, board: u8, level: u16, table: &mut [u8])
    requires { 7 ≤ length table.old }
    ensures { table.new ≡ fixed_bytes size start board level ++ drop 7 table.old }
{
    let [low, high] = level.to_le_bytes();
    let fixed = [17, size, 0, start, board, low, high];
    table[..7].copy_from_slice(&fixed);
}

// A name, at the front.
fn put_name(name: &[u8], table: &mut [u8])
    requires { length name.now ≤ length table.old }
    ensures { table.new ≡ name.now ++ drop (length name.now) table.old }
{
    // No copy_from_slice: the archive for C may need memcpy and memset alone, and that of so many bytes needs memmove.
    for i in 0..name.len() {
        table[i] = name[i];
    }
}

// The field of the job with the value v in the job file; gives its length.
fn put_row(v: &[u8], start: u8, board: u8, table: &mut [u8]) -> usize
    requires { (3 ≤ length v.now) × (length v.now ≤ 14) × (19 ≤ length table.old) }
    ensures size { result ≡ length (row_bytes (row_with start board v.now)) }
    ensures bytes { table.new ≡ row_bytes (row_with start board v.now) ++ drop result table.old }
{
    let n = v.len();
    let level = levels::centimetres(word_at(v, 0));
    put_fixed((n + 2) as u8, start, board, level, table);
    let name = &v[2..n];
    put_name(name, &mut table[7..]);
    name.len() + 7
}

// The whole table, for the jobs whose fields stand at `offsets` in the file; gives its length.
pub fn write_table(
    file: &[u8],
    offsets: &[u16; MAX_JOBS],
    starts: &[u8; MAX_JOBS],
    boards: &[u8; MAX_JOBS],
    jobs: usize,
    slots: u8,
    count: u8,
    table: &mut [u8],
) -> usize
    requires { (jobs ≤ max_jobs) × (table_size ≤ length table.old) × JobFields file.now offsets.now jobs }
    ensures size { result ≡ length
        (encode (table_with file.now offsets.now starts.now boards.now jobs slots count)) }
    ensures bytes { table.new
        ≡ encode (table_with file.now offsets.now starts.now boards.now jobs slots count) ++ drop result
        table.old }
{
    put_head(slots, count, table);
    let mut at = 6;
    for i in 0..jobs {
        let v = value_at(file, usize::from(offsets[i]));
        let start = starts[i];
        let board = boards[i];
        let size = put_row(v, start, board, &mut table[at..]);
        at += size;
    }
    at
}
