// The rows of a table: question 14.
#![tactic(auto)]

ghost use Rattle.std.specs.Prelude.{◌≡◌, ◌<◌, length};
ghost use Rattle.rules.specs.Sizes.{max_jobs};
ghost use Rattle.rules.specs.Table.{head_ok};
ghost use Rattle.rows.specs.Rows.{row_answer, Decodes};

use fields::{is_whole, name_ok, value_at};
use sizes::MAX_JOBS;

// What a table says: its slots and boards, and how many rows it has.
#[derive(Clone, Copy)]
pub struct Rows {
    pub slots: usize,
    pub boards: usize,
    pub count: usize,
}

// Is the head the tag 16 field of length 3 and edition 1?
fn head_ok(table: &[u8]) -> bool
    ensures { result ≡ head_ok table.now }
{
    if !is_whole(table, 0) {
        return false;
    }
    if table[0] != 16 {
        return false;
    }
    let v = value_at(table, 0);
    if v.len() != 3 {
        return false;
    }
    table[3] == 1
}

// The end of the row at an offset, if one stands there: a whole field with tag 17, start, board, level, and a name of 1 to 12 bytes.
fn row_at(table: &[u8], offset: usize) -> Option<usize>
    requires { offset < length table.now }
    ensures { result ≡ row_answer table.now offset }
{
    if !is_whole(table, offset) {
        return None;
    }
    if table[offset] != 17 {
        return None;
    }
    let v = value_at(table, offset);
    let size = v.len();
    if size < 5 {
        return None;
    }
    if 16 < size {
        return None;
    }
    if !name_ok(&v[2..]) {
        return None;
    }
    Some(offset + 3 + size)
}

// The table of at most MAX_JOBS rows, or none: question 14, but for how many rows there must be. The arrays get offset, start and board of each row.
pub fn read_rows(
    table: &[u8],
    offset: &mut [u16; MAX_JOBS],
    start: &mut [u8; MAX_JOBS],
    board: &mut [u8; MAX_JOBS],
) -> Option<Rows>
    requires { (length offset.old ≡ max_jobs) × (length start.old ≡ max_jobs) × (length board.old ≡ max_jobs) }
    ensures { Decodes table.now result offset.new start.new board.new }
{
    if !head_ok(table) {
        return None;
    }
    let mut count = 0;
    let mut at = 6;
    // No `for`: each row says where the next begins.
    while at < table.len() {
        if count == MAX_JOBS {
            return None;
        }
        let end = row_at(table, at)?;
        offset[count] = at as u16;
        start[count] = table[at + 3];
        board[count] = table[at + 4];
        count += 1;
        at = end;
    }
    Some(Rows {
        slots: usize::from(table[4]),
        boards: usize::from(table[5]),
        count,
    })
}
