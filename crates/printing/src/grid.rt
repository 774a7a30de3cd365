// A table for people: a line for each slot, a column for each board, job number and name in a cell, a dot where the board is idle.
ghost use Rattle.std.specs.Prelude.{◌≤◌};

use streams::STDOUT_FILENO;

// A name has up to so many bytes in its column.
const NAME_BYTES: usize = 12;

// A column has four bytes for a number, a blank, and the bytes for a name.
const BLANKS: [u8; 13] = [b' '; 13];

// So many blanks.
fn print_blanks(count: usize)
    requires { count ≤ 13 }
{
    let blanks = BLANKS;
    io::write_all(STDOUT_FILENO, &blanks[..count]);
}

// A number, at the right of four bytes.
fn print_right(n: usize) {
    if n < 10 {
        print_blanks(1);
    }
    if n < 100 {
        print_blanks(1);
    }
    print_blanks(1);
    io::print_decimal(STDOUT_FILENO, n as u64);
}

// The cell of a slot and board; gives how many blanks follow it, up to the next column.
fn print_cell(table: &[u8], slot: usize, board: usize) -> usize
    ensures { result ≤ 13 }
{
    let Ok(Some(job)) = gate::lookup(table, slot, board) else {
        io::write_all(STDOUT_FILENO, b"   .");
        return NAME_BYTES + 1;
    };
    let name = gate::name(table, slot, board);
    print_right(job);
    print_blanks(1);
    io::write_all(STDOUT_FILENO, name);
    NAME_BYTES.saturating_sub(name.len())
}

// The line of a slot.
fn print_slot(table: &[u8], slot: usize, boards: usize) {
    print_right(slot);
    let mut blanks = 0;
    for board in 1..=boards {
        print_blanks(blanks);
        blanks = print_cell(table, slot, board);
    }
    io::write_all(STDOUT_FILENO, b"\n");
}

// The line above the slots.
fn print_boards(boards: usize) {
    io::write_all(STDOUT_FILENO, b"slot");
    let mut blanks = 5;
    for board in 1..=boards {
        print_blanks(blanks);
        io::write_all(STDOUT_FILENO, b"board ");
        io::print_decimal(STDOUT_FILENO, board as u64);
        blanks = 10;
    }
    io::write_all(STDOUT_FILENO, b"\n");
}

// A table that the lookup does not refuse: its head says how many slots and boards it has.
pub(crate) fn print(table: &[u8]) {
    if table.len() < 6 {
        return;
    }
    let slots = usize::from(table[4]);
    let boards = usize::from(table[5]);
    print_boards(boards);
    for slot in 0..slots {
        print_slot(table, slot, boards);
    }
}
