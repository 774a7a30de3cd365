// State numbers and the entries of their table as text: one a line.
ghost use Rattle.std.specs.Prelude.{◌≡◌};
ghost use Rattle.rules.specs.Basics.{at};

use streams::STDOUT_FILENO;

// The line of a number.
fn print_line(number: u16) {
    io::print_decimal(STDOUT_FILENO, u64::from(number));
    io::write_all(STDOUT_FILENO, b"\n");
}

// How many slots a table has, as its head says; 0 where it has no head.
pub(crate) fn slots_in(table: &[u8]) -> usize
    ensures { result ≡ at table.now 4 }
{
    usize::from(table.get(4).copied().unwrap_or(0))
}

// All numbers, two bytes each, low byte first.
pub(crate) fn print(states: &[u8]) {
    for number in states.chunks_exact(2) {
        print_line(u16::from_le_bytes([number[0], number[1]]));
    }
}

// The entry for each byte; gives how many.
pub(crate) fn print_entries() -> usize
    ensures { result ≡ 256 }
{
    let mut count = 0;
    for byte in 0..=u8::MAX {
        print_line(threes::entry(byte));
        count += 1;
    }
    count
}
