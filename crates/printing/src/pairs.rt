// Pairs of job numbers as text: a line for each, giver and taker.
use streams::STDOUT_FILENO;

// All pairs of a list.
pub(crate) fn print(list: &[u16]) {
    for pair in list.chunks_exact(2) {
        io::print_decimal(STDOUT_FILENO, u64::from(pair[0]));
        io::write_all(STDOUT_FILENO, b" ");
        io::print_decimal(STDOUT_FILENO, u64::from(pair[1]));
        io::write_all(STDOUT_FILENO, b"\n");
    }
}
