// The lines of the small gates as text: jobs, number and slots, one line for each.
ghost use Rattle.std.specs.Prelude.{◌≡◌, not, eqb};
ghost use Rattle.small.specs.Lines.{all_agreed};

use streams::{STDERR_FILENO, STDOUT_FILENO};

// Two numbers, with a blank between them.
fn print_two(to: i32, jobs: u16, number: u16) {
    io::print_decimal(to, u64::from(jobs));
    io::write_all(to, b" ");
    io::print_decimal(to, u64::from(number));
}

// A line; where it has no slots, the planner gives something else: that is said on standard error, and no line is printed. Says whether one was.
fn print_line(jobs: u16, number: u16, slots: u16) -> bool
    ensures { result ≡ not (eqb slots 0) }
{
    if slots == 0 {
        io::write_all(STDERR_FILENO, b"the planner gives something else for ");
        print_two(STDERR_FILENO, jobs, number);
        io::write_all(STDERR_FILENO, b"\n");
        return false;
    }
    print_two(STDOUT_FILENO, jobs, number);
    io::write_all(STDOUT_FILENO, b" ");
    io::print_decimal(STDOUT_FILENO, u64::from(slots));
    io::write_all(STDOUT_FILENO, b"\n");
    true
}

// All lines of a list; says whether each was printed.
pub(crate) fn print(list: &[u16]) -> bool
    ensures { result ≡ all_agreed list.now }
{
    let mut all = true;
    for line in list.chunks_exact(3) {
        if !print_line(line[0], line[1], line[2]) {
            all = false;
        }
    }
    all
}
