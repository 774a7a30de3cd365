// The text that the programs print: a planned table, a table for people, pairs of job numbers, the lines of the small gates, state
// numbers and the entries of their table, a refusal.
//
// What is printed is tested, each program against its file `stdout`, and not proved: a contract cannot speak of what goes out. What a function
// gives back is proved.
//
// Lines go out by crate `io`, on a file descriptor: the library's printing takes a handle, which would go through every function here.
#![tactic(auto)]

mod grid;
mod lines;
mod numbers;
mod pairs;
mod report;

ghost use Rattle.std.specs.Prelude.{◌≡◌, ◌*◌, Some, take};
ghost use Rattle.std.specs.Result.{result_err};
ghost use Rattle.rules.specs.Fields.{number_of};
ghost use Rattle.rules.specs.Answers.{lookup as Answers·lookup};
ghost use Rattle.gate.specs.Numbers.{said_number};
ghost use Rattle.small.specs.Lines.{all_agreed};

use gate::Refusal;
use std::fmt::{Display, InlineText};
use streams::STDOUT_FILENO;

// A text of at most 16 bytes, on standard output.
fn print_short<D: Display + Drop>(value: D) {
    let text = InlineText::<16>::of(value);
    io::write_all(STDOUT_FILENO, text.as_str().as_bytes());
}

// The first so many pairs of a list, or all entries where there are fewer.
fn front<T>(list: &[T], pairs: usize) -> &[T]
    ensures { result.now ≡ take (2 * pairs) list.now }
{
    &list[..pairs.saturating_mul(2).min(list.len())]
}

// The line of a refusal; gives the refusal.
fn print_refused(refusal: Refusal) -> Option<Refusal>
    ensures { result ≡ Some refusal }
{
    print_short(refusal);
    io::write_all(STDOUT_FILENO, b"\n");
    Some(refusal)
}

// Prints a planner's answer, with the table that it has left; gives the refusal.
pub fn print_planned(p: Result<usize, Refusal>, table: &[u8]) -> Option<Refusal>
    ensures { result ≡ result_err p }
{
    match p {
        Ok(_) => {
            report::print_table(table);
            None
        }
        Err(refusal) => print_refused(refusal),
    }
}

// The line of a verdict; gives the refusal.
pub fn print_verdict(v: Result<(), Refusal>) -> Option<Refusal>
    ensures { result ≡ result_err v }
{
    match v {
        Ok(()) => {
            io::write_all(STDOUT_FILENO, b"passes\n");
            None
        }
        Err(refusal) => print_refused(refusal),
    }
}

// Prints a table for people, or that the lookup refuses it; gives the refusal.
pub fn show_bytes(table: &[u8]) -> Option<Refusal>
    ensures { said_number result ≡ number_of (Answers·lookup table.now 0 0) }
{
    if let Err(refusal) = gate::lookup(table, 0, 0) {
        return print_refused(refusal);
    }
    grid::print(table);
    None
}

// Prints the pairs that are listed, from the front of the list, or that the job file is refused; gives the refusal.
pub fn print_listed(l: Result<usize, Refusal>, list: &[u16]) -> Option<Refusal>
    ensures { result ≡ result_err l }
{
    match l {
        Ok(count) => {
            pairs::print(front(list, count));
            None
        }
        Err(refusal) => print_refused(refusal),
    }
}

// Prints the lines of small gates, three numbers of the list each; says whether the planner gives the same for each.
pub fn print_gates(list: &[u16]) -> bool
    ensures { result ≡ all_agreed list.now }
{
    lines::print(list)
}

// Prints the state number of each slot of the table that a planner's answer has left, or that the job file is refused; gives the refusal.
pub fn print_states(p: Result<usize, Refusal>, table: &[u8], states: &[u8]) -> Option<Refusal>
    ensures { result ≡ result_err p }
{
    match p {
        Ok(_) => {
            numbers::print(front(states, numbers::slots_in(table)));
            None
        }
        Err(refusal) => print_refused(refusal),
    }
}

// Prints the entries of the table of base-three numbers; gives how many.
pub fn print_entries() -> usize
    ensures { result ≡ 256 }
{
    numbers::print_entries()
}
