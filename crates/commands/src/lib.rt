// What the programs plan, plan_table, check_table, show_table, implied_needs, states, small_gates and state_table do. Each but the last two gives the
// question that said no, as it printed it; none where none did, or where a file could not be read or written.
//
// A job file that fills its buffer is longer than a file may be, and is refused by question 2, whatever follows; a table file that fills its
// buffer is longer than any table, and is refused by question 14.
#![tactic(auto)]

ghost use Rattle.std.specs.Prelude.{◌≡◌, true, IfSome, length, take};
ghost use Rattle.rules.specs.Fields.{number_of};
ghost use Rattle.rules.specs.Answers.{plan as Answers·plan, check as Answers·check};
ghost use Rattle.rules.specs.Implied.{list_implied};
ghost use Rattle.rules.specs.States.{plan_states};
ghost use Rattle.laws.specs.Refusals.{PlanNumber, ImpliedNumber, CheckNumber, LookupNumber};
ghost use Rattle.refusals.specs.Refusals.{number};
ghost use Rattle.gate.specs.Numbers.{planned_size, said_number};

use gate::Refusal;
use sizes::{MAX_FILE, PAIR_ENTRIES, STATE_BYTES, TABLE_BYTES};
use std::rt::{Env, Files};
use streams::{STDERR_FILENO, STDIN_FILENO};

// Room for one byte more than a job file and a table may have.
const FILE_ROOM: usize = MAX_FILE + 1;

const TABLE_ROOM: usize = TABLE_BYTES + 1;

// One argument more than any program takes, its own name among them.
const MOST_ARGUMENTS: usize = 4;

// The table that a planner's answer has left at the front of its buffer; empty after a refusal.
fn table_of(p: Result<usize, Refusal>, buffer: &[u8]) -> &[u8]
    ensures { result.now ≡ take (planned_size p) buffer.now }
{
    let size = p.unwrap_or(0);
    &buffer[..size.min(buffer.len())]
}

// Plans a job file in lent buffers, and prints the table, or that the file is refused.
fn plan_bytes(file: &[u8], work: &mut [u8], table: &mut [u8]) -> Option<Refusal>
    ensures { said_number result ≡ (Answers·plan file.now work.old table.old).number }
{
    let p = gate::plan(file, work, table);
    printing::print_planned(p, table_of(p, table))
}

// Plans a job file that is read from standard input, and prints the table, or that the file is refused.
pub fn plan() -> Option<Refusal>
    ensures { IfSome result (λ r. PlanNumber (number r)) }
{
    let mut file = [0u8; FILE_ROOM];
    let mut work = io::large_buffer();
    let mut table = [0u8; TABLE_BYTES];
    let n = io::read_full(STDIN_FILENO, &mut file);
    plan_bytes(&file[..n], &mut work, &mut table)
}

// Writes a table to the file that argument 2 names; says whether there was none to write, or all of it was written.
fn save(rt: &(impl Env + Files), table: &[u8]) -> bool
    ensures { length table.now ≡ 0 → result ≡ true }
{
    if table.is_empty() {
        return true;
    }
    files::write_argument(rt, 2, table).is_some()
}

// Plans a job file in lent buffers; writes the table to the file that argument 2 names, and prints it, or that the job file is refused; gives the
// refusal. A table that could not be written is not printed.
fn plan_to_file(
    rt: &(impl Env + Files),
    file: &[u8],
    work: &mut [u8],
    table: &mut [u8],
) -> Option<Refusal>
    ensures { said_number result ≡ (Answers·plan file.now work.old table.old).number }
{
    let p = gate::plan(file, work, table);
    let planned = table_of(p, table);
    if !save(rt, planned) {
        return None;
    }
    printing::print_planned(p, planned)
}

// Plans the job file, argument 1; writes the table file, argument 2, and prints the table, or that the job file is refused. A refusal
// writes no file.
pub fn plan_table(rt: &(impl Env + Files)) -> Option<Refusal>
    ensures { IfSome result (λ r. PlanNumber (number r)) }
{
    if files::argument_count(rt, MOST_ARGUMENTS) != 3 {
        io::write_all(STDERR_FILENO, b"usage: plan_table JOB_FILE TABLE_FILE\n");
        return None;
    }
    let mut file = [0u8; FILE_ROOM];
    let mut work = io::large_buffer();
    let mut table = [0u8; TABLE_BYTES];
    let n = files::read_argument(rt, 1, &mut file)?;
    plan_to_file(rt, &file[..n], &mut work, &mut table)
}

// Prints whether a table passes for a job file; gives the refusal.
fn check_bytes(file: &[u8], table: &[u8]) -> Option<Refusal>
    ensures { said_number result ≡ number_of (Answers·check file.now table.now) }
{
    printing::print_verdict(gate::check(file, table))
}

// Prints whether the table file, argument 2, passes for the job file, argument 1.
pub fn check_table(rt: &(impl Env + Files)) -> Option<Refusal>
    ensures { IfSome result (λ r. CheckNumber (number r)) }
{
    if files::argument_count(rt, MOST_ARGUMENTS) != 3 {
        io::write_all(STDERR_FILENO, b"usage: check_table JOB_FILE TABLE_FILE\n");
        return None;
    }
    let mut file = [0u8; FILE_ROOM];
    let mut table = [0u8; TABLE_ROOM];
    let n = files::read_argument(rt, 1, &mut file)?;
    let m = files::read_argument(rt, 2, &mut table)?;
    check_bytes(&file[..n], &table[..m])
}

// Prints the table file, argument 1, for people: a line for each slot, a column for each board.
pub fn show_table(rt: &(impl Env + Files)) -> Option<Refusal>
    ensures { IfSome result (λ r. LookupNumber (number r)) }
{
    if files::argument_count(rt, MOST_ARGUMENTS) != 2 {
        io::write_all(STDERR_FILENO, b"usage: show_table TABLE_FILE\n");
        return None;
    }
    let mut table = [0u8; TABLE_ROOM];
    let n = files::read_argument(rt, 1, &mut table)?;
    printing::show_bytes(&table[..n])
}

// Prints the needs of a job file that follow from others, listed in lent memory, or that the file is refused; gives the refusal.
fn list_bytes(file: &[u8], list: &mut [u16]) -> Option<Refusal>
    ensures { said_number result ≡ number_of (list_implied file.now list.old).answer }
{
    let l = implied::implied_needs(file, list);
    printing::print_listed(l, list)
}

// Prints the needs that follow from others, of a job file that is read from standard input: giver and taker, a line for each; or that the file is refused.
pub fn implied_needs() -> Option<Refusal>
    ensures { IfSome result (λ r. ImpliedNumber (number r)) }
{
    let mut file = [0u8; FILE_ROOM];
    let mut list = [0u16; PAIR_ENTRIES];
    let n = io::read_full(STDIN_FILENO, &mut file);
    list_bytes(&file[..n], &mut list)
}

// Plans a job file in lent buffers, and prints the state number of each slot of its table, or that the file is refused; gives the refusal.
fn states_bytes(
    file: &[u8],
    work: &mut [u8],
    table: &mut [u8],
    states: &mut [u8],
) -> Option<Refusal>
    ensures { said_number result ≡ (plan_states file.now work.old table.old states.old).outcome.number }
{
    let p = gate::state_numbers(file, work, table, states);
    printing::print_states(p, table_of(p, table), states)
}

// Plans a job file that is read from standard input, and prints the state number of each slot, one a line, or that the file is refused.
pub fn states() -> Option<Refusal>
    ensures { IfSome result (λ r. PlanNumber (number r)) }
{
    let mut file = [0u8; FILE_ROOM];
    let mut work = io::large_buffer();
    let mut table = [0u8; TABLE_BYTES];
    let mut numbers = [0u8; STATE_BYTES];
    let n = io::read_full(STDIN_FILENO, &mut file);
    states_bytes(&file[..n], &mut work, &mut table, &mut numbers)
}

// Prints the line of every small gate; says whether the planner gives the same for each.
pub fn small_gates() -> bool
    ensures { result ≡ true }
{
    let list = small::small_gates();
    printing::print_gates(&list)
}

// Prints the table of base-three numbers, one entry a line; gives how many.
pub fn state_table() -> usize
    ensures { result ≡ 256 }
{
    printing::print_entries()
}
