// The public library: the planner, the check, the lookup, the name and the state numbers, and the forms of them that give their answer as one number,
// which crate gate_c exports to C.
#![tactic(auto)]

ghost use Rattle.std.specs.Prelude.{◌≡◌, ◌≤◌};
ghost use Rattle.rules.specs.Sizes.{table_size};
ghost use Rattle.rules.specs.Fields.{number_of};
ghost use Rattle.rules.specs.Answers.{plan as Answers·plan, check as Answers·check, lookup as Answers·lookup};
ghost use Rattle.rules.specs.States.{plan_states};
ghost use Rattle.gate.specs.Numbers.{planned_size, answer_number, plan_number, lookup_number, name_number};

pub use planner::plan;
pub use refusals::Refusal;
pub use statenumbers::state_numbers;
pub use table::{check, lookup, name};

// An answer of the planner as one number: the length of the table; or 65536 and the number of the question that said no.
fn answer_number(p: Result<usize, Refusal>) -> u32
    requires { planned_size p ≤ table_size }
    ensures { result ≡ answer_number p }
{
    match p {
        Ok(size) => size as u32,
        Err(refusal) => 65536 + u32::from(refusal.number()),
    }
}

// The length of the table; or 65536 and the number of the question that said no.
pub fn gate_plan(file: &[u8], work: &mut [u8], table: &mut [u8]) -> u32
    ensures value { result ≡ plan_number (Answers·plan file.now work.old table.old) }
    ensures work_after { work.new ≡ (Answers·plan file.now work.old table.old).work }
    ensures table_after { table.new ≡ (Answers·plan file.now work.old table.old).table }
{
    answer_number(plan(file, work, table))
}

// As gate_plan, and for a table the state number of each slot, two bytes each, low byte first; 65536 and 1 where there are fewer than 128 bytes for
// them.
pub fn gate_states(file: &[u8], work: &mut [u8], table: &mut [u8], states: &mut [u8]) -> u32
    ensures value { result ≡ plan_number (plan_states file.now work.old table.old states.old).outcome }
    ensures work_after { work.new ≡ (plan_states file.now work.old table.old states.old).outcome.work }
    ensures table_after { table.new ≡ (plan_states file.now work.old table.old states.old).outcome.table }
    ensures states_after { states.new ≡ (plan_states file.now work.old table.old states.old).report }
{
    answer_number(state_numbers(file, work, table, states))
}

// 0 where the table passes; else the number of the question that said no.
pub fn gate_check(file: &[u8], table: &[u8]) -> u32
    ensures { result ≡ number_of (Answers·check file.now table.now) }
{
    match check(file, table) {
        Ok(()) => 0,
        Err(refusal) => u32::from(refusal.number()),
    }
}

// The lookup's answer where the board is idle: jobs are counted from 1.
const IDLE: u32 = 0;

// 0 where the board is idle; the job number, from 1; or 65536 and the number of the question that said no.
pub fn gate_lookup(table: &[u8], slot: usize, board: usize) -> u32
    ensures { result ≡ lookup_number (Answers·lookup table.now slot board) }
{
    match lookup(table, slot, board) {
        Ok(Some(job)) => job as u32,
        Ok(None) => IDLE,
        Err(question) => 65536 + u32::from(question.number()),
    }
}

// The offset of the name in the table times 65536, plus its length; 0 where it is empty.
pub fn gate_name_at(table: &[u8], slot: usize, board: usize) -> u32
    ensures { result ≡ name_number table.now (Answers·lookup table.now slot board) }
{
    match table::find(table, slot, board) {
        Ok(Some(place)) => (place.start as u32) * 65536 + ((place.end - place.start) as u32),
        Ok(None) => 0,
        Err(_) => 0,
    }
}
