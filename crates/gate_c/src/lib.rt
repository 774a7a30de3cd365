// The archive for units programmed in C or Rust (bindings/include/gate.h): the forms of crate gate that give their answer as one number.
//
// A slice is taken as a pointer and a length.
#![tactic(auto)]

ghost use Rattle.std.specs.Prelude.{◌≡◌};
ghost use Rattle.rules.specs.Fields.{number_of};
ghost use Rattle.rules.specs.Answers.{plan as Answers·plan, check as Answers·check, lookup as Answers·lookup};
ghost use Rattle.rules.specs.States.{plan_states};
ghost use Rattle.gate.specs.Numbers.{plan_number, lookup_number, name_number};

// The length of the table; or 65536 and the number of the question that said no.
#[unsafe(no_mangle)]
pub extern "C" fn gate_plan(file: &[u8], work: &mut [u8], table: &mut [u8]) -> u32
    ensures value { result ≡ plan_number (Answers·plan file.now work.old table.old) }
    ensures work_after { work.new ≡ (Answers·plan file.now work.old table.old).work }
    ensures table_after { table.new ≡ (Answers·plan file.now work.old table.old).table }
{
    gate::gate_plan(file, work, table)
}

// As gate_plan, and for a table the state number of each slot, two bytes each, low byte first; 65536 and 1 where there are fewer than 128 bytes for
// them.
#[unsafe(no_mangle)]
pub extern "C" fn gate_states(
    file: &[u8],
    work: &mut [u8],
    table: &mut [u8],
    states: &mut [u8],
) -> u32
    ensures value { result ≡ plan_number (plan_states file.now work.old table.old states.old).outcome }
    ensures work_after { work.new ≡ (plan_states file.now work.old table.old states.old).outcome.work }
    ensures table_after { table.new ≡ (plan_states file.now work.old table.old states.old).outcome.table }
    ensures states_after { states.new ≡ (plan_states file.now work.old table.old states.old).report }
{
    gate::gate_states(file, work, table, states)
}

// 0 where the table passes; else the number of the question that said no.
#[unsafe(no_mangle)]
pub extern "C" fn gate_check(file: &[u8], table: &[u8]) -> u32
    ensures { result ≡ number_of (Answers·check file.now table.now) }
{
    gate::gate_check(file, table)
}

// 0 where the board is idle; the job number, from 1; or 65536 and the number of the question that said no.
#[unsafe(no_mangle)]
pub extern "C" fn gate_lookup(table: &[u8], slot: usize, board: usize) -> u32
    ensures { result ≡ lookup_number (Answers·lookup table.now slot board) }
{
    gate::gate_lookup(table, slot, board)
}

// The offset of the name in the table times 65536, plus its length; 0 where it is empty.
#[unsafe(no_mangle)]
pub extern "C" fn gate_name_at(table: &[u8], slot: usize, board: usize) -> u32
    ensures { result ≡ name_number table.now (Answers·lookup table.now slot board) }
{
    gate::gate_name_at(table, slot, board)
}
