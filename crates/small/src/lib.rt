// Every small gate: document 02, request 14.
//
// A set of needs of so many jobs is a number (crate needsets).
#![tactic(auto)]

ghost use Rattle.std.specs.Prelude.{◌≡◌, [], ◌∷◌, ◌+◌, ◌≤◌, ◌<◌, length, unwrap_or};
ghost use Rattle.rules.specs.Basics.{joined};
ghost use Rattle.rules.specs.SmallGates.{gate_file, planned_slots, gate_lines, line_numbers, small_gates};
ghost use Rattle.laws.specs.Writing.{put};
ghost use Rattle.needsets.specs.Starts.{as_option};
ghost use Rattle.small.specs.Lines.{agreed_slots, line_slots};

use needsets::file::put_file;
use needsets::numbers::{is_gate, set_count};
use needsets::starts::fewest;
use sizes::TABLE_BYTES;

// The slots of the planner's table for the job file of a number; None where it refuses the file.
fn planned(jobs: usize, number: usize) -> Option<u8>
    requires { (1 ≤ jobs) × (jobs ≤ 4) }
    ensures { result ≡ as_option (planned_slots (gate_file jobs number)) }
{
    // Header and limit have 8 bytes, each of 4 jobs 6, each of 16 needs 5.
    let mut file = [0; 112];
    let mut work = io::large_buffer();
    let mut table = [0; TABLE_BYTES];
    let size = put_file(jobs, number, &mut file);
    let answer = planner::plan(&file[..size], &mut work, &mut table);
    // Byte 4 of a table is its slots.
    match answer {
        Ok(_) => Some(table[4]),
        Err(_) => None,
    }
}

// The planner's slots, where they are the fewest; 0, and no Option, where it gives something else: the lines of the list are numbers of two bytes.
fn agreed(planned: Option<u8>, least: Option<usize>) -> u8
    ensures { result ≡ agreed_slots (unwrap_or planned 0) (unwrap_or least 0) }
{
    match (planned, least) {
        (Some(slots), Some(fewest)) if usize::from(slots) == fewest => slots,
        _ => 0,
    }
}

// The line of a number: jobs, number and slots, at entry `at` of the list.
fn put_line(jobs: usize, number: usize, list: &mut [u16], at: usize)
    requires { (1 ≤ jobs) × (jobs ≤ 4) × (number < 65536) × (at + 3 ≤ length list.old) }
    ensures { list.new ≡ put at (jobs ∷ number ∷ line_slots jobs number ∷ []) list.old }
{
    let slots = agreed(planned(jobs, number), fewest(jobs, number));
    list[at] = jobs as u16;
    list[at + 1] = number as u16;
    list[at + 2] = u16::from(slots);
}

// The lines of all sets of needs of so many jobs without a circle, in rising order of their numbers, from entry `first` of the list on;
// gives the entry behind them.
fn put_lines(jobs: usize, list: &mut [u16], first: usize) -> usize
    requires { (1 ≤ jobs) × (jobs ≤ 4) × (first + length (joined line_numbers (gate_lines jobs)) ≤ length list.old) }
    ensures size { result ≡ first + length (joined line_numbers (gate_lines jobs)) }
    ensures entries { list.new ≡ put first (joined line_numbers (gate_lines jobs)) list.old }
{
    let many = set_count(jobs);
    let mut at = first;
    for number in 0..many {
        if is_gate(jobs, number) {
            put_line(jobs, number, list, at);
            at += 3;
        }
    }
    at
}

// Every set of needs of 1 to 4 jobs without a circle: for each, one behind the other, its jobs, its number and its fewest slots, which are also
// those of the planner's table with as many slots for the limit as there are jobs. 0 slots would mean that the planner gives something else. There are 572.
pub fn small_gates() -> [u16; 1716]
    ensures { result ≡ joined line_numbers small_gates }
{
    let mut list = [0; 1716];
    let mut at = 0;
    for jobs in 1..=4 {
        at = put_lines(jobs, &mut list, at);
    }
    list
}
