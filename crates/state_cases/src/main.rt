// State numbers (document 02, request 11) of tables of document 01's cases: for each job file a line that says what it is, then the number of each slot, or the
// refusal. The text goes out by crate `io` on a file descriptor, as that of crate `printing`.
#![tactic(auto)]

ghost use Rattle.std.specs.Prelude.{◌≤◌, length};

use sizes::{STATE_BYTES, TABLE_BYTES};
use streams::STDOUT_FILENO;

// The numbers of a job file, with so many bytes for them; or the refusal.
fn print_numbers(file: &[u8], work: &mut [u8], table: &mut [u8], states: &mut [u8], room: usize)
    requires { room ≤ length states.old }
{
    let p = gate::state_numbers(file, work, table, &mut states[..room]);
    printing::print_states(p, table, states);
}

// The lines of a job file, with so many bytes for the numbers.
fn states(label: &[u8], file: &[u8], room: usize)
    requires { room ≤ 128 }
{
    let mut work = [0; 65536];
    let mut table = [0; TABLE_BYTES];
    let mut states = [0; STATE_BYTES];
    io::write_all(STDOUT_FILENO, label);
    print_numbers(file, &mut work, &mut table, &mut states, room);
}

// So many chains side by side, of so many jobs in all.
fn chains(label: &[u8], limit: u8, chains: u16, jobs: u16, room: usize)
    requires { (chains ≤ 8) × (jobs ≤ 401) × (room ≤ 128) }
{
    let mut file = [0; TABLE_BYTES];
    let from = drafts::put_jobs(&mut file, limit, jobs as usize);
    let size = drafts::put_chains(&mut file, from, chains, jobs);
    states(label, drafts::front(&file, size), room);
}

// Needs 1-3, 2-3.
fn two_givers() {
    let mut file = [0; TABLE_BYTES];
    let from = drafts::put_jobs(&mut file, 3, 3);
    let first = drafts::put_need(&mut file, from, 1, 3);
    let size = drafts::put_need(&mut file, first, 2, 3);
    states(
        b"needs 1-3 2-3, limit 3\n",
        drafts::front(&file, size),
        STATE_BYTES,
    );
}

// Figure 1: needs 1-3, 1-4, 1-5, 2-5, 3-6, 4-6, 5-7, 5-8.
fn figure1(label: &[u8], limit: u8) {
    let mut file = [0; TABLE_BYTES];
    let mut size = drafts::put_jobs(&mut file, limit, 8);
    size = drafts::put_need(&mut file, size, 1, 3);
    size = drafts::put_need(&mut file, size, 1, 4);
    size = drafts::put_need(&mut file, size, 1, 5);
    size = drafts::put_need(&mut file, size, 2, 5);
    size = drafts::put_need(&mut file, size, 3, 6);
    size = drafts::put_need(&mut file, size, 4, 6);
    size = drafts::put_need(&mut file, size, 5, 7);
    size = drafts::put_need(&mut file, size, 5, 8);
    states(label, drafts::front(&file, size), STATE_BYTES);
}

fn main() {
    two_givers();
    figure1(b"figure 1, limit 6\n", 6);
    figure1(b"figure 1, limit 5\n", 5);
    figure1(b"figure 1, limit 4\n", 4);
    chains(b"eight jobs, limit 1\n", 1, 8, 8, STATE_BYTES);
    chains(b"chain of nine, limit 16\n", 16, 1, 9, STATE_BYTES);
    chains(b"chain of nine, limit 17\n", 17, 1, 9, STATE_BYTES);
    chains(b"chain of 64, limit 64\n", 64, 1, 64, STATE_BYTES);
    chains(
        b"chain of 64, limit 64, 127 bytes\n",
        64,
        1,
        64,
        STATE_BYTES - 1,
    );
    chains(
        b"400 jobs in eight chains, limit 50\n",
        50,
        8,
        400,
        STATE_BYTES,
    );
    chains(
        b"401 jobs in eight chains, limit 64\n",
        64,
        8,
        401,
        STATE_BYTES,
    );
}
