#![tactic(auto)]

// Plans a job file from standard input, and prints the state number of each slot of its table, one a line.
fn main() {
    commands::states();
}
