#![tactic(auto)]

// Plans a job file from standard input, and prints the table for people, or `refused` and the number.
fn main() {
    commands::plan();
}
