#![tactic(auto)]

// Prints the needs of a job file from standard input that follow from others, giver and taker, a line for each.
fn main() {
    commands::implied_needs();
}
