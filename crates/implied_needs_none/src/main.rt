#![tactic(auto)]

// A job file whose needs all stand by themselves: nothing is printed.
fn main() {
    commands::implied_needs();
}
