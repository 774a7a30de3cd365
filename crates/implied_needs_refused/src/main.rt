#![tactic(auto)]

// A job file whose needs form a circle: prints that question 11 refuses it.
fn main() {
    commands::implied_needs();
}
