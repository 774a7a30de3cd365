#![tactic(auto)]

// Prints jobs, number and fewest slots of every small gate, a line each (document 02, request 14).
fn main() {
    commands::small_gates();
}
