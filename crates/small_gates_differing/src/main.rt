#![tactic(auto)]

// Prints a list of small gates in which two have 0 for their slots, as if the planner gave something else: they have no line, and are named on standard error.
fn main() {
    let list = [1, 0, 1, 2, 0, 0, 2, 2, 2, 4, 29456, 0];
    printing::print_gates(&list);
}
