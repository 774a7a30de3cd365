#![tactic(auto)]

// Prints the table of base-three numbers that state numbers are made with: the entry for each byte, one a line.
fn main() {
    commands::state_table();
}
