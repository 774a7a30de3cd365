#![tactic(auto)]

// Tries show_table on a table in which two jobs share slot and board.
fn main(rt: HostRuntime) {
    commands::show_table(&rt);
}
