#![tactic(auto)]

// Prints a table file for people: show_table TABLE_FILE.
fn main(rt: HostRuntime) {
    commands::show_table(&rt);
}
