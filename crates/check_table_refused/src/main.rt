#![tactic(auto)]

// Tries check_table on a table that puts two takers of one giver in the next slot.
fn main(rt: HostRuntime) {
    commands::check_table(&rt);
}
