#![tactic(auto)]

// Tries check_table on a table file that is not there: no verdict.
fn main(rt: HostRuntime) {
    commands::check_table(&rt);
}
