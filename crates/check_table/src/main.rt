#![tactic(auto)]

// Prints whether a table file passes for a job file: check_table JOB_FILE TABLE_FILE.
fn main(rt: HostRuntime) {
    commands::check_table(&rt);
}
