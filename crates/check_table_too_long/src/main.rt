#![tactic(auto)]

// Tries check_table on a job file of 49,153 bytes, whose first 49,152 are a readable job file.
fn main(rt: HostRuntime) {
    commands::check_table(&rt);
}
