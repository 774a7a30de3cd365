#![tactic(auto)]

// Plans a job file, writes the table file, and prints the table for people, or `refused` and the number: plan_table JOB_FILE TABLE_FILE.
fn main(rt: HostRuntime) {
    commands::plan_table(&rt);
}
