#![tactic(auto)]

// Plans a job file into a table file that held something else, and checks the table file then.
fn main(rt: HostRuntime) {
    commands::plan_table(&rt);
    commands::check_table(&rt);
}
