#![tactic(auto)]

// Plans the job file of a gate, argument 1, into the table file, argument 2; and then, from standard input, that of the same gate with extra jobs behind it.
// Each job of the gate has the same start in both tables.
fn main(rt: HostRuntime) {
    commands::plan_table(&rt);
    commands::plan();
}
