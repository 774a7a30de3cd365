// Plans a job file that is refused, and prints what the table file holds then: what it held before.
#![tactic(auto)]

use streams::STDOUT_FILENO;

fn main(rt: HostRuntime) {
    commands::plan_table(&rt);
    let mut table = io::buffer();
    let n = files::read_argument(&rt, 2, &mut table).unwrap_or(0);
    io::write_all(STDOUT_FILENO, &table[..n]);
}
