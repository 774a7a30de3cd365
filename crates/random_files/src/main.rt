// Random small job files, half of them with tag 9, and three in ten with some needs given twice; about half of the needs are given by
// tag 6. The planner's answer to each is compared with a separate search through all start lists, and its table is handed to the check.
//
// A file of at most five jobs is never too wide. So each file without a circle, whose width is reckoned here by formulas (1) and (2), is
// planned twice more: with as many jobs without needs behind its own as make the width eight, when it must not be refused by 12, and
// with one more, when it must be.
//
// Before each call both buffers are full of noise, and the working buffer is eight bytes too long; after it the first 65,536 bytes of
// the working buffer must be zero, and every other byte that the answer does not write must be as before.
//
// Prints how many files, tables and refusals there were (tables, 11 and 13 make up the files; 12 is of the files with extra jobs), the
// slots of all tables, how many answers or buffers differ, how many tables the check refused, and how many answers would be others
// without tag 9.
#![tactic(auto)]

mod counts;
mod draw;
mod lists;
mod placing;
mod trial;
mod width;

// How many files.
const FILES: u64 = 5000;

// Where standard output cannot be written the program ends as ever: what it prints is held to its file `stdout`.
fn main(rt: HostRuntime) {
    let counts = trial::try_files(FILES);
    let _ = println!(rt; "files {FILES}\n{counts}");
}
