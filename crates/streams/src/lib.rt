// The descriptors of the standard streams, by which the kit's `io` reads and writes.
#![tactic(auto)]

pub const STDIN_FILENO: i32 = 0;

pub const STDOUT_FILENO: i32 = 1;

pub const STDERR_FILENO: i32 = 2;
