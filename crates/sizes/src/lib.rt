// The sizes that documents 01 and 02 set, once for all code (for the definitions: rules, Sizes), and those that follow from them.
#![tactic(auto)]

// The most jobs of a file (question 7).
pub const MAX_JOBS: usize = 400;

// The most bytes of a job file (question 2).
pub const MAX_FILE: usize = 49152;

// The working buffer (question 1).
pub const WORK_BYTES: usize = 65536;

// The table buffer (question 1): the longest table.
pub const TABLE_BYTES: usize = 7606;

// The entries of the list of needs that follow from others: two for each need that a file has room for.
pub const PAIR_ENTRIES: usize = 19660;

// The most slots that a limit allows.
pub const MAX_SLOTS: usize = 64;

// The most windows that hold one slot (question 12): so many places, each a bit of a byte.
pub const PLACES: usize = 8;

// The most boards of a unit (question 16).
pub const MAX_BOARDS: u8 = 8;

// The places of all slots: place p of slot s is PLACES * s + p.
pub const ALL_PLACES: usize = PLACES * MAX_SLOTS;

// One more than the most slots: a deadline is 0 to MAX_SLOTS.
pub const DEADLINES: usize = MAX_SLOTS + 1;

// The sets of places: each is a byte.
pub const PLACE_SETS: usize = 256;

// The bytes of the state numbers of the longest table: two for each slot.
pub const STATE_BYTES: usize = 2 * MAX_SLOTS;
