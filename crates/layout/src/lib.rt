// The tables of places that the search reads: where each stands in one array of two-byte numbers, so that the search carries one reference to
// them. Sets are of places:
//   HELD + s    the places of slot s: of the jobs whose windows hold it
//   ENDS + s    the places of the slot before s whose windows end with it
//   DUE + s     the places of the slot before s whose jobs must be done before s, and need not earlier, in a plan of SLOTS slots
//   MARKS + s   where the row of marks of slot s begins in the bitmap, in bytes
//   PREV + PLACES * s + p    the places of the slot before s whose jobs give to the job at place p of slot s
//   WHO + PLACES * s + p     the job at place p of slot s
//   SLOTS       the slots of the plan that is searched
//   CAP         the most jobs of a slot
//   THREE + b   the base-three number of the byte b (crate threes)
#![tactic(auto)]

ghost use Rattle.std.specs.Prelude.{◌≡◌, ◌<◌};
ghost use Rattle.rules.specs.Sizes.{max_limit, max_width};
ghost use Rattle.jobset.specs.Sets.{set_at};
ghost use Rattle.layout.specs.Layout.{table_words, tables_in};

use jobset::Set;
use sizes::{ALL_PLACES, DEADLINES, MAX_SLOTS, PLACE_SETS, PLACES};

pub const HELD: usize = 0;

pub const ENDS: usize = HELD + MAX_SLOTS;

pub const DUE: usize = ENDS + DEADLINES;

pub const MARKS: usize = DUE + DEADLINES;

pub const PREV: usize = MARKS + DEADLINES;

pub const WHO: usize = PREV + ALL_PLACES;

pub const SLOTS: usize = WHO + ALL_PLACES;

pub const CAP: usize = SLOTS + 1;

pub const THREE: usize = CAP + 1;

pub const TABLES: usize = THREE + PLACE_SETS;

// The set in an entry of the tables.
pub fn set_at(tables: &[u16; TABLES], i: usize) -> Set
    requires { i < table_words }
    ensures { result ≡ set_at tables.now i }
{
    Set {
        bits: u64::from(tables[i]),
    }
}

// The job at a place of a slot.
pub fn job_at(tables: &[u16; TABLES], slot: usize, p: usize) -> usize
    requires { (slot < max_limit) × (p < max_width) }
    ensures { result ≡ (tables_in tables.now).who slot p }
{
    usize::from(tables[WHO + PLACES * slot + p])
}
