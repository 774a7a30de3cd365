// The shortest start list, the preferred one of its length: one search for each length, from the shortest up.
//
// Jobs are counted from 0. The tables are those of crate layout.
#![tactic(auto)]

ghost use Rattle.std.specs.Prelude.{◌≡◌, ℕ, ◌<◌, ◌≤◌, length, take};
ghost use Rattle.rules.specs.Sizes.{max_limit};
ghost use Rattle.jobset.specs.Sets.{set_at};
ghost use Rattle.layout.specs.Layout.{tables_in};
ghost use Rattle.places.specs.Windows.{Windows};
ghost use Rattle.dominance.specs.Placing.{place};
ghost use Rattle.shortest.specs.Starts.{jobs_up, written};
ghost use Rattle.lengths.specs.Searching.{PlacesIn, Search, Found};

use jobset::Set;
use layout::{MARKS, TABLES, job_at};
use sizes::{MAX_JOBS, MAX_SLOTS};

// The jobs of one slot, at these places, start in it.
fn start_all(tables: &[u16; TABLES], slot: usize, places: Set, starts: &mut [u8; MAX_JOBS])
    requires { (slot < max_limit) × PlacesIn tables.now slot places }
    ensures { starts.new ≡ place slot (jobs_up ((tables_in tables.now).who slot) places) starts.old }
{
    for p in places {
        starts[job_at(tables, slot, p)] = slot as u8;
    }
}

// The starts that the sets of the slots give.
pub fn starts_of(
    tables: &[u16; TABLES],
    path: &[u8; MAX_SLOTS],
    slots: usize,
    starts: &mut [u8; MAX_JOBS],
)
    requires { (slots ≤ max_limit) × (length path.now ≡ max_limit) × ((s : ℕ) → s < slots → PlacesIn tables.now s (set_at path.now s)) }
    ensures { starts.new ≡ written (tables_in tables.now) 0 (take slots path.now) starts.old }
{
    for slot in 0..slots {
        start_all(tables, slot, Set::of_byte(path[slot]), starts);
    }
}

// The slots of the shortest plan of `least` to `limit` slots, if there is one; its sets, the preferred ones, in `path`. The tables have
// `filled` slots before, and those of the plan after. `dead` is room for the bitmap: no answer depends on what it holds.
pub fn search(
    tables: &mut [u16; TABLES],
    filled: usize,
    least: usize,
    limit: usize,
    jobs: usize,
    places: &[u8; MAX_JOBS],
    tail: &[u16; MAX_JOBS],
    dead: &mut [u8],
    path: &mut [u8; MAX_SLOTS],
) -> Option<usize>
    requires { (W : Windows) × (cap : ℕ) × Search W cap filled least limit jobs tables.old places.now tail.now (length dead.old) path.old }
    ensures { (W : Windows) (cap : ℕ)
        → Search W cap filled least limit jobs tables.old places.now tail.now (length dead.old) path.old
        → Found W cap limit result tables.new path.new }
{
    let mut has = filled;
    for slots in least..=limit {
        seats::fit(tables, has, slots, jobs, places, tail);
        has = slots;
        bitmap::clear(dead, usize::from(tables[MARKS + slots]));
        if backtrack::explore(tables, dead, Set::EMPTY, Set::EMPTY, 0, path) {
            return Some(slots);
        }
    }
    None
}
