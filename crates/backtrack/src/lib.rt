// One search: the preferred plan of one length with at most so many jobs in a slot, if there is one. Depth first over the slots, with a bitmap
// of the states that have no plan.
//
// A state before slot s is `done` and `ran`, sets of places of the slot before: done by its end, and ran in it. `here` is what of `done` has its
// window still open in slot s: a set of places of slot s, as is all that is tried there. No set of places outlives its slot.
// The tables are those of crate layout.
#![tactic(auto)]

ghost use Rattle.std.specs.Prelude.{◌≡◌, true, false, ◌-◌, ◌*◌, ◌<◌, ◌≤◌, ltb, length};
ghost use Rattle.rules.specs.Sizes.{max_limit, max_width, work_size};
ghost use Rattle.jobset.specs.Sets.{is_subset, Subset};
ghost use Rattle.threes.specs.Threes.{Eight};
ghost use Rattle.places.specs.Rows.{chosen};
ghost use Rattle.places.specs.Slot.{fit_of};
ghost use Rattle.places.specs.Model.{key};
ghost use Rattle.places.specs.Memo.{Reached};
ghost use Rattle.layout.specs.Layout.{tables_in, marks_in, ThreesIn, place_sets};
ghost use Rattle.backtrack.specs.Entries.{slots_in, cap_in};
ghost use Rattle.backtrack.specs.Sorting.{plain, sort_place, found_at};
ghost use Rattle.backtrack.specs.Choosing.{choice_of};
ghost use Rattle.placesets.specs.Listing.{row_from};
ghost use Rattle.backtrack.specs.Search.{Searchable, Opened, InSlot, Takes, Told, written};
ghost use Rattle.backtrack.specs.Search.{must_at, explored_in, attempted, numbered, choice_tries, slot_tries};

use jobset::Set;
use layout::{CAP, DUE, ENDS, HELD, MARKS, SLOTS, TABLES, THREE, set_at};
use placesets::{by_number, givers_at, numbers, pick};
use sizes::{MAX_SLOTS, PLACES};

// The candidates of a slot: those without a giver in the slot before, those with exactly one, and these givers (places of the slot
// before); and those of them that two candidates share.
#[derive(Clone, Copy)]
struct Found {
    pub forced: Set,
    pub tied: Set,
    pub tying: Set,
    pub shared: Set,
}

// The sets that a slot tries: all of `forced`, and of the places `among` just so many, no two of them with one giver in the slot before.
#[derive(Clone, Copy)]
struct Choice {
    pub forced: Set,
    pub among: Set,
    pub count: usize,
}

// A slot that is searched, with a state before it: what of its places is done, what ran in the slot before, and what must run in it.
#[derive(Clone, Copy)]
struct Slot {
    pub index: usize,
    pub here: Set,
    pub ran: Set,
    pub must: Set,
}

// ---- the candidates

// One more place, with its job's givers, among the candidates where the job is one.
fn sort_place(c: Found, givers: Set, done: Set, ran: Set, p: usize) -> Found
    requires { p < 64 }
    ensures { result ≡ sort_place done ran p givers c }
{
    if !givers.is_subset(done) {
        return c;
    }
    let near = givers.intersection(ran);
    if near.is_empty() {
        return Found {
            forced: c.forced.with(p),
            ..c
        };
    }
    if !near.is_one() {
        return c;
    }
    Found {
        tied: c.tied.with(p),
        tying: c.tying.union(near),
        shared: c.shared.union(c.tying.intersection(near)),
        ..c
    }
}

// The candidates of a slot: of its places that are not done.
fn candidates_at(tables: &[u16; TABLES], slot: usize, here: Set, done: Set, ran: Set) -> Found
    requires { slot < max_limit }
    ensures { result ≡ found_at (tables_in tables.now) slot here done ran }
{
    let held = set_at(tables, HELD + slot);
    let mut c = Found {
        forced: Set::EMPTY,
        tied: Set::EMPTY,
        tying: Set::EMPTY,
        shared: Set::EMPTY,
    };
    for p in held.minus(here) {
        c = sort_place(c, givers_at(tables, slot, p), done, ran, p);
    }
    c
}

// Do the jobs that fit into the slot, every forced one and one for each tying giver, exceed the cap? (They are at most PLACES.)
fn exceeds(tables: &[u16; TABLES], c: Found) -> bool
    requires { fit_of (plain c) ≤ max_width }
    ensures { result ≡ ltb (cap_in tables.now) (fit_of (plain c)) }
{
    let cap = usize::from(tables[CAP]);
    if cap == PLACES {
        return false;
    }
    cap < (c.forced.count() + c.tying.count()) as usize
}

// What the slot tries: every forced candidate, and one for each tying giver; or, where that exceeds the cap, as many of all candidates.
fn choice_of(tables: &[u16; TABLES], c: Found) -> Choice
    requires { fit_of (plain c) ≤ max_width }
    ensures { result ≡ choice_of (cap_in tables.now) c }
{
    if exceeds(tables, c) {
        return Choice {
            forced: Set::EMPTY,
            among: c.forced.union(c.tied),
            count: usize::from(tables[CAP]),
        };
    }
    Choice {
        forced: c.forced,
        among: c.tied,
        count: c.tying.count() as usize,
    }
}

// ---- the search

// The first mark of a row that begins at a byte.
fn first_mark(byte: u16) -> usize
    ensures { (result ≡ 8 * byte) × (result < 8 * work_size) }
{
    8 * usize::from(byte)
}

// The mark of a state.
fn key_of(tables: &[u16; TABLES], slot: usize, done: Set, ran: Set) -> usize
    requires { (slot ≤ max_limit) × Eight done × Eight ran × ThreesIn tables.now }
    ensures { result ≡ key (marks_in tables.now) slot done ran }
{
    let row = first_mark(tables[MARKS + slot]);
    let of_done = usize::from(tables[THREE + done.bits as usize]);
    let of_ran = usize::from(tables[THREE + ran.bits as usize]);
    row + (of_done + of_ran)
}

impl Slot {
    // Tries a set of places: whether it leads to a plan, and the plan's sets in `path`.
    #[cycle(search)]
    fn try_set(
        self,
        tables: &[u16; TABLES],
        dead: &mut [u8],
        places: Set,
        path: &mut [u8; MAX_SLOTS],
    ) -> bool
        requires { InSlot tables.now (length dead.old) self.index self.here × Subset places ((tables_in tables.now).held self.index)
            × (is_subset (must_at tables.now self.index self.here) places ≡ true) }
        ensures { Told self.index (attempted tables.now self.index self.here places dead.old) path.old result path.new dead.new }
    {
        if explore(
            tables,
            dead,
            self.here.union(places),
            places,
            self.index + 1,
            path,
        ) {
            path[self.index] = places.bits as u8;
            return true;
        }
        false
    }

    // Tries what a number takes of the row, with what is forced, where the slot may have it and it has what must run now.
    #[cycle(search)]
    fn try_number(
        self,
        tables: &[u16; TABLES],
        dead: &mut [u8],
        c: Choice,
        row: &[u8; PLACES],
        number: Set,
        path: &mut [u8; MAX_SLOTS],
    ) -> bool
        requires { InSlot tables.now (length dead.old) self.index self.here × (self.must ≡ must_at tables.now self.index self.here)
            × (number.bits < place_sets) × Takes ((tables_in tables.now).held self.index) c (chosen (row_from row.now max_width) number) }
        ensures { Told self.index (numbered tables.now self.index self.here self.ran c (row_from row.now max_width) number dead.old)
            path.old result path.new dead.new }
    {
        let Some(picked) = pick(tables, self.index, self.ran, row, number) else {
            return false;
        };
        let places = c.forced.union(picked);
        if !self.must.is_subset(places) {
            return false;
        }
        self.try_set(tables, dead, places, path)
    }

    // The sets of a slot in the order of preference: those of the row by falling numbers, with just as many places as the choice says.
    #[cycle(search)]
    fn try_row(
        self,
        tables: &[u16; TABLES],
        dead: &mut [u8],
        c: Choice,
        path: &mut [u8; MAX_SLOTS],
    ) -> bool
        requires { InSlot tables.now (length dead.old) self.index self.here × (self.must ≡ must_at tables.now self.index self.here)
            × Subset c.forced ((tables_in tables.now).held self.index) × Subset c.among ((tables_in tables.now).held self.index) }
        ensures { Told self.index (choice_tries tables.now self.index self.here self.ran c dead.old) path.old result path.new dead.new }
    {
        let mut row = [0; PLACES];
        let size = by_number(tables, self.index, c.among, &mut row);
        for number in numbers(size, c.count) {
            if self.try_number(tables, dead, c, &row, number, path) {
                return true;
            }
        }
        false
    }
}

// The sets of a slot. Most states do not branch: all candidates are the one set.
#[cycle(search)]
fn try_sets(
    tables: &[u16; TABLES],
    dead: &mut [u8],
    done: Set,
    ran: Set,
    slot: usize,
    path: &mut [u8; MAX_SLOTS],
) -> bool
    requires { Opened tables.now (length dead.old) slot done ran }
    ensures { Told slot (slot_tries tables.now slot done ran dead.old)
        path.old result path.new dead.new }
{
    let here = done.minus(set_at(tables, ENDS + slot));
    let c = candidates_at(tables, slot, here, done, ran);
    let able = c.forced.union(c.tied);
    let due = set_at(tables, DUE + (slot + 1));
    let must = due.minus(here);
    if !must.is_subset(able) {
        return false;
    }
    let s = Slot {
        index: slot,
        here,
        ran,
        must,
    };
    if c.shared.is_empty() && !exceeds(tables, c) {
        return s.try_set(tables, dead, able, path);
    }
    s.try_row(tables, dead, choice_of(tables, c), path)
}

// The preferred plan from slot `slot` on: whether there is one, and its sets in `path`. All that is due before the slot is done.
// `dead` has the marks of the states that were found to have none.
// (The sets are written into the caller's array: the memory is fixed, and each slot would copy a plan that is handed back.)
#[cycle(search)]
pub fn explore(
    tables: &[u16; TABLES],
    dead: &mut [u8],
    done: Set,
    ran: Set,
    slot: usize,
    path: &mut [u8; MAX_SLOTS],
) -> bool
    requires { Searchable tables.now (length dead.old)
        × Reached (tables_in tables.now) (slots_in tables.now) (slots_in tables.now - slot) slot done ran
        × (is_subset ((tables_in tables.now).due slot) done ≡ true) }
    ensures found { result ≡ (explored_in tables.now slot done ran dead.old).plan.ok }
    ensures path { path.new
        ≡ written slot (explored_in tables.now slot done ran dead.old).plan.sets path.old }
    ensures dead { dead.new ≡ (explored_in tables.now slot done ran dead.old).dead }
{
    if slot == usize::from(tables[SLOTS]) {
        return true;
    }
    let key = key_of(tables, slot, done, ran);
    if bitmap::marked(dead, key) {
        return false;
    }
    if try_sets(tables, dead, done, ran, slot, path) {
        return true;
    }
    bitmap::mark(dead, key);
    false
}
