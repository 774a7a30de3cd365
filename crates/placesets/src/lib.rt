// The places of a slot as a row by job number, and the sets of places that numbers take of a row: in the order of preference, since a slot's jobs are
// compared from the lowest number up. The tables are those of crate layout.
#![tactic(auto)]

ghost use Rattle.std.specs.Prelude.{◌≡◌, [], true, ◌^◌, ◌<◌, ◌≤◌, length, MatchOption};
ghost use Rattle.std.specs.Iterator.{YieldsFirst, item_count};
ghost use Rattle.rules.specs.Sizes.{max_limit, max_width};
ghost use Rattle.rules.specs.Basics.{at};
ghost use Rattle.jobset.specs.Sets.{member, members};
ghost use Rattle.threes.specs.Threes.{Eight};
ghost use Rattle.places.specs.Slot.{near_at};
ghost use Rattle.layout.specs.Layout.{tables_in};
ghost use Rattle.placesets.specs.Listing.{later_of, Last, Listable, Listed};
ghost use Rattle.placesets.specs.Numbers.{digits_of, numbers_below, numbers_from};
ghost use Rattle.placesets.specs.Picking.{picked_of};

use jobset::Set;
use layout::{PREV, TABLES, WHO, set_at};
use sizes::PLACES;

// The givers in the slot before of the job at place p of the slot.
pub fn givers_at(tables: &[u16; TABLES], slot: usize, p: usize) -> Set
    requires { (slot < max_limit) × (p < 64) }
    ensures { result ≡ (tables_in tables.now).prev slot p }
{
    set_at(tables, PREV + PLACES * slot + p)
}

// ---- a row of places by job number

// Of two places of a slot the one with the higher job.
fn later(tables: &[u16; TABLES], slot: usize, p: usize, q: usize) -> usize
    requires { (slot < max_limit) × (p < max_width) × (q < max_width) }
    ensures { result ≡ later_of ((tables_in tables.now).who slot) p q }
{
    let first = WHO + PLACES * slot;
    if tables[first + p] < tables[first + q] {
        return q;
    }
    p
}

// The place with the highest job of a set; none where it is empty.
fn last_place(tables: &[u16; TABLES], slot: usize, places: Set) -> Option<usize>
    requires { (slot < max_limit) × Eight places }
    ensures { MatchOption result (members places ≡ []) (λ last. Last ((tables_in tables.now).who slot) places last) }
{
    let (first, others) = places.split_first()?;
    let mut last = first;
    for p in others {
        last = later(tables, slot, last, p);
    }
    Some(last)
}

// The places of a set by falling job number; gives how many.
pub fn by_number(tables: &[u16; TABLES], slot: usize, places: Set, row: &mut [u8; PLACES]) -> usize
    requires { (slot < max_limit) × (length row.old ≡ max_width) × Listable ((tables_in tables.now).who slot) places }
    ensures { Listed ((tables_in tables.now).who slot) places row.new result }
{
    let mut rest = places;
    let mut count = 0;
    // No `for` over the set: each turn takes the highest job of those that are left.
    while let Some(p) = last_place(tables, slot, rest) {
        row[count] = p as u8;
        rest = rest.without(p);
        count += 1;
    }
    count
}

// ---- the sets of a row

// Falling numbers with as many binary digits 1: the next of them, if there is one. Each is the set of its digits 1.
#[derive(Clone, Copy)]
pub struct FallingNumbers {
    pub next: Option<u8>,
}

impl Iterator for FallingNumbers {
    type Item = Set;

    ghost next_gives = { YieldsFirst (λ s. numbers_from s.next) };

    ghost remaining = { item_count (λ s. numbers_from s.next) };

    fn next(&mut self) -> Option<Set> {
        let number = self.next?;
        self.next = next_lower(number);
        Some(Set::of_byte(number))
    }
}

// The numbers below 1 << size with just so many binary digits 1, from the highest down.
pub fn numbers(size: usize, count: usize) -> FallingNumbers
    requires { size ≤ max_width }
    ensures { numbers_from result.next ≡ numbers_below count (2 ^ size) }
{
    FallingNumbers {
        next: highest(size, count),
    }
}

// The highest of them, if there is one.
fn highest(size: usize, count: usize) -> Option<u8>
    requires { size ≤ max_width }
    ensures { numbers_from result ≡ numbers_below count (2 ^ size) }
{
    if size < count {
        return None;
    }
    let all: u64 = 1 << size;
    let low: u64 = 1 << (size - count);
    Some((all - low) as u8)
}

// The highest below a number with as many digits 1. The number and one more have in common what is above its lowest 0; the lowest 1 of
// that moves down by one, and the ones below the 0 follow right behind it.
fn next_lower(number: u8) -> Option<u8>
    ensures { numbers_from result ≡ numbers_below (digits_of number) number }
{
    let above = Set {
        bits: u64::from(number) + 1,
    };
    let upper = Set::of_byte(number).intersection(above);
    if upper.is_empty() {
        return None;
    }
    let moved = upper.lowest() - above.lowest() - 1;
    Some((upper.bits - (1 << moved)) as u8)
}

// What a number takes of the row, place k where it has the binary digit k; none where two of them share a giver in the slot before.
pub fn pick(
    tables: &[u16; TABLES],
    slot: usize,
    ran: Set,
    row: &[u8; PLACES],
    number: Set,
) -> Option<Set>
    requires { (slot < max_limit) × ((k : _) → member number k ≡ true → (k < max_width) × (at row.now k < 64)) }
    ensures { result ≡ picked_of (near_at (tables_in tables.now) slot ran) row.now number }
{
    let mut places = Set::EMPTY;
    let mut givers = Set::EMPTY;
    for k in number {
        let p = usize::from(row[k]);
        let near = givers_at(tables, slot, p).intersection(ran);
        let both = givers.intersection(near);
        if !both.is_empty() {
            return None;
        }
        places = places.with(p);
        givers = givers.union(near);
    }
    Some(places)
}
