// The width of at most five jobs without a circle, by formulas (1) and (2) of document 000, section 3.2, as document 01 has them.
//
// A deadline is kept as what it lacks of the limit: formula (2) is then formula (1) with giver and taker exchanged.
use crate::draw::{Needs, Sizes};

// The needs with giver and taker exchanged: a row for each taker.
fn exchanged(needs: &Needs) -> Needs {
    let mut rows = [[false; 5]; 5];
    for giver in 0..5 {
        for taker in 0..5 {
            rows[taker][giver] = needs[giver][taker];
        }
    }
    rows
}

// Formula (1) at a job with these givers: one more than the largest of their releases, and one more again where two have it; 0 without givers.
fn release(givers: &[bool; 5], releases: &[u8; 5]) -> u8 {
    let last = givers
        .iter()
        .zip(releases)
        .filter_map(|(gives, release)| gives.then_some(*release))
        .max();
    let Some(last) = last else {
        return 0;
    };
    let foremost = givers
        .iter()
        .zip(releases)
        .filter(|(gives, release)| **gives && **release == last)
        .count();
    last.saturating_add(if foremost > 1 { 2 } else { 1 })
}

// Five rounds of the formula, which are enough for five jobs, by the givers of each job.
fn release_all(givers: &Needs) -> [u8; 5] {
    let mut releases = [0; 5];
    for _ in 0..5 {
        for job in 0..5 {
            releases[job] = release(&givers[job], &releases);
        }
    }
    releases
}

// How many windows hold the slot: each from the release on, with as many slots behind it as the deadline lacks of the limit.
fn held(sizes: Sizes, releases: &[u8; 5], lacks: &[u8; 5], slot: u8) -> usize {
    releases
        .iter()
        .zip(lacks)
        .take(sizes.jobs)
        .filter(|(release, lack)| **release <= slot && lack.saturating_add(slot) < sizes.limit)
        .count()
}

// The largest number of windows that hold one slot.
pub(crate) fn width(needs: &Needs, sizes: Sizes) -> usize {
    let releases = release_all(&exchanged(needs));
    let lacks = release_all(needs);
    (0..sizes.limit)
        .map(|slot| held(sizes, &releases, &lacks, slot))
        .max()
        .unwrap_or(0)
}
