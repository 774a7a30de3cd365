// The needs of a job file as rows of bits in a lent slice of bytes: the row of a job has its takers, ROW_BYTES bytes for each job. Mark
// ROW_BITS * giver + taker (crate bitmap) is set where the giver gives to the taker. A row is read a word at a time, each word a set:
// member j of word w is taker WORD_BITS * w + j. Jobs are counted from 0.
#![tactic(auto)]

ghost use Rattle.std.specs.Prelude.{◌≡◌, ◌+◌, ◌*◌, ◌%◌, ◌≤◌, ◌<◌, length};
ghost use Rattle.std.specs.Iterator.{YieldsFirst, item_count};
ghost use Rattle.bitmap.specs.Marks.{with_mark};
ghost use Rattle.needrows.specs.Rows.{row_bytes, row_bits, word_bytes, words_for, without_row, word_from, word_at, takers_of, left_at};

use jobset::Set;
use sizes::MAX_JOBS;

// A row has room for MAX_JOBS takers, in whole words.
pub const ROW_BYTES: usize = 56;

const ROW_BITS: usize = 8 * ROW_BYTES;

const WORD_BYTES: usize = 8;

pub const WORD_BITS: usize = 8 * WORD_BYTES;

// The bytes of the rows of MAX_JOBS jobs.
pub const ROWS_BYTES: usize = ROW_BYTES * MAX_JOBS;

// How many words the takers of a row have, among so many jobs.
pub fn words(jobs: usize) -> usize
    requires { jobs ≤ row_bits }
    ensures { result ≡ words_for jobs }
{
    (jobs + (WORD_BITS - 1)) / WORD_BITS
}

// The job gets no taker.
pub fn clear_row(rows: &mut [u8], job: usize)
    requires { row_bytes * job + row_bytes ≤ length rows.old }
    ensures { rows.new ≡ without_row rows.old job }
{
    let at = ROW_BYTES * job;
    bitmap::clear(&mut rows[at..], ROW_BYTES);
}

// The giver gets the taker.
pub fn add(rows: &mut [u8], giver: usize, taker: usize)
    requires { (giver < row_bits) × (taker < row_bits) × (row_bytes * giver + row_bytes ≤ length rows.old) }
    ensures { rows.new ≡ with_mark rows.old (row_bits * giver + taker) }
{
    bitmap::mark(rows, ROW_BITS * giver + taker);
}

// The eight bytes from one on, as a set.
fn eight_bytes(rows: &[u8], at: usize) -> Set
    requires { at + word_bytes ≤ length rows.now }
    ensures { result ≡ word_from rows.now at }
{
    let mut bytes = [0; WORD_BYTES];
    bytes.copy_from_slice(&rows[at..at + WORD_BYTES]);
    Set {
        bits: u64::from_le_bytes(bytes),
    }
}

// Word w of the giver's row.
pub fn word(rows: &[u8], giver: usize, w: usize) -> Set
    requires { row_bytes * giver + word_bytes * w + word_bytes ≤ length rows.now }
    ensures { result ≡ word_at rows.now giver w }
{
    eight_bytes(rows, ROW_BYTES * giver + WORD_BYTES * w)
}

// The takers of a giver, rising, that are still to come: what `here` has left of the word at byte `at` of the row, and those in the words
// behind it, up to the one at byte `last`. (Places in bytes, not words: so a loop over the takers takes as few steps as one over the words.)
#[derive(Clone, Copy)]
pub struct RowTakers<'a> {
    pub rows: &'a [u8],
    pub giver: usize,
    pub last: usize,
    pub at: usize,
    pub here: Set,
    ghost row_there: { row_bytes * giver + row_bytes ≤ length rows.now },
    ghost last_in_row: { last + word_bytes ≤ row_bytes },
    ghost last_whole: { last % word_bytes ≡ 0 },
    ghost at_in: { at ≤ last },
    ghost at_whole: { at % word_bytes ≡ 0 },
}

impl<'a> Iterator for RowTakers<'a> {
    type Item = usize;

    ghost next_gives = { YieldsFirst (λ s. left_at s.rows.now s.giver s.last s.at s.here) };

    ghost remaining = { item_count (λ s. left_at s.rows.now s.giver s.last s.at s.here) };

    fn next(&mut self) -> Option<usize> {
        // As many turns as there are words without a taker, and one more.
        loop {
            if let Some((member, others)) = self.here.split_first() {
                self.here = others;
                return Some(8 * self.at + member);
            }
            if self.at == self.last {
                return None;
            }
            self.at += WORD_BYTES;
            self.here = eight_bytes(self.rows, ROW_BYTES * self.giver + self.at);
        }
    }
}

// The takers of a giver among so many jobs.
pub fn takers(rows: &[u8], jobs: usize, giver: usize) -> RowTakers<'_>
    requires { (jobs ≤ row_bits) × (giver < jobs) × (row_bytes * jobs ≤ length rows.now) }
    ensures { left_at result.rows.now result.giver result.last result.at result.here ≡ takers_of rows.now jobs giver }
{
    RowTakers {
        rows,
        giver,
        last: WORD_BYTES * (words(jobs) - 1),
        at: 0,
        here: word(rows, giver, 0),
    }
}
