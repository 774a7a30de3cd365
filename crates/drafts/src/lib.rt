// Small job files for test programs, written at the front of a lent array. Each job has the name `a` and level 0.
#![tactic(auto)]

ghost use Rattle.std.specs.Prelude.{◌≡◌, ◌+◌, ◌-◌, ◌*◌, ◌/◌, ◌<◌, ◌≤◌, length, take};

use sizes::TABLE_BYTES;

// A field, behind so many bytes: its tag, the length of its value, and the value. Gives the length with it.
fn put_field(file: &mut [u8; TABLE_BYTES], at: usize, tag: u8, value: &[u8]) -> usize
    requires { (at + 3 + length value.now ≤ 7606) × (length value.now < 256) }
    ensures { result ≡ at + 3 + length value.now }
{
    let start = at + 3;
    let end = start + value.len();
    file[at..start].copy_from_slice(&[tag, value.len() as u8, 0]);
    file[start..end].copy_from_slice(value);
    end
}

// Header, limit and so many jobs. Gives their length.
pub fn put_jobs(file: &mut [u8; TABLE_BYTES], limit: u8, count: usize) -> usize
    requires { count ≤ 401 }
    ensures { result ≡ 8 + 6 * count }
{
    let mut at = put_field(file, 0, 1, &[1]);
    at = put_field(file, at, 2, &[limit]);
    for _ in 0..count {
        at = put_field(file, at, 3, &[0, 0, b'a']);
    }
    at
}

// A need, behind so many bytes. Gives the length with it.
pub fn put_need(file: &mut [u8; TABLE_BYTES], at: usize, giver: u8, taker: u8) -> usize
    requires { at ≤ 7601 }
    ensures { result ≡ at + 5 }
{
    put_field(file, at, 4, &[giver, taker])
}

// The most boards, behind so many bytes. Gives the length with them.
pub fn put_sockets(file: &mut [u8; TABLE_BYTES], at: usize, boards: u8) -> usize
    requires { at ≤ 7602 }
    ensures { result ≡ at + 4 }
{
    put_field(file, at, 9, &[boards])
}

// A need with numbers of two bytes, behind so many bytes. Gives the length with it.
pub fn put_wide_need(file: &mut [u8; TABLE_BYTES], at: usize, giver: u16, taker: u16) -> usize
    requires { at ≤ 7599 }
    ensures { result ≡ at + 7 }
{
    let [giver_low, giver_high] = giver.to_le_bytes();
    let [taker_low, taker_high] = taker.to_le_bytes();
    put_field(file, at, 6, &[giver_low, giver_high, taker_low, taker_high])
}

// A need to a later job, with numbers of one byte where one byte holds both, behind so many bytes. Gives the length with it.
fn put_short_need(file: &mut [u8; TABLE_BYTES], at: usize, giver: u16, taker: u16) -> usize
    requires { (at ≤ 7599) × (giver ≤ taker) × (taker < 512) }
    ensures { result ≡ at + 5 + 2 * (taker / 256) }
{
    if taker < 256 {
        return put_need(file, at, giver as u8, taker as u8);
    }
    put_wide_need(file, at, giver, taker)
}

// Behind so many bytes, so many chains side by side, of so many jobs in all: a need to each job from the one that stands as many jobs earlier as there are
// chains. Gives the length with them.
pub fn put_chains(file: &mut [u8; TABLE_BYTES], from: usize, chains: u16, jobs: u16) -> usize
    requires { (from ≤ 2414) × (chains ≤ 8) × (jobs ≤ 401) }
    ensures { result ≡ from + 5 * (jobs - chains) + 2 * (jobs - 255) }
{
    let mut at = from;
    for taker in 1 + chains..=jobs {
        at = put_short_need(file, at, taker - chains, taker);
    }
    at
}

// So many bytes of the front, or all where there are fewer.
pub fn front(file: &[u8; TABLE_BYTES], count: usize) -> &[u8]
    ensures { result.now ≡ take count file.now }
{
    &file[..count.min(TABLE_BYTES)]
}
