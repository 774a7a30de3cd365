// The planner's answer for test programs: what its form for C gives as one number, and what a call leaves in both buffers.
#![tactic(auto)]

ghost use Rattle.std.specs.Prelude.{◌≡◌, ◌+◌, ◌<◌, ◌&&◌, take, drop, OnOk, IfOk, IfErr};
ghost use Rattle.trials.specs.Buffers.{each, zeros, written};

use sizes::WORK_BYTES;

// The form for C gives a refusal as this and the number of the question.
const REFUSED: u32 = 65536;

// The length of the table, or the number of the question that said no, from the number that the form for C gives.
pub fn answer(number: u32) -> Result<usize, u32>
    ensures short { OnOk result (number < 65536) }
    ensures table { IfOk result (λ size. size ≡ number) }
    ensures refused { IfErr result (λ question. question + 65536 ≡ number) }
{
    match number.checked_sub(REFUSED) {
        Some(question) => Err(question),
        None => Ok(number as usize),
    }
}

// How many bytes of the working buffer are zero after a call.
fn zeroed(answer: Result<usize, u32>) -> usize
    ensures { result ≡ zeros answer }
{
    if answer == Err(1) { 0 } else { WORK_BYTES }
}

// Is each byte this one? (No `all`: it stops at the first that is not, so that the compiler cannot compare many at once.)
fn all_are(bytes: &[u8], value: u8) -> bool
    ensures { result ≡ each value bytes.now }
{
    let mut so_far = true;
    for byte in bytes {
        so_far &= *byte == value;
    }
    so_far
}

// Is each of so many bytes in front this one?
fn front_is(bytes: &[u8], count: usize, value: u8) -> bool
    ensures { result ≡ each value (take count bytes.now) }
{
    all_are(&bytes[..count.min(bytes.len())], value)
}

// Is each byte behind so many this one?
fn rest_is(bytes: &[u8], count: usize, value: u8) -> bool
    ensures { result ≡ each value (drop count bytes.now) }
{
    all_are(&bytes[count.min(bytes.len())..], value)
}

// Are both buffers as this answer leaves them, where each byte was noise before the call? Those of the working buffer that are used are zero, those of the
// table buffer up to the table's end are the table, and all others are noise still.
pub fn clean(answer: Result<usize, u32>, noise: u8, work: &[u8], table: &[u8]) -> bool
    ensures { result ≡ ((each 0 (take (zeros answer) work.now) && each noise (drop (zeros answer) work.now)) && each noise (drop (written answer) table.now)) }
{
    let used = zeroed(answer);
    let size = answer.unwrap_or(0);
    front_is(work, used, 0) && rest_is(work, used, noise) && rest_is(table, size, noise)
}
