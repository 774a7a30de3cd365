// Numbers, fields and names of a file: a field is a one-byte tag, a two-byte length and that many value bytes.
#![tactic(auto)]

ghost use Rattle.std.specs.Prelude.{◌≡◌, ◌+◌, ◌<◌, ◌≤◌, length, drop, T};
ghost use Rattle.rules.specs.Basics.{at, all};
ghost use Rattle.rules.specs.Numbers.{word};
ghost use Rattle.rules.specs.Fields.{value, whole};
ghost use Rattle.rules.specs.JobFile.{name_byte};

// The lowest byte of a name.
const LOWEST: u8 = 33;

// The highest one.
const HIGHEST: u8 = 126;

// The two-byte number at an offset, low byte first.
pub fn word_at(bytes: &[u8], offset: usize) -> u16
    requires { offset + 1 < length bytes.now }
    ensures { result ≡ word (at bytes.now offset) (at bytes.now (offset + 1)) }
{
    u16::from_le_bytes([bytes[offset], bytes[offset + 1]])
}

// Are head and value of the field at an offset whole?
pub fn is_whole(bytes: &[u8], offset: usize) -> bool
    requires { offset ≤ length bytes.now }
    ensures { result ≡ whole bytes.now offset }
{
    let left = bytes.len() - offset;
    if left < 3 {
        return false;
    }
    usize::from(word_at(bytes, offset + 1)) <= left - 3
}

// The value of the field at an offset: the part of the file behind its head.
pub fn value_at(bytes: &[u8], offset: usize) -> &[u8]
    requires { T (whole bytes.now offset) }
    ensures { result.now ≡ value bytes.now offset }
{
    let start = offset + 3;
    let end = start + usize::from(word_at(bytes, offset + 1));
    &bytes[start..end]
}

// Is each byte of the name behind the level one that a name may have?
pub fn name_ok(v: &[u8]) -> bool
    requires { 2 ≤ length v.now }
    ensures { result ≡ all name_byte (drop 2 v.now) }
{
    v[2..].iter().all(|c| (LOWEST..=HIGHEST).contains(c))
}
