// A bitmap in a lent slice of bytes: mark k is binary digit k % 8 of byte k / 8.
#![tactic(auto)]

ghost use Rattle.std.specs.Prelude.{◌≡◌, ◌*◌, ◌<◌, ◌≤◌, length};
ghost use Rattle.bitmap.specs.Marks.{is_marked, with_mark, cleared};

// Is mark k set?
pub fn marked(bytes: &[u8], k: usize) -> bool
    requires { k < 8 * length bytes.now }
    ensures { result ≡ is_marked bytes.now k }
{
    let i = k / 8;
    (bytes[i] >> (k % 8)) % 2 == 1
}

// Sets mark k.
pub fn mark(bytes: &mut [u8], k: usize)
    requires { k < 8 * length bytes.old }
    ensures { bytes.new ≡ with_mark bytes.old k }
{
    let i = k / 8;
    bytes[i] |= 1 << (k % 8);
}

// Clears the first n bytes.
pub fn clear(bytes: &mut [u8], n: usize)
    requires { n ≤ length bytes.old }
    ensures { bytes.new ≡ cleared n bytes.old }
{
    bytes[..n].fill(0);
}
