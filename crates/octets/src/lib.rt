// Bytes in lent slices: copied, and read and written as numbers, the lowest byte first.
#![tactic(auto)]

ghost use Rattle.std.specs.Prelude.{◌≡◌, length, take};
ghost use Rattle.octets.specs.Numbers.{value_of, digits};
ghost use Rattle.octets.specs.Copies.{copied};

// Copies `from` to the front of `to`, or as much of it as `to` has room for. Byte by byte: the compiler makes a loop of it in the caller, and nothing is called
// from the library for C.
#[tactic(auto, using(crate::proofs::CopyLaws::copied_at))]
pub fn copy(from: &[u8], to: &mut [u8])
    ensures { to.new ≡ copied from.now to.old }
{
    let n = from.len().min(to.len());
    for i in 0..n {
        to[i] = from[i];
    }
}

// The number that the first eight bytes are, or as many of them as there are.
#[tactic(auto, using(crate::proofs::NumberLaws::value_of_copied))]
pub fn number(bytes: &[u8]) -> u64
    ensures { result ≡ value_of (take 8 bytes.now) }
{
    let mut eight = [0u8; 8];
    copy(bytes, &mut eight);
    u64::from_le_bytes(eight)
}

// Fills the slice with the lowest bytes of a number.
pub fn put_number(out: &mut [u8], x: u64)
    ensures { out.new ≡ digits (length out.old) x }
{
    let mut rest = x;
    for byte in out.iter_mut() {
        *byte = (rest % 256) as u8;
        rest /= 256;
    }
}
