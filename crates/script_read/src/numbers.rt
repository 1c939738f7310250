// Numbers of a script: little-endian, of up to four bytes, signed or not.
ghost use Rattle.std.specs.Prelude.{◌≡◌, ◌+◌, ◌<◌, ◌≤◌, length};
ghost use Rattle.laws.specs.Digits.{little};
ghost use Rattle.rules.specs.Script.{number_at, signed};

// The number that the bytes hold, from the highest byte down. By hand: `from_le_bytes` takes one length, and fields have one, two or
// four bytes.
#[tactic(auto, using(crate::proofs::Bytes::bytes_steps))]
pub fn number(bytes: &[u8]) -> usize
    requires { length bytes.now ≤ 4 }
    ensures { (result ≡ little bytes.now) × (result < 4294967296) }
{
    let mut sum = 0;
    for &byte in bytes.iter().rev() {
        sum = sum * 256 + byte as usize;
    }
    sum
}

// The number that some bytes from a place on hold.
pub fn number_at(bytes: &[u8], at: usize, count: usize) -> usize
    requires { (count ≤ 4) × (at + count ≤ length bytes.now) }
    ensures { (result ≡ number_at bytes.now at count) × (result < 4294967296) }
{
    number(&bytes[at..at + count])
}

// A number of four bytes, as a signed one: the upper half are the numbers from -1 down.
#[tactic(auto, using(crate::proofs::Signs::signed_is, crate::proofs::Signs::signed_back))]
pub fn signed(number: usize) -> i32
    requires { number < 4294967296 }
    ensures { result ≡ signed number }
{
    (number as u32).cast_signed()
}
