//! CRC-32C, sixteen bytes at a time, by tables of the remainders of each byte with zeros after it.
ghost use Rattle.std.specs.Prelude.{◌≡◌, ◌≤◌, ◌<◌, bit_xor};
ghost use Rattle.tb_sectors.specs.Checksum.{byte_on, remainder, zeros_on};

use crate::tables::REMAINDERS;

// The remainder after these bytes, sixteen at a time.
pub fn remainder_after(start: u32, bytes: &[u8]) -> u32
    ensures { result ≡ remainder bytes.now start }
{
    let mut sum = start;
    let mut rest = bytes;
    while let [a, b, c, d, e, f, g, h, i, j, k, l, m, n, o, p, behind @ ..] = rest {
        let first = u32::from_le_bytes([*a, *b, *c, *d]);
        let second = u32::from_le_bytes([*e, *f, *g, *h]);
        let third = u32::from_le_bytes([*i, *j, *k, *l]);
        let fourth = u32::from_le_bytes([*m, *n, *o, *p]);
        // What does not need the sum comes first: compiled code adds in the order of the calls.
        let others = word_after(second, 12) ^ word_after(third, 8) ^ word_after(fourth, 4);
        sum = word_after(sum ^ first, 16) ^ others;
        rest = behind;
    }
    bytes_after(sum, rest)
}

// The remainder after these bytes, one by one.
fn bytes_after(start: u32, bytes: &[u8]) -> u32
    ensures { result ≡ remainder bytes.now start }
{
    let mut sum = start;
    for byte in bytes {
        sum = remainder_on(sum, *byte);
    }
    sum
}

// The remainder after one byte.
fn remainder_on(sum: u32, byte: u8) -> u32
    ensures { result ≡ byte_on (bit_xor sum byte) }
{
    let mixed = sum ^ byte as u32;
    let low = byte_after((mixed & 0xff) as usize, 1);
    low ^ (sum >> 8)
}

// The remainder of four bytes after so many bytes of zeros.
fn word_after(word: u32, zeros: usize) -> u32
    requires least { 4 ≤ zeros }
    requires most { zeros ≤ 16 }
    ensures { result ≡ zeros_on zeros word }
{
    byte_after((word & 0xff) as usize, zeros)
        ^ byte_after((word >> 8 & 0xff) as usize, zeros - 1)
        ^ byte_after((word >> 16 & 0xff) as usize, zeros - 2)
        ^ byte_after((word >> 24) as usize, zeros - 3)
}

// The remainder of a byte after so many bytes of zeros.
fn byte_after(byte: usize, zeros: usize) -> u32
    requires byte { byte < 256 }
    requires least { 1 ≤ zeros }
    requires most { zeros ≤ 16 }
    ensures { result ≡ zeros_on zeros byte }
{
    REMAINDERS[zeros - 1][byte]
}
