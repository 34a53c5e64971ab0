//! How the bytes of a journal are read: the head of a block, and CRC-32C, sixteen bytes at a time, by tables of the remainders of each byte with
//! zeros after it.
ghost use Rattle.std.specs.Prelude.{◌≡◌, [], ◌∷◌, ◌≤◌, ◌<◌, ◌++◌, bit_xor};
ghost use Rattle.tb_file_journal.specs.Contents.{is_closed, front, behind_latch};
ghost use Rattle.tb_file_journal.specs.Reading.{head_is, asked_bytes};
ghost use Rattle.tb_file_journal.specs.Checksum.{byte_on, remainder, checksum, zeros_on};

use crate::tables::REMAINDERS;

/// The first bytes of a journal's file.
pub const MAGIC: [u8; 8] = [b'T', b'B', b'J', b'R', b'N', b'L', b'0', b'2'];

// What is at the head of some bytes.
#[derive(Clone, Copy, PartialEq, Eq)]
pub enum Head {
    End,
    Spoiled,
    // A whole block, whose record has this length.
    Whole(usize),
}

// The offset at which the records end, and their number.
#[derive(Clone, Copy)]
pub struct Extent {
    pub end: usize,
    pub count: usize,
}

/// Why a file is refused.
#[derive(Clone, Copy, Debug, PartialEq, Eq)]
pub enum Refusal {
    /// It does not begin with the journal's first bytes.
    NotAJournal,
    /// A block is not whole, or its checksum does not match; its latch is at this offset.
    Damaged { at: usize },
}

// Returns whether these bytes are a closed latch.
pub fn is_closed(w: u8, x: u8, y: u8, z: u8) -> bool
    ensures { result ≡ is_closed w x y z }
{
    w == 90 && x == 195 && y == 150 && z == 105
}

// The number of bytes from a place on that decide what is there.
pub fn asked(bytes: &[u8]) -> usize
    ensures { result ≡ asked_bytes bytes.now }
{
    match bytes {
        [w, x, y, z, a, b, c, ..] if !is_closed(*w, *x, *y, *z) => {
            11 + u32::from_le_bytes([*a, *b, *c, 0]) as usize
        }
        _ => 11,
    }
}

// What is at the head of these bytes.
pub fn head_of(bytes: &[u8]) -> Head
    ensures { result ≡ head_is (front bytes.now) }
{
    match bytes {
        [w, x, y, z, ..] if is_closed(*w, *x, *y, *z) => Head::End,
        [_, _, _, _, a, b, c, s, t, u, v, rest @ ..] => {
            let sum = u32::from_le_bytes([*s, *t, *u, *v]);
            head_behind_latch(*a, *b, *c, sum, rest)
        }
        _ => Head::Spoiled,
    }
}

// The length has three bytes.
#[tactic(auto, using(crate::proofs::Heads::too_short, crate::proofs::Heads::whole_there, crate::proofs::Heads::other_sum))]
fn head_behind_latch(a: u8, b: u8, c: u8, sum: u32, rest: &[u8]) -> Head
    ensures { result ≡ head_is (behind_latch (a ∷ b ∷ c ∷ []) sum rest.now) }
{
    let size = u32::from_le_bytes([a, b, c, 0]);
    let count = size as usize;
    if count > rest.len() {
        return Head::Spoiled;
    }
    let (content, _) = rest.split_at(count);
    if checksum_of(&[a, b, c], content) == sum {
        Head::Whole(count)
    } else {
        Head::Spoiled
    }
}

/// The checksum of some bytes and then others, in one pass.
#[tactic(auto, using(crate::proofs::Remainders::remainder_append))]
pub fn checksum_of(first: &[u8], others: &[u8]) -> u32
    ensures { result ≡ checksum (first.now ++ others.now) }
{
    remainder_after(remainder_after(0xFFFF_FFFF, first), others) ^ 0xFFFF_FFFF
}

// The remainder after these bytes, sixteen at a time.
fn remainder_after(start: u32, bytes: &[u8]) -> u32
    ensures { result ≡ remainder bytes.now start }
{
    let mut sum = start;
    let mut rest = bytes;
    while let [a, b, c, d, e, f, g, h, i, j, k, l, m, n, o, p, behind @ ..] = rest {
        let first = u32::from_le_bytes([*a, *b, *c, *d]);
        let second = u32::from_le_bytes([*e, *f, *g, *h]);
        let third = u32::from_le_bytes([*i, *j, *k, *l]);
        let fourth = u32::from_le_bytes([*m, *n, *o, *p]);
        // What does not need the sum comes first: compiled code adds in the order of the calls.
        let others = word_after(second, 12) ^ word_after(third, 8) ^ word_after(fourth, 4);
        sum = word_after(sum ^ first, 16) ^ others;
        rest = behind;
    }
    bytes_after(sum, rest)
}

// The remainder after these bytes, one by one.
fn bytes_after(start: u32, bytes: &[u8]) -> u32
    ensures { result ≡ remainder bytes.now start }
{
    let mut sum = start;
    for byte in bytes {
        sum = remainder_on(sum, *byte);
    }
    sum
}

// The remainder after one byte.
fn remainder_on(sum: u32, byte: u8) -> u32
    ensures { result ≡ byte_on (bit_xor sum byte) }
{
    let mixed = sum ^ byte as u32;
    let low = byte_after((mixed & 0xff) as usize, 1);
    low ^ (sum >> 8)
}

// The remainder of four bytes after so many bytes of zeros.
fn word_after(word: u32, zeros: usize) -> u32
    requires least { 4 ≤ zeros }
    requires most { zeros ≤ 16 }
    ensures { result ≡ zeros_on zeros word }
{
    byte_after((word & 0xff) as usize, zeros)
        ^ byte_after((word >> 8 & 0xff) as usize, zeros - 1)
        ^ byte_after((word >> 16 & 0xff) as usize, zeros - 2)
        ^ byte_after((word >> 24) as usize, zeros - 3)
}

// The remainder of a byte after so many bytes of zeros.
fn byte_after(byte: usize, zeros: usize) -> u32
    requires byte { byte < 256 }
    requires least { 1 ≤ zeros }
    requires most { zeros ≤ 16 }
    ensures { result ≡ zeros_on zeros byte }
{
    REMAINDERS[zeros - 1][byte]
}
