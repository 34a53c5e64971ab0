//! Numbers in bytes, the lowest byte first: each is written to, or read from, its place in a frame or record.
ghost use Rattle.std.specs.Prelude.{◌≡◌, ◌+◌, ◌≤◌, ◌<◌, ◌^◌, ◌++◌, length, take};
ghost use Rattle.tb_records.specs.Numbers.{le_bytes, le_at};

use byteorder::{ByteOrder, LittleEndian};

/// Writes 16 bytes at a place, as two halves of 8: each half is one store; the compiler would split a whole number into its bytes.
pub(crate) fn put_u128(out: &mut [u8], at: usize, number: u128)
    requires { at + 16 ≤ length out.old }
    ensures written { take (at + 16) out.new ≡ take at out.old ++ le_bytes 16 number }
    ensures fits { number < 2 ^ 128 }
{
    let base = 0x1_0000_0000_0000_0000;
    put_u64(out, at, (number % base) as u64);
    put_u64(out, at + 8, (number / base) as u64);
}

/// Writes 8 bytes at a place.
pub(crate) fn put_u64(out: &mut [u8], at: usize, number: u64)
    requires { at + 8 ≤ length out.old }
    ensures written { take (at + 8) out.new ≡ take at out.old ++ le_bytes 8 number }
    ensures fits { number < 2 ^ 64 }
{
    LittleEndian::write_u64(&mut out[at..at + 8], number);
}

/// Writes 4 bytes at a place.
pub(crate) fn put_u32(out: &mut [u8], at: usize, number: u32)
    requires { at + 4 ≤ length out.old }
    ensures written { take (at + 4) out.new ≡ take at out.old ++ le_bytes 4 number }
    ensures fits { number < 2 ^ 32 }
{
    LittleEndian::write_u32(&mut out[at..at + 4], number);
}

/// Writes 2 bytes at a place.
pub(crate) fn put_u16(out: &mut [u8], at: usize, number: u16)
    requires { at + 2 ≤ length out.old }
    ensures written { take (at + 2) out.new ≡ take at out.old ++ le_bytes 2 number }
    ensures fits { number < 2 ^ 16 }
{
    LittleEndian::write_u16(&mut out[at..at + 2], number);
}

/// Writes 1 byte at a place.
#[tactic(auto, using(crate::proofs::NumberBytes::put_byte))]
pub(crate) fn put_u8(out: &mut [u8], at: usize, number: u8)
    requires { at + 1 ≤ length out.old }
    ensures written { take (at + 1) out.new ≡ take at out.old ++ le_bytes 1 number }
    ensures fits { number < 2 ^ 8 }
{
    out[at] = number;
}

/// The number in the 16 bytes at a place.
pub(crate) fn u128_at(bytes: &[u8], at: usize) -> u128
    requires { at + 16 ≤ length bytes.now }
    ensures number { result ≡ le_at 16 at bytes.now }
    ensures spelled { take (at + 16) bytes.now ≡ take at bytes.now ++ le_bytes 16 result }
{
    LittleEndian::read_u128(&bytes[at..])
}

/// The number in the 8 bytes at a place.
pub(crate) fn u64_at(bytes: &[u8], at: usize) -> u64
    requires { at + 8 ≤ length bytes.now }
    ensures number { result ≡ le_at 8 at bytes.now }
    ensures spelled { take (at + 8) bytes.now ≡ take at bytes.now ++ le_bytes 8 result }
{
    LittleEndian::read_u64(&bytes[at..])
}

/// The number in the 4 bytes at a place.
pub(crate) fn u32_at(bytes: &[u8], at: usize) -> u32
    requires { at + 4 ≤ length bytes.now }
    ensures number { result ≡ le_at 4 at bytes.now }
    ensures spelled { take (at + 4) bytes.now ≡ take at bytes.now ++ le_bytes 4 result }
{
    LittleEndian::read_u32(&bytes[at..])
}

/// The number in the 2 bytes at a place.
pub(crate) fn u16_at(bytes: &[u8], at: usize) -> u16
    requires { at + 2 ≤ length bytes.now }
    ensures number { result ≡ le_at 2 at bytes.now }
    ensures spelled { take (at + 2) bytes.now ≡ take at bytes.now ++ le_bytes 2 result }
{
    LittleEndian::read_u16(&bytes[at..])
}

/// The byte at a place, as a number.
pub(crate) fn u8_at(bytes: &[u8], at: usize) -> u8
    requires { at + 1 ≤ length bytes.now }
    ensures number { result ≡ le_at 1 at bytes.now }
    ensures spelled { take (at + 1) bytes.now ≡ take at bytes.now ++ le_bytes 1 result }
{
    bytes[at]
}

/// The number in the 3 bytes at a place.
pub(crate) fn u24_at(bytes: &[u8], at: usize) -> u32
    requires { at + 3 ≤ length bytes.now }
    ensures { result ≡ le_at 3 at bytes.now }
{
    LittleEndian::read_u24(&bytes[at..])
}

/// The number in the 12 bytes at a place.
pub(crate) fn u96_at(bytes: &[u8], at: usize) -> u128
    requires { at + 12 ≤ length bytes.now }
    ensures { result ≡ le_at 12 at bytes.now }
{
    LittleEndian::read_uint128(&bytes[at..], 12)
}
