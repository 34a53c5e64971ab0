//! What each test wants, and files of a few sectors.
ghost use Rattle.std.specs.Prelude.{◌≡◌, true, Ok};

use std::process::Abort;

/// A file of eight sectors.
pub(crate) const FILE_BYTES: usize = 4096;

/// What a test wants to hold.
pub(crate) fn expect(rt: &impl Abort, holds: bool)
    ensures { holds ≡ true }
{
    assert!(rt; holds);
}

/// The value of a call that a test wants to succeed.
pub(crate) fn sure<T: Drop, E: Drop>(rt: &impl Abort, answer: Result<T, E>) -> T
    ensures { answer ≡ Ok result }
{
    answer.ok().expect(rt, "no fault")
}

/// The bytes that a test wants.
pub(crate) fn expect_bytes(rt: &impl Abort, found: &[u8], want: &[u8]) {
    expect(rt, found == want);
}

/// A file of eight sectors with these bytes from this sector on, over those of another file.
pub(crate) fn over(rt: &impl Abort, file: &[u8; 4096], sector: usize, bytes: &[u8]) -> [u8; 4096] {
    let mut new = *file;
    expect(rt, sector < 8);
    expect(rt, bytes.len() <= FILE_BYTES - sector * 512);
    new[sector * 512..sector * 512 + bytes.len()].copy_from_slice(bytes);
    new
}

/// A file that has the sectors of the one or of the other, by the bits of a mask.
pub(crate) fn mixed(old: &[u8; 4096], new: &[u8; 4096], mask: u32) -> [u8; 4096] {
    let mut left = *old;
    for (k, sector) in new.chunks(512).enumerate() {
        if k < 8 && sector.len() == 512 && (mask >> k as u32) % 2 == 1 {
            left[k * 512..k * 512 + 512].copy_from_slice(sector);
        }
    }
    left
}
