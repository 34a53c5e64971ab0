//! The sectors of a file read in order: which bytes of the stream are those of whole batches, where it ends, and what is damaged.
ghost use Rattle.std.specs.Prelude.{◌≡◌, ◌≤◌, ◌<◌, ◌+◌, ◌%◌, ◌^◌, ◌==◌, ◌&&◌, nat_lt, nat_le, if◌then◌else◌, take, drop, length, Some, None, IfOk, OnErr};
ghost use Rattle.tb_sectors.specs.Stamped.{Taken, nothing_taken, is_intact, decoded, stamped, begins_in, read_on, file_sectors};
ghost use Rattle.tb_sectors.specs.Reading.{TakesSector, IsReadOn};

use crate::checksums::remainder_after;
use crate::encoding::{BYTES_IN_A_SECTOR, SECTOR_BYTES};
use std::alloc::{AllocError, Global};
use std::marker::Model;

// The numbers of a sector's stamp.
#[derive(Clone, Copy)]
struct Stamp {
    number: u64,
    begun: u16,
    used: u16,
    ends: u16,
    closed: bool,
}

/// What was read of a journal, from its first sector on.
#[derive(Drop)]
pub struct SectorReader {
    count: usize,
    number: u64,
    // The bytes of all sectors that were taken, and how many of them are those of whole batches.
    stream: Vec<u8>,
    whole: usize,
    // The latch of the last one is closed.
    closed: bool,
}

impl Model for SectorReader {
    ghost Value = { Taken };

    ghost view = { λ r. record { count = r.count; number = r.number; whole = take r.whole r.stream.items; all = r.stream.items; closed = r.closed } };

    ghost invariant = { λ r. r.whole ≤ length r.stream.items };
}

impl SectorReader {
    /// Nothing was read yet.
    pub fn new(alloc: Global) -> SectorReader
        ensures { result ≡ nothing_taken }
    {
        SectorReader {
            count: 0,
            number: 0,
            stream: Vec::new(alloc),
            whole: 0,
            closed: false,
        }
    }

    /// Takes the next sector if it follows those that were taken and no latch is closed, and returns whether it does. If not, or at an `Err`, nothing
    /// has changed.
    pub fn take(&mut self, sector: &[u8]) -> Result<bool, AllocError>
        requires sector { length sector.now ≡ 512 }
        requires near { self.old.count < 2 ^ 62 }
        ensures taken { IfOk result (λ next. TakesSector next (stamped sector.now) self.old self.new) }
        ensures err { OnErr result (self.new ≡ self.old) }
    {
        let stamp = stamp_of(sector);
        if self.closed || !is_next(self.number, &stamp) {
            return Ok(false);
        }
        let bytes = bytes_of(sector, stamp.used);
        let before = self.stream.len();
        self.stream.extend_from_slice(bytes)?;
        self.whole = whole_after(stamp.ends, before, bytes.len(), self.whole);
        self.count += 1;
        self.number = stamp.number;
        self.closed = stamp.closed;
        Ok(true)
    }

    /// Takes the sectors of some more bytes of a file, as far as they follow, up to a closed latch. Returns nothing if the journal may end after them, or
    /// at which sector it is damaged. The last bytes of a file whose length is no multiple of 512 are given with zeros after them.
    pub fn read_on(&mut self, file: &[u8]) -> Result<Option<usize>, AllocError>
        requires sectors { length file.now % 512 ≡ 0 }
        requires near { self.old.count + length file.now < 2 ^ 62 }
        ensures { IfOk result (λ damaged. IsReadOn damaged (read_on self.old (file_sectors file.now)) self.new) }
    {
        let mut rest = file;
        while rest.len() >= SECTOR_BYTES {
            if self.closed {
                return Ok(None);
            }
            let (sector, more) = rest.split_at(SECTOR_BYTES);
            match self.take(sector) {
                Ok(true) => {}
                Ok(false) => return Ok(damage_at(self.count, rest)),
                Err(error) => return Err(error),
            }
            rest = more;
        }
        Ok(None)
    }

    /// The bytes of the batches that are whole.
    pub fn whole(&self) -> &[u8]
        ensures { result.now ≡ self.now.whole }
    {
        &self.stream[..self.whole]
    }

    /// How many sectors were taken.
    pub fn count(&self) -> usize
        ensures { result ≡ self.now.count }
    {
        self.count
    }
}

// The sector of this number is damaged or the one before it, if a batch begins there or after it.
fn damage_at(count: usize, rest: &[u8]) -> Option<usize>
    requires { length rest.now % 512 ≡ 0 }
    ensures { result ≡ (if begins_in (file_sectors rest.now) then Some count else None) }
{
    if begins_in(rest) { Some(count) } else { None }
}

// A batch begins in one of these sectors.
fn begins_in(file: &[u8]) -> bool
    requires { length file.now % 512 ≡ 0 }
    ensures { result ≡ begins_in (file_sectors file.now) }
{
    let mut rest = file;
    while rest.len() >= SECTOR_BYTES {
        let (sector, more) = rest.split_at(SECTOR_BYTES);
        if stamp_of(sector).begun > 0 {
            return true;
        }
        rest = more;
    }
    false
}

// How many bytes are those of whole batches, after a sector that adds so many.
fn whole_after(ends: u16, before: usize, added: usize, whole: usize) -> usize
    requires { before + added < 2 ^ 64 }
    ensures { result ≡ (if nat_le ends added then before + ends else whole) }
{
    let ends = usize::from(ends);
    if ends <= added { before + ends } else { whole }
}

// A stamp is there, and its number is the last one that was read and that of the batches that begin in its sector.
fn is_next(number: u64, stamp: &Stamp) -> bool
    ensures { result ≡ (nat_lt 0 stamp.now.number && stamp.now.number == number + stamp.now.begun) }
{
    let begun = u64::from(stamp.begun);
    0 < stamp.number && begun <= stamp.number && stamp.number - begun == number
}

// The numbers of a sector's stamp; of a rotten one no number, and a batch that begins.
fn stamp_of(sector: &[u8]) -> Stamp
    requires { length sector.now ≡ 512 }
    ensures number { result.number ≡ (stamped sector.now).number }
    ensures begun { result.begun ≡ (stamped sector.now).begun }
    ensures bytes { take result.used (drop 20 sector.now) ≡ (stamped sector.now).bytes }
    ensures ends { result.ends ≡ (stamped sector.now).ends }
    ensures closed { result.closed ≡ (stamped sector.now).closed }
{
    if is_intact(sector) {
        numbers_of(sector)
    } else {
        Stamp {
            number: 0,
            begun: 1,
            used: 0,
            ends: 0,
            closed: false,
        }
    }
}

// The checksum of a sector is that of its bytes.
#[tactic(auto, unfolding(crate::specs::Stamped::is_intact))]
fn is_intact(sector: &[u8]) -> bool
    requires { length sector.now ≡ 512 }
    ensures { result ≡ is_intact sector.now }
{
    match sector {
        [
            a,
            b,
            c,
            d,
            e,
            f,
            g,
            h,
            i,
            j,
            k,
            l,
            m,
            n,
            _,
            _,
            s,
            t,
            u,
            v,
            bytes @ ..,
        ] => {
            let numbers = [*a, *b, *c, *d, *e, *f, *g, *h, *i, *j, *k, *l, *m, *n];
            let sum = remainder_after(remainder_after(0, &numbers), bytes);
            u32::from_le_bytes([*s, *t, *u, *v]) == sum
        }
        _ => false,
    }
}

// The numbers of a sector's stamp, whatever its checksum is.
fn numbers_of(sector: &[u8]) -> Stamp
    requires { length sector.now ≡ 512 }
    ensures number { result.number ≡ (decoded sector.now).number }
    ensures begun { result.begun ≡ (decoded sector.now).begun }
    ensures bytes { take result.used (drop 20 sector.now) ≡ (decoded sector.now).bytes }
    ensures ends { result.ends ≡ (decoded sector.now).ends }
    ensures closed { result.closed ≡ (decoded sector.now).closed }
{
    match sector {
        [a, b, c, d, e, f, g, h, i, j, k, l, m, n, x, y, ..] => Stamp {
            number: u64::from_le_bytes([*a, *b, *c, *d, *e, *f, *g, *h]),
            begun: u16::from_le_bytes([*i, *j]),
            used: u16::from_le_bytes([*k, *l]),
            ends: u16::from_le_bytes([*m, *n]),
            closed: *x == 90 && *y == 195,
        },
        _ => Stamp {
            number: 0,
            begun: 0,
            used: 0,
            ends: 0,
            closed: false,
        },
    }
}

// The bytes of the stream in a sector.
fn bytes_of(sector: &[u8], used: u16) -> &[u8]
    requires { length sector.now ≡ 512 }
    ensures { result.now ≡ take used (drop 20 sector.now) }
{
    let (_, bytes) = sector.split_at(20);
    let (bytes, _) = bytes.split_at(usize::from(used).min(BYTES_IN_A_SECTOR));
    bytes
}
