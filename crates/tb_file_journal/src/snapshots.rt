//! A growing file as it was at one moment.
ghost use Rattle.std.specs.Prelude.{◌≡◌, ◌≤◌, ◌<◌, ◌+◌, ◌^◌, false, take, drop, List, ℕ, length, Ok, IfOk, OnOk, OnErr, IfErr};
ghost use Rattle.tb_file_journal.specs.Device.{IsOfCall, AnswersLength};
ghost use Rattle.tb_file_journal.specs.Real.{untold};
ghost use Rattle.tb_file_journal.specs.declared.hops.Hop.TheVariants as variants;
ghost use Rattle.tb_file_journal.specs.Reading.{HasAhead};
ghost use Rattle.tb_file_journal.specs.Snapshots.{Snapped, behind_blocks, HoldsBytes, TakesSnapshot, Refreshes};
ghost use Rattle.tb_file_journal.specs.private.Hops.{IsEndFound, StartsAs, Grows, HopsFrom, Finds, FindsMore, HopsSized, FindsEnd, FindsStart, ReadsBlocks, Closes, IsNear};
ghost use Rattle.tb_file_journal.specs.Growing.{HasGrown};

use crate::batches::{CLOSED, LATCH_BYTES};
use crate::devices::Device;
use crate::faults::JournalFault;
use crate::growing::Growing;
use crate::hops::{Hop, follow, is_end};
use crate::journals::FILE_BYTES_MAX;
use crate::reading::MAGIC;
use std::alloc::Global;
use std::marker::Model;

// A piece of a file: the size of one read.
const PIECE_BYTES: usize = 1 << 16;

// The offset of the first block.
const START_BYTES: usize = MAGIC.len();

// The offset at which the blocks of a file end, how many bytes it has, and whether a closed latch was found.
#[derive(Clone, Copy)]
pub struct Found {
    pub end: usize,
    pub len: usize,
    pub closed: bool,
}

// A file that is shown whole.
const WHOLE: Found = Found {
    end: 0,
    len: 0,
    closed: false,
};

/// A file that grows, as a device that shows the bytes of one moment: the blocks up to the closed latch that was found, that latch, and zeros in the
/// place of what follows it. So its length is that of the file. A file that is damaged or no journal is shown whole, because nobody appends to it.
///
/// It is only read: a write or a cut fails, and a sync does nothing, so a power loss may lose what it shows.
#[derive(Drop)]
pub struct Snapshot<G: Growing> {
    file: G,
    piece: Vec<u8>,
    found: Found,
}

impl<G: Growing> Model for Snapshot<G> {
    ghost Value = { Snapped G };

    ghost view = { λ s. record { file = s.file; end = s.found.end; len = s.found.len; closed = s.found.closed } };

    ghost invariant = { λ s. IsNear s.found.end × (11 ≤ length s.piece.items) };
}

impl<G: Growing + Drop> Snapshot<G> {
    /// Follows the blocks of a file to the closed latch, and keeps that end. It checks no checksums: a scan does that.
    pub fn new(alloc: Global, file: G) -> Result<Snapshot<G>, JournalFault>
        ensures taken { (bytes : List ℕ) → G.grows file bytes → IfOk result (TakesSnapshot G.grows bytes) }
        ensures names { IfErr result IsOfCall }
    {
        let mut file = file;
        let mut piece = match vec![in alloc; 0u8; PIECE_BYTES] {
            Ok(piece) => piece,
            Err(_) => {
                drop(file);
                return Err(JournalFault::Memory);
            }
        };
        match find(&mut file, &mut piece) {
            Ok(found) => Ok(Snapshot { file, piece, found }),
            Err(fault) => Err(fault),
        }
    }

    /// Moves from the end that was found to the end of the file now. At an `Err` it shows what it showed.
    pub fn refresh(&mut self) -> Result<(), JournalFault>
        ensures ok { (shown : List ℕ) → (held : HoldsBytes G.grows self.old shown) → OnOk result (Refreshes G.grows held.file shown self.new) }
        ensures err { (shown : List ℕ) → HoldsBytes G.grows self.old shown → OnErr result (HoldsBytes G.grows self.new shown) }
        ensures names { IfErr result IsOfCall }
    {
        if !self.found.closed {
            return Ok(());
        }
        match find_more(&mut self.file, &mut self.piece, self.found.end) {
            Ok(found) => {
                self.found = found;
                Ok(())
            }
            Err(fault) => Err(fault),
        }
    }

    /// From now on a read returns the bytes of the file as they are, including those after the closed latch.
    pub fn look_behind(&mut self)
        ensures file { self.new.file ≡ self.old.file }
        ensures whole { self.new.closed ≡ false }
    {
        self.found = WHOLE;
    }

    /// The number of bytes of the file now, including those after the end of the snapshot.
    pub fn file_len(&mut self) -> Result<usize, JournalFault>
        ensures same { (shown : List ℕ) → HoldsBytes G.grows self.old shown → HoldsBytes G.grows self.new shown }
        ensures len { HasGrown (G.grows self.old.file) (G.grows self.new.file) (AnswersLength result) }
        ensures names { IfErr result IsOfCall }
    {
        self.file.len()
    }
}

impl<G: Growing> Device for Snapshot<G> {
    ghost tells = { ⊥ };

    ghost disk = { λ _. untold };

    ghost holds = { λ snapshot shown. HoldsBytes G.grows snapshot shown };

    ghost holds_seen = { λ _ told. absurd told };

    ghost stays = { λ _ told. absurd told };

    ghost counts_now = { λ _ t c le now. now };

    ghost only_now = { λ _ c left. left };

    fn read_at(&mut self, at: usize, into: &mut [u8]) -> Result<usize, JournalFault> {
        if !self.found.closed {
            return self.file.read_at(at, into);
        }
        read_closed(&mut self.file, self.found.end, self.found.len, at, into)
    }

    fn len(&mut self) -> Result<usize, JournalFault> {
        if !self.found.closed {
            return self.file.len();
        }
        Ok(self.found.len.max(self.found.end + LATCH_BYTES))
    }

    fn write_at(&mut self, _at: usize, _bytes: &[u8]) -> Result<(), JournalFault> {
        Err(JournalFault::Failed)
    }

    fn cut(&mut self, _len: usize) -> Result<(), JournalFault> {
        Err(JournalFault::Failed)
    }

    fn sync(&mut self) -> Result<(), JournalFault> {
        Ok(())
    }
}

// Reads what is shown: the blocks up to this offset, a closed latch, and zeros up to a length. Fails if the file no longer has the blocks.
fn read_closed<G: Growing>(
    file: &mut G,
    end: usize,
    len: usize,
    at: usize,
    into: &mut [u8],
) -> Result<usize, JournalFault>
    requires near { IsNear end }
    ensures within { IfOk result (λ count. count ≤ length into.new) }
    ensures bytes { ReadsBlocks (G.grows file.old) (G.grows file.new) end len at into.new result }
    ensures names { IfErr result IsOfCall }
{
    let count = file.read_at(at, into)?;
    close(into, count, at, end, len)
}

// Writes what is shown after the blocks over the bytes that were read there.
fn close(
    into: &mut [u8],
    count: usize,
    at: usize,
    end: usize,
    len: usize,
) -> Result<usize, JournalFault>
    requires near { IsNear end }
    requires within { count ≤ length into.old }
    ensures within { IfOk result (λ told. told ≤ length into.new) }
    ensures closes { Closes count at end len into.old into.new result }
    ensures names { IfErr result IsOfCall }
{
    let left = end.saturating_sub(at);
    if left >= into.len() {
        return Ok(count);
    }
    if count < left {
        return Err(JournalFault::Failed);
    }
    let shown = len.max(end + LATCH_BYTES);
    let told = into.len().min(shown.saturating_sub(at));
    put_behind(&mut into[left..told], at.saturating_sub(end));
    Ok(told)
}

// Writes a closed latch and zeros, from so many of their bytes on.
fn put_behind(into: &mut [u8], skip: usize)
    ensures { (others : ℕ) → skip + length into.old ≤ 4 + others → into.new ≡ take (length into.old) (drop skip (behind_blocks others)) }
{
    into.fill(0);
    if skip < LATCH_BYTES {
        let n = into.len().min(LATCH_BYTES - skip);
        into[..n].copy_from_slice(&CLOSED[skip..skip + n]);
    }
}

// The end of a file, found from its first bytes on.
fn find<G: Growing>(file: &mut G, piece: &mut [u8]) -> Result<Found, JournalFault>
    requires { 11 ≤ length piece.old }
    ensures found { (bytes : List ℕ) → G.grows file.old bytes → IfOk result (IsEndFound (G.grows file.new) bytes) }
    ensures near { IfOk result (λ found. IsNear found.end) }
    ensures names { IfErr result IsOfCall }
{
    match begins(file, piece) {
        Ok(true) => find_end(file, piece, START_BYTES),
        Ok(false) => Ok(WHOLE),
        Err(fault) => Err(fault),
    }
}

// Returns whether a file begins as a journal does.
fn begins<G: Growing>(file: &mut G, piece: &mut [u8]) -> Result<bool, JournalFault>
    requires { 11 ≤ length piece.old }
    ensures tells { FindsStart (G.grows file.old) (G.grows file.new) result }
    ensures names { IfErr result IsOfCall }
{
    let count = file.read_at(0, piece)?;
    Ok(is_journal(&piece[..count]))
}

fn is_journal(bytes: &[u8]) -> bool
    ensures { (file : List ℕ) → HasAhead 8 0 file bytes.now → StartsAs result file }
{
    bytes.starts_with(&MAGIC)
}

// The current end of a file, if a closed latch was found at this offset. Usually that latch is still closed.
fn find_more<G: Growing>(file: &mut G, piece: &mut [u8], end: usize) -> Result<Found, JournalFault>
    requires near { IsNear end }
    requires some { 11 ≤ length piece.old }
    ensures found { FindsMore (G.grows file.old) (G.grows file.new) end result }
    ensures same { Grows (G.grows file.old) (G.grows file.new) }
    ensures near { IfOk result (λ found. IsNear found.end) }
    ensures names { IfErr result IsOfCall }
{
    match still_closed(file, piece, end) {
        Ok((len, true)) => Ok(Found {
            end,
            len,
            closed: true,
        }),
        Ok((_, false)) => find_end(file, piece, end),
        Err(fault) => Err(fault),
    }
}

// The number of bytes, and then whether the latch at this offset is closed. Fails if the file is shorter.
fn still_closed<G: Growing>(
    file: &mut G,
    piece: &mut [u8],
    end: usize,
) -> Result<(usize, bool), JournalFault>
    requires { 11 ≤ length piece.old }
    ensures tells { (bytes : List ℕ) → G.grows file.old bytes → IfOk result (FindsEnd (G.grows file.new) end bytes) }
    ensures same { Grows (G.grows file.old) (G.grows file.new) }
    ensures names { IfErr result IsOfCall }
{
    let len = file.len()?;
    let count = file.read_at(end, piece)?;
    // An offset is kept only as long as the file reaches it: a file that got shorter is another file.
    if len < end {
        return Err(JournalFault::Failed);
    }
    Ok((len, is_end(&piece[..count])))
}

// The end of a file whose blocks lead to this offset.
fn find_end<G: Growing>(file: &mut G, piece: &mut [u8], from: usize) -> Result<Found, JournalFault>
    requires { 11 ≤ length piece.old }
    ensures found { Finds (G.grows file.old) (G.grows file.new) from result }
    ensures same { Grows (G.grows file.old) (G.grows file.new) }
    ensures near { IfOk result (λ found. IsNear found.end) }
    ensures names { IfErr result IsOfCall }
{
    let mut end = from;
    while end < FILE_BYTES_MAX {
        match hop_sized(file, piece, end) {
            Ok((_, Hop::Further(next))) => end = next,
            Ok((len, Hop::Closed(at))) => {
                if at <= end {
                    return Ok(Found {
                        end,
                        len,
                        closed: true,
                    });
                }
                end = at;
            }
            Ok((_, Hop::Broken)) => return Ok(WHOLE),
            Err(fault) => return Err(fault),
        }
    }
    Err(JournalFault::Full)
}

// The number of bytes, and then the place to which the blocks of the piece at this offset lead.
fn hop_sized<G: Growing>(
    file: &mut G,
    piece: &mut [u8],
    at: usize,
) -> Result<(usize, Hop), JournalFault>
    requires some { 11 ≤ length piece.old }
    requires near { at < 2 ^ 62 }
    ensures leads { HopsSized (G.grows file.old) (G.grows file.new) at result }
    ensures same { Grows (G.grows file.old) (G.grows file.new) }
    ensures further { IfOk result (λ told. (next : ℕ) → told.1 ≡ variants.Further next → at < next) }
    ensures closed { IfOk result (λ told. (end : ℕ) → told.1 ≡ variants.Closed end → (at ≤ end) × IsNear end) }
    ensures names { IfErr result IsOfCall }
{
    let len = file.len()?;
    match hop_from(file, piece, at) {
        Ok(hop) => Ok((len, hop)),
        Err(fault) => Err(fault),
    }
}

// The place to which the blocks of the piece at this offset lead.
fn hop_from<G: Growing>(file: &mut G, piece: &mut [u8], at: usize) -> Result<Hop, JournalFault>
    requires some { 11 ≤ length piece.old }
    requires near { at < 2 ^ 62 }
    ensures leads { HopsFrom (G.grows file.old) (G.grows file.new) at result }
    ensures same { Grows (G.grows file.old) (G.grows file.new) }
    ensures further { (next : ℕ) → result ≡ Ok (variants.Further next) → at < next }
    ensures closed { (end : ℕ) → result ≡ Ok (variants.Closed end) → (at ≤ end) × IsNear end }
    ensures names { IfErr result IsOfCall }
{
    let count = file.read_at(at, piece)?;
    let len = file.len()?;
    Ok(follow(&piece[..count], at, len))
}
