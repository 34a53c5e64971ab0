//! An entry from a reader, after its kind: its numbers are checked before its content is read, and its checksum after.
ghost use Rattle.std.specs.Prelude.{◌≡◌, ◌≤◌, ◌+◌, length, IfOk, IfErr, OnOk};
ghost use Rattle.tb_log.specs.Entries.{head_fault, pair_fault, IsPairs, IsNoPairs, GivesEntry, RefusesEntry};
ghost use Rattle.tb_log.specs.Format.{content_max};
ghost use Rattle.tb_log.specs.Steps.{entry_head_bytes, JudgesNumbers, ReadsValue, GivesContent, Loses};

use crate::checksums::entry_sum;
use crate::faults::LogFault;
use crate::inputs::{bytes_from, u32_from, u64_from};
use std::alloc::Global;
use tb_records::streams::read_timed_from;
use tb_records::{Counting, FrameFault, Source};

/// The greatest number of bytes of an entry's pairs: 16 MiB less one.
const CONTENT_BYTES_MAX: u32 = 0xFF_FFFF;

/// What comes before the pairs of an entry.
#[derive(Clone, Copy)]
pub(crate) struct Head {
    position: u64,
    length: u32,
    checksum: u32,
}

/// Reads the numbers of an entry.
fn head_from<S: Source>(source: &mut S) -> Result<Head, LogFault>
    ensures { ReadsValue 16 entry_head_bytes result (S.input source.old) (S.input source.new) }
{
    let position = u64_from(source)?;
    let length = u32_from(source)?;
    let checksum = u32_from(source)?;
    Ok(Head {
        position,
        length,
        checksum,
    })
}

/// Returns what is wrong with the numbers of an entry after the last position.
fn judge_head(head: &Head, last: u64) -> Result<(), LogFault>
    ensures { JudgesNumbers result (head_fault last head.now.position head.now.length) }
{
    let position = head.position;
    if position <= last {
        return Err(LogFault::Repeat(position));
    }
    if position - last > 1 {
        return Err(LogFault::Gap(position));
    }
    if head.length > CONTENT_BYTES_MAX {
        return Err(LogFault::TooLong(position));
    }
    Ok(())
}

/// Reads the content after the numbers, and checks its checksum.
fn content_from<S: Source>(alloc: Global, source: &mut S, head: &Head) -> Result<Vec<u8>, LogFault>
    requires { head.now.length ≤ content_max }
    ensures whole { IfOk result (GivesContent head.now (S.input source.old) (S.input source.new)) }
    ensures lost { IfErr result
        (λ f. Loses head.now f (S.input source.old) (S.input source.new)) }
{
    let content = bytes_from(alloc, source, head.length as usize)?;
    if entry_sum(head.position, &content) != head.checksum {
        return Err(LogFault::Damaged(head.position));
    }
    Ok(content)
}

/// The fault of bytes that are not a pair. Bytes in memory have no reader that fails.
fn pair_fault(position: u64, fault: FrameFault) -> LogFault
    ensures { result ≡ pair_fault position fault }
{
    match fault {
        FrameFault::NoMemory | FrameFault::Device => LogFault::NoMemory,
        fault => LogFault::BadEntry(position, fault),
    }
}

/// Checks that the content of the entry at a position consists of pairs, before the first of them is served.
fn check_pairs(global: Global, position: u64, content: &[u8]) -> Result<(), LogFault>
    requires { length content.now ≤ content_max }
    ensures pairs { OnOk result (IsPairs content.now) }
    ensures bad { IfErr result (λ fault. IsNoPairs fault position content.now) }
{
    let mut source = Counting::new(content);
    for k in 0..0x100_0000u32 {
        match read_timed_from(global, &mut source) {
            Ok(Some(pair)) => drop(pair),
            Ok(None) => return Ok(()),
            Err(fault) => return Err(pair_fault(position, fault)),
        }
    }
    unreachable!()
}

/// Reads the entry after the last position: its position and its content, which consists of pairs.
pub(crate) fn entry_from<S: Source>(
    alloc: Global,
    source: &mut S,
    last: u64,
) -> Result<(u64, Vec<u8>), LogFault>
    ensures place { IfOk result (λ entry. entry.0 ≡ last + 1) }
    ensures read { IfOk result (GivesEntry last (S.input source.old) (S.input source.new)) }
    ensures pairs { IfOk result (λ entry. IsPairs entry.1.items) }
    ensures wrong { IfErr result
        (λ f. RefusesEntry f last (S.input source.old) (S.input source.new)) }
{
    let head = head_from(source)?;
    judge_head(&head, last)?;
    let content = content_from(alloc, source, &head)?;
    check_pairs(alloc, head.position, &content)?;
    Ok((head.position, content))
}
