//! Bytes and numbers from a reader.
ghost use Rattle.std.specs.Prelude.{◌≡◌, vec_len, IfOk, IfErr};
ghost use Rattle.tb_log.specs.Entries.{ReaderFails};
ghost use Rattle.tb_log.specs.Format.{number_bytes};
ghost use Rattle.tb_log.specs.Steps.{IsFilledBy, FillsBuffer, ReadsValue, ReadsBytes, BeginsItem};

use crate::faults::LogFault;
use byteorder::{ByteOrder, LittleEndian};
use std::alloc::Global;
use tb_records::Source;

/// Fills the buffer, and returns how many of its bytes were filled: fewer than all only at the end of the input.
fn fill<S: Source>(source: &mut S, buffer: &mut [u8]) -> Result<usize, LogFault>
    ensures filled { IfOk result
        (λ n. IsFilledBy n buffer.new (S.input source.old) (S.input source.new)) }
    ensures lost { IfErr result (λ f. ReaderFails f (S.input source.old) (S.input source.new)) }
{
    let mut filled = 0;
    while filled < buffer.len() {
        match source.pull(&mut buffer[filled..]) {
            Ok(0) => return Ok(filled),
            Ok(count) => filled += count,
            Err(_) => return Err(LogFault::Device),
        }
    }
    Ok(filled)
}

/// Fills the buffer. Returns `Short` if the input ends before that.
fn fill_all<S: Source>(source: &mut S, buffer: &mut [u8]) -> Result<(), LogFault>
    ensures { FillsBuffer buffer.new result (S.input source.old) (S.input source.new) }
{
    if fill(source, buffer)? < buffer.len() {
        return Err(LogFault::Short);
    }
    Ok(())
}

/// The byte that begins the next item; `None` if the input ends before it.
#[tactic(auto, using(crate::proofs::Taking::none_filled, crate::proofs::Taking::one_filled))]
pub(crate) fn kind_from<S: Source>(source: &mut S) -> Result<Option<u8>, LogFault>
    ensures { BeginsItem result (S.input source.old) (S.input source.new) }
{
    let mut bytes = [0; 1];
    let bytes: &mut [u8] = &mut bytes;
    if fill(source, bytes)? == 0 {
        return Ok(None);
    }
    Ok(Some(bytes[0]))
}

/// A number of 8 bytes.
pub(crate) fn u64_from<S: Source>(source: &mut S) -> Result<u64, LogFault>
    ensures { ReadsValue 8 (number_bytes 8) result (S.input source.old) (S.input source.new) }
{
    let mut bytes = [0; 8];
    let bytes: &mut [u8] = &mut bytes;
    fill_all(source, bytes)?;
    Ok(LittleEndian::read_u64(bytes))
}

/// A number of 4 bytes.
pub(crate) fn u32_from<S: Source>(source: &mut S) -> Result<u32, LogFault>
    ensures { ReadsValue 4 (number_bytes 4) result (S.input source.old) (S.input source.new) }
{
    let mut bytes = [0; 4];
    let bytes: &mut [u8] = &mut bytes;
    fill_all(source, bytes)?;
    Ok(LittleEndian::read_u32(bytes))
}

/// So many bytes. The memory for them is allocated before the first is read.
#[tactic(auto, using(crate::proofs::Taking::missed_whole))]
pub(crate) fn bytes_from<S: Source>(
    alloc: Global,
    source: &mut S,
    count: usize,
) -> Result<Vec<u8>, LogFault>
    ensures read { ReadsBytes count result (S.input source.old) (S.input source.new) }
    ensures count { IfOk result (λ bytes. vec_len bytes ≡ count) }
{
    let mut bytes = vec![in alloc; 0u8; count]?;
    fill_all(source, &mut bytes)?;
    Ok(bytes)
}
