//! The steps of a reader, answered one after another.
ghost use Rattle.std.specs.Prelude.{◌≡◌, ◌⊎◌, IfErr, IfOk, MatchOption, length};
ghost use Rattle.tb_oracle.specs.Steps.{rest_length};
ghost use Rattle.tb_oracle.specs.Streams.{AnswersInput, AnswersSteps, IsOfReading, ReadsNone, ReadsRest, ReadsStep, ReadsStepHead, WantsMemory};

use crate::faults::{OracleFault, fault_of};
use crate::steps::answer;
use byteorder::{ByteOrder, LittleEndian};
use std::alloc::Global;
use std::io::{BufReader, Read, Write};
use tb_records::FrameFault;

/// The bytes of input that are buffered.
const BUFFER_BYTES: usize = 65536;

/// The most bytes after a head; two of the longest frames are shorter.
const LENGTH_MAX: u64 = 1 << 22;

/// Reads the head of the next step. False if the input ends before it.
fn read_head<R: Read>(reader: &mut R, head: &mut [u8]) -> Result<bool, OracleFault>
    requires { length head.old ≡ 38 }
    ensures read { ReadsStepHead result head.new (R.remaining reader.old) (R.remaining reader.new) }
    ensures fault { IfErr result IsOfReading }
    ensures long { length head.new ≡ 38 }
{
    let count = match reader.read(head) {
        Ok(0) => return Ok(false),
        Ok(count) => count,
        Err(error) => return Err(fault_of(&error)),
    };
    match reader.read_exact(&mut head[count..]) {
        Ok(()) => Ok(true),
        Err(error) => Err(fault_of(&error)),
    }
}

/// The length of what follows a head.
fn length_at(head: &[u8]) -> u64
    requires { length head.now ≡ 38 }
    ensures { result ≡ rest_length head.now }
{
    LittleEndian::read_u64(&head[30..])
}

/// Reads `count` bytes.
fn read_rest<R: Read>(alloc: Global, reader: &mut R, count: usize) -> Result<Vec<u8>, OracleFault>
    ensures fault { IfErr result IsOfReading }
    ensures read { IfOk result (λ bytes. ReadsRest bytes.items count (R.remaining reader.old) (R.remaining reader.new)) }
{
    let mut bytes = vec![in alloc; 0u8; count]?;
    match reader.read_exact(&mut bytes) {
        Ok(()) => Ok(bytes),
        Err(error) => Err(fault_of(&error)),
    }
}

/// Reads the next step: its head, and what comes after it. None if the input ends before it.
fn read_step<R: Read>(
    alloc: Global,
    reader: &mut R,
    head: &mut [u8],
) -> Result<Option<Vec<u8>>, OracleFault>
    requires { length head.old ≡ 38 }
    ensures read { IfOk result (λ found. MatchOption found (ReadsNone (R.remaining reader.old) (R.remaining reader.new))
        (λ rest. ReadsStep head.new rest.items (R.remaining reader.old) (R.remaining reader.new))) }
    ensures fault { IfErr result IsOfReading }
    ensures long { length head.new ≡ 38 }
{
    if !read_head(reader, head)? {
        return Ok(None);
    }
    let length = length_at(head);
    if length > LENGTH_MAX {
        return Err(OracleFault::Frame(FrameFault::TooMany));
    }
    let rest = read_rest(alloc, reader, length as usize)?;
    Ok(Some(rest))
}

/// Answers the steps of a reader until it ends. On a fault of the input, all steps before it are answered.
pub fn answer_all<R: Read, W: Write>(
    alloc: Global,
    reader: &mut R,
    writer: &mut W,
) -> Result<(), OracleFault>
    ensures { AnswersSteps result (R.remaining reader.old) (R.remaining reader.new) (W.contents writer.old) (W.contents writer.new) }
{
    let mut head = [0; 38];
    let head: &mut [u8] = &mut head;
    for _ in 0..u64::MAX {
        let Some(rest) = read_step(alloc, reader, head)? else {
            return Ok(());
        };
        let bytes = answer(alloc, head, &rest)?;
        match writer.write_all(&bytes) {
            Ok(()) => {}
            Err(_) => return Err(OracleFault::Frame(FrameFault::Device)),
        }
    }
    Err(OracleFault::Frame(FrameFault::TooMany))
}

/// Answers the steps of an input, behind a buffer, until it ends.
pub fn answer_input<R: Read + Drop, W: Write>(
    alloc: Global,
    input: R,
    output: &mut W,
) -> Result<(), OracleFault>
    ensures { AnswersInput R.remaining result input (W.contents output.old) (W.contents output.new) ⊎ WantsMemory result (W.contents output.old) (W.contents output.new) }
{
    match BufReader::with_capacity(alloc, BUFFER_BYTES, input) {
        Ok(mut reader) => answer_all(alloc, &mut reader, output),
        Err(_) => Err(OracleFault::Frame(FrameFault::NoMemory)),
    }
}
