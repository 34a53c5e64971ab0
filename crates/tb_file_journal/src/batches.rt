//! Records that wait for a commit, as the bytes that it writes.
ghost use Rattle.std.specs.Prelude.{◌≡◌, ◌<◌, ◌≤◌, ◌+◌, ◌^◌, ◌++◌, [], ◌∷◌, List, ℕ, length, take, drop, vec_len, IfOk, IfErr, OnOk, OnErr};
ghost use Rattle.std.specs.List.{AllByRecursion};
ghost use Rattle.tb_file_journal.specs.Contents.{Fits, latch_closed, block, at_rest};
ghost use Rattle.tb_file_journal.specs.private.Batches.{waiting_in, blank_numbers, IsBatch, IsUnwritten, AddsBlock, block_tail};

use crate::faults::JournalFault;
use crate::journals::RECORD_BYTES_MAX;
use crate::reading::checksum_of;
use crate::written::Written;
use std::alloc::{AllocError, Global};
use std::marker::Model;

// An open latch, and a closed one.
pub const OPEN: [u8; 4] = [255; 4];

pub const CLOSED: [u8; 4] = [90, 195, 150, 105];

/// The bytes of a latch, open or closed.
pub const LATCH_BYTES: usize = 4;

// What is between the latch of a block and its record: length and checksum.
const NUMBERS_BYTES: usize = 7;

// Blocks of records, and a closed latch.
#[derive(Drop)]
pub struct Batch {
    bytes: Vec<u8>,
    count: usize,
}

impl Model for Batch {
    ghost Value = { List (List ℕ) };

    ghost view = { λ batch. waiting_in batch.bytes.items };

    ghost invariant = { λ batch. IsBatch batch.bytes.items batch.count };
}

impl Batch {
    pub fn new(alloc: Global) -> Result<Batch, AllocError>
        ensures { IfOk result (λ batch. batch ≡ []) }
    {
        let bytes = Vec::from_slice(alloc, &CLOSED)?;
        Ok(Batch { bytes, count: 0 })
    }

    /// Adds a record.
    pub fn add(&mut self, content: &[u8]) -> Result<(), AllocError>
        requires { length content.now < 2 ^ 24 }
        ensures ok { OnOk result (self.new ≡ self.old ++ content.now ∷ []) }
        ensures err { OnErr result (self.new ≡ self.old) }
    {
        match add_block(&mut self.bytes, content) {
            Ok(()) => {
                self.count += 1;
                Ok(())
            }
            Err(error) => Err(error),
        }
    }

    /// Adds a record whose bytes are written where they wait. Its block has so much space.
    pub fn add_written<W: Written>(&mut self, content: &W, room: usize) -> Result<(), JournalFault>
        ensures ok { OnOk result (self.new ≡ self.old ++ W.bytes content.now ∷ []) }
        ensures known { OnOk result (W.known content.now) }
        ensures short { OnOk result (length (W.bytes content.now) < 2 ^ 24) }
        ensures room { OnOk result (11 + length (W.bytes content.now) ≤ room) }
        ensures err { OnErr result (self.new ≡ self.old) }
        ensures why { IfErr result (λ fault. IsUnwritten fault room (length (W.bytes content.now))) }
    {
        match write_block(&mut self.bytes, content, room) {
            Ok(()) => {
                self.count += 1;
                Ok(())
            }
            Err(fault) => Err(fault),
        }
    }

    pub fn bytes(&self) -> &[u8]
        ensures spells { result.now ≡ at_rest self.now }
        ensures fits { AllByRecursion Fits self.now }
    {
        &self.bytes
    }

    pub fn count(&self) -> usize
        ensures { result ≡ length self.now }
    {
        self.count
    }

    pub fn clear(&mut self)
        ensures { self.new ≡ [] }
    {
        self.bytes.truncate(LATCH_BYTES);
        shut(&mut self.bytes);
        self.count = 0;
    }
}

// Closes the first latch.
fn shut(bytes: &mut [u8])
    requires { 4 ≤ length bytes.old }
    ensures { bytes.new ≡ latch_closed ++ drop 4 bytes.old }
{
    bytes[..LATCH_BYTES].copy_from_slice(&CLOSED);
}

// Opens the last latch for one more block, and closes the latch after it. At an Err the bytes are as they were.
fn add_block(bytes: &mut Vec<u8>, content: &[u8]) -> Result<(), AllocError>
    requires { length content.now < 2 ^ 24 }
    ensures ok { OnOk result (AddsBlock content.now bytes.old.items bytes.new.items) }
    ensures err { OnErr result (bytes.new.items ≡ bytes.old.items) }
{
    let len = bytes.len();
    match add_parts(bytes, content) {
        Ok(()) => {
            if len >= LATCH_BYTES {
                bytes[len - LATCH_BYTES..len].copy_from_slice(&OPEN);
            }
            Ok(())
        }
        Err(error) => {
            bytes.truncate(len);
            Err(error)
        }
    }
}

// Adds all of a block except its latch, and the latch after it.
fn add_parts(bytes: &mut Vec<u8>, content: &[u8]) -> Result<(), AllocError>
    requires { length content.now < 2 ^ 24 }
    ensures ok { OnOk result (bytes.new.items ≡ bytes.old.items ++ block_tail content.now) }
    ensures err { OnErr result (take (vec_len bytes.old) bytes.new.items ≡ bytes.old.items) }
{
    bytes.extend_from_slice(&numbers_of(content))?;
    bytes.extend_from_slice(content)?;
    bytes.extend_from_slice(&CLOSED)
}

// The length and the checksum that come before a record.
fn numbers_of(content: &[u8]) -> [u8; 7]
    requires { length content.now < 2 ^ 24 }
    ensures numbers { result ++ content.now ≡ drop 4 (block content.now) }
    ensures fits { Fits content.now }
{
    let [a, b, c, _] = (content.len() as u32).to_le_bytes();
    let [s, t, u, v] = checksum_of(&[a, b, c], content).to_le_bytes();
    [a, b, c, s, t, u, v]
}

// Opens the last latch for one more block, whose record is written there, and closes the latch after it. At an Err the bytes are as they were.
fn write_block<W: Written>(
    bytes: &mut Vec<u8>,
    content: &W,
    room: usize,
) -> Result<(), JournalFault>
    ensures ok { OnOk result (AddsBlock (W.bytes content.now) bytes.old.items bytes.new.items) }
    ensures fits { OnOk result (Fits (W.bytes content.now)) }
    ensures known { OnOk result (W.known content.now) }
    ensures room { OnOk result (11 + length (W.bytes content.now) ≤ room) }
    ensures err { OnErr result (bytes.new.items ≡ bytes.old.items) }
    ensures why { IfErr result (λ fault. IsUnwritten fault room (length (W.bytes content.now))) }
{
    let end = bytes.len();
    match write_parts(bytes, content, room) {
        Ok(()) => {
            if end >= LATCH_BYTES {
                bytes[end - LATCH_BYTES..end].copy_from_slice(&OPEN);
            }
            Ok(())
        }
        Err(fault) => {
            bytes.truncate(end);
            Err(fault)
        }
    }
}

// Adds all of a block except its latch, and the latch after it.
fn write_parts<W: Written>(
    bytes: &mut Vec<u8>,
    content: &W,
    room: usize,
) -> Result<(), JournalFault>
    ensures ok { OnOk result (bytes.new.items ≡ bytes.old.items ++ block_tail (W.bytes content.now)) }
    ensures fits { OnOk result (Fits (W.bytes content.now)) }
    ensures known { OnOk result (W.known content.now) }
    ensures room { OnOk result (11 + length (W.bytes content.now) ≤ room) }
    ensures err { OnErr result (take (vec_len bytes.old) bytes.new.items ≡ bytes.old.items) }
    ensures why { IfErr result (λ fault. IsUnwritten fault room (length (W.bytes content.now))) }
{
    write_sealed(bytes, content, room)?;
    bytes.extend_from_slice(&CLOSED)?;
    Ok(())
}

// Adds all of a block except its latch. The record is written first, and then the numbers before it.
fn write_sealed<W: Written>(
    bytes: &mut Vec<u8>,
    content: &W,
    room: usize,
) -> Result<(), JournalFault>
    ensures ok { OnOk result (bytes.new.items ≡ bytes.old.items ++ drop 4 (block (W.bytes content.now))) }
    ensures fits { OnOk result (Fits (W.bytes content.now)) }
    ensures known { OnOk result (W.known content.now) }
    ensures room { OnOk result (11 + length (W.bytes content.now) ≤ room) }
    ensures err { OnErr result (take (vec_len bytes.old) bytes.new.items ≡ bytes.old.items) }
    ensures why { IfErr result (λ fault. IsUnwritten fault room (length (W.bytes content.now))) }
{
    let at = bytes.len();
    write_record(bytes, content)?;
    let count = bytes.len() - at - NUMBERS_BYTES;
    fit(count, room)?;
    seal(bytes, at);
    Ok(())
}

// Writes a record after the place for its numbers.
fn write_record<W: Written>(bytes: &mut Vec<u8>, content: &W) -> Result<(), AllocError>
    ensures ok { OnOk result (bytes.new.items ≡ bytes.old.items ++ (blank_numbers ++ W.bytes content.now)) }
    ensures long { OnOk result (vec_len bytes.new ≡ vec_len bytes.old + 7 + length (W.bytes content.now)) }
    ensures known { OnOk result (W.known content.now) }
    ensures err { OnErr result (take (vec_len bytes.old) bytes.new.items ≡ bytes.old.items) }
{
    bytes.extend_from_slice(&[0; NUMBERS_BYTES])?;
    content.write(bytes)
}

// Checks that a record of so many bytes is short enough, and that its block has the space.
fn fit(count: usize, room: usize) -> Result<(), JournalFault>
    ensures short { OnOk result (count < 2 ^ 24) }
    ensures room { OnOk result (11 + count ≤ room) }
    ensures why { IfErr result (λ fault. IsUnwritten fault room count) }
{
    if count >= RECORD_BYTES_MAX {
        return Err(JournalFault::TooLong);
    }
    if count + 11 > room {
        return Err(JournalFault::Full);
    }
    Ok(())
}

// Writes the numbers before the record that ends these bytes.
fn seal(bytes: &mut [u8], at: usize)
    requires room { at + 7 ≤ length bytes.old }
    requires short { length bytes.old < at + 7 + 2 ^ 24 }
    ensures sealed { bytes.new ≡ take at bytes.old ++ drop 4 (block (drop (at + 7) bytes.old)) }
    ensures fits { Fits (drop (at + 7) bytes.old) }
{
    let numbers = numbers_of(&bytes[at + NUMBERS_BYTES..]);
    bytes[at..at + NUMBERS_BYTES].copy_from_slice(&numbers);
}
