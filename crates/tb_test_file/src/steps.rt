//! What each test wants: calls that succeed, and values and bytes that are those that it names. And small files in memory.
ghost use Rattle.std.specs.Prelude.{◌≡◌, true, Ok};
ghost use Rattle.tb_file_journal.specs.Memory.{memory_disk};

use std::alloc::Global;
use std::process::Abort;
use tb_file::Rules;
use tb_file_journal::Memory;
use tb_records::{ClientsMax, Profile};

/// What a test wants to hold.
pub(crate) fn expect(rt: &impl Abort, holds: bool)
    ensures { holds ≡ true }
{
    assert!(rt; holds);
}

/// What was found is what a test wants. It is compared only here, because a comparison of results is expensive to prove.
pub(crate) fn expect_same<T: PartialEq + Copy>(rt: &impl Abort, found: T, want: T) {
    expect(rt, found == want);
}

/// Says whether these bytes are those: compared only here too.
pub(crate) fn same(found: &[u8], wanted: &[u8]) -> bool {
    found == wanted
}

/// The bytes that a test wants.
pub(crate) fn expect_bytes(rt: &impl Abort, found: &[u8], want: &[u8]) {
    expect(rt, same(found, want));
}

/// The bytes that a call returned are those that a test wants. They are freed here.
pub(crate) fn expect_given(rt: &impl Abort, given: Vec<u8>, want: &[u8]) {
    expect_bytes(rt, &given, want);
    drop(given);
}

/// The same for wanted bytes that are freed too.
pub(crate) fn expect_equal(rt: &impl Abort, given: Vec<u8>, want: Vec<u8>) {
    expect_given(rt, given, &want);
    drop(want);
}

/// The bytes that a call returned are the first of these. They are freed here.
pub(crate) fn expect_begin(rt: &impl Abort, whole: &[u8], given: Vec<u8>) {
    expect(rt, whole.starts_with(&given));
    drop(given);
}

/// The value of a call that a test wants to succeed.
pub(crate) fn sure<T: Drop, E: Drop>(rt: &impl Abort, answer: Result<T, E>) -> T
    ensures { answer ≡ Ok result }
{
    answer.ok().expect(rt, "no fault")
}

/// A copy of bytes.
pub(crate) fn copy_of(rt: &impl Abort, alloc: Global, bytes: &[u8]) -> Vec<u8> {
    sure(rt, Vec::from_slice(alloc, bytes))
}

/// A file in memory with these bytes, all of them durable.
pub(crate) fn file_of(rt: &impl Abort, alloc: Global, bytes: &[u8]) -> Memory
    ensures { (memory_disk result).sound ≡ true }
{
    file_from(rt, alloc, copy_of(rt, alloc, bytes))
}

/// A file in memory of bytes that a call returned.
pub(crate) fn file_from(rt: &impl Abort, alloc: Global, bytes: Vec<u8>) -> Memory
    ensures { (memory_disk result).sound ≡ true }
{
    sure(rt, Memory::new(alloc, bytes))
}

/// Profile 1 and two clients.
pub(crate) fn rules(rt: &impl Abort) -> Rules {
    Rules {
        profile: Profile::One,
        clients_max: ClientsMax::new(2).expect(rt, "a number of clients"),
    }
}
