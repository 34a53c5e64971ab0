//! The history of a kept file, read without a write.
use crate::keep::scripts::{COUNT, kept_bytes, script};
use crate::steps::{expect_given, expect_same, file_of, rules, sure};
use std::alloc::Global;
use std::process::Abort;
use tb_file::{DumpFault, read_history, write_dump};
use tb_file_journal::{JournalFault, Memory, OpenFault};
use tb_machine::dump;
use tb_records::{Counting, Profile};

/// The file over which the script was served.
pub fn kept_file(rt: &impl Abort, alloc: Global) -> Memory {
    let bytes = kept_bytes(rt, alloc, COUNT);
    let file = file_of(rt, alloc, &bytes);
    drop(bytes);
    file
}

/// The dump that a server without a file writes of the first `count` pairs of the script.
pub fn dump_of(rt: &impl Abort, alloc: Global, count: usize) -> Vec<u8> {
    let script = script(rt, alloc, 0, count);
    let mut reader = Counting::new(script.as_slice());
    let mut writer = Counting::new(Vec::new(alloc));
    let result = dump(alloc, rules(rt).clients_max, None, &mut reader, &mut writer);
    drop(script);
    sure(rt, result);
    writer.into_inner()
}

/// The faults of a dump whose file fails, at a sync and at another call.
const UNSYNCED: DumpFault = DumpFault::Journal(OpenFault::Device(JournalFault::SyncFailed));

const FAILED: DumpFault = DumpFault::Journal(OpenFault::Device(JournalFault::Failed));

/// The bytes of the dump of the script: a head, and 16 bytes and a frame for each entry.
const WHOLE: usize = 16 + 64 + 320 + 192 + 80;

/// What a dump returns if its call of this number fails, and how many bytes it wrote before. Its calls are a sync, and reads of the file and of its
/// end.
const DUMPS: &[(u64, Result<(), DumpFault>, usize)] = &[
    (1, Err(UNSYNCED), 0),
    (2, Err(FAILED), 0),
    (3, Err(FAILED), WHOLE),
    (4, Ok(()), WHOLE),
];

#[test]
fn a_dump_is_that_of_the_script(rt: HostRuntime) {
    let alloc = rt.alloc();
    let mut file = kept_file(&rt, alloc);
    let want = dump_of(&rt, alloc, COUNT);
    for (number, result, len) in DUMPS {
        file.fail_at(*number);
        let mut writer = Counting::new(Vec::new(alloc));
        expect_same(
            &rt,
            write_dump(alloc, &mut file, rules(&rt), &mut writer),
            *result,
        );
        expect_given(
            &rt,
            writer.into_inner(),
            want.get(..*len).unwrap_or_default(),
        );
    }
    drop(file);
    drop(want);
}

#[test]
fn a_history_is_read(rt: HostRuntime) {
    let alloc = rt.alloc();
    let mut file = kept_file(&rt, alloc);
    let read = read_history(alloc, &mut file);
    drop(file);
    let (rules, machine, extent) = sure(&rt, read);
    let entries = machine.commit();
    drop(machine);
    expect_same(&rt, (entries, extent.count), (4, 5));
    expect_same(
        &rt,
        (rules.profile, rules.clients_max.get()),
        (Profile::One, 2),
    );
}
