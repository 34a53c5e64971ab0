//! The way from a program's arguments, input and output to a command.
ghost use Rattle.std.specs.Prelude.{◌≡◌, map, string_bytes};
ghost use Rattle.tb_edge_commands.specs.ExitStatuses.{words_fault};
ghost use Rattle.tb_edge_commands.specs.Hosts.{EndsBetween, EndsWithin, ServesOn};

use crate::commands::{CommandFault, command, report};
use std::alloc::Global;
use std::env;
use std::io::{self, BufReader, BufWriter, Read, Write};
use std::rt::Env;
use tb_machine::RunFault;
use tb_records::{Buffered, Counting, FrameFault, Sink};

/// The bytes that a program buffers of its input, and of its output.
const BUFFER_BYTES: usize = 65536;

/// The words after the program's name.
pub fn words<R: Env + AllocGlobal>(rt: &R) -> io::Result<Vec<String>> {
    let mut words = Vec::new(rt.alloc());
    for word in env::args(rt)?.skip(1) {
        words.push(word)?;
    }
    Ok(words)
}

/// The fault if the words are not available: a word is not text, or there is no memory for them.
pub fn fault_of(error: &io::Error) -> CommandFault
    ensures { result ≡ words_fault error.now }
{
    match error.kind() {
        io::ErrorKind::OutOfMemory => CommandFault::Serving(RunFault::NoMemory),
        _ => CommandFault::Usage,
    }
}

/// Does what the words ask for between two buffers. Replies are held back only while more requests are buffered; those that
/// are at the end are sent then. If that fails they are lost, and this fault comes before any other.
fn between<R: Read + Drop, W: Write + Drop>(
    alloc: Global,
    words: &[String],
    input: BufReader<R>,
    output: BufWriter<W>,
) -> Result<u64, CommandFault>
    ensures { EndsWithin R.remaining W.contents (map string_bytes words.now) result input output }
{
    let mut reader = Buffered::new(input);
    let mut writer = Counting::new(output);
    let outcome = command(alloc, words, &mut reader, &mut writer);
    let mut output = writer.into_inner();
    if output.flush().is_err() {
        return Err(CommandFault::Serving(RunFault::Frame(FrameFault::Device)));
    }
    outcome
}

/// Does what the words ask for between an input and an output, both buffered.
fn buffered<R: Read + Drop, W: Write + Drop>(
    alloc: Global,
    words: &[String],
    input: R,
    output: W,
) -> Result<u64, CommandFault>
    ensures { EndsBetween R.remaining W.contents (map string_bytes words.now) result input output }
{
    let Ok(input) = BufReader::with_capacity(alloc, BUFFER_BYTES, input) else {
        return Err(CommandFault::Serving(RunFault::NoMemory));
    };
    let Ok(output) = BufWriter::with_capacity(alloc, BUFFER_BYTES, output) else {
        return Err(CommandFault::Serving(RunFault::NoMemory));
    };
    between(alloc, words, input, output)
}

/// Does what the words ask for between an input and an output, both buffered, and returns the exit status: 0 if it is done,
/// and then nothing goes to `faults`; otherwise that of the fault, whose line goes there.
pub fn serve<R: Read + Drop, W: Write + Drop, E: Sink>(
    alloc: Global,
    words: &[String],
    input: R,
    output: W,
    faults: &mut E,
) -> u8
    ensures quiet { result ≡ 0 → faults.new ≡ faults.old }
    ensures served { ServesOn R.remaining W.contents E.Sink (map string_bytes words.now) result input output faults }
{
    let outcome = buffered(alloc, words, input, output);
    report(outcome, faults)
}
