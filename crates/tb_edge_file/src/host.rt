//! The way from a program's input and output to a command.
ghost use Rattle.std.specs.Prelude.{◌≡◌};
ghost use Rattle.tb_edge_file.specs.Hosts.{input_size, output_size, known_host, HostedOn, ServesStreamsOn};

use crate::arguments::{Command, Form};
use crate::ends::{Files, Pipes};
use crate::executing::{Terminals, execute};
use crate::faults::KeepCommandFault;
use crate::lines::refuse;
use crate::openers::Opener;
use crate::outlets::Outgoing;
use std::alloc::Global;
use std::io::{BufReader, BufWriter, Read, Write};
use tb_records::{Buffered, Sink};

/// The bytes of input that a form that reads any holds at a time. All that is held goes into one commit, so fewer bytes would need more syncs.
const INPUT_BYTES: usize = 1 << 20;

/// The bytes of output that a dump, or a log, holds at a time.
const OUTPUT_BYTES: usize = 1 << 16;

/// The bytes that a form's reader and writer hold. Replies over a file are written at once, each time all that are buffered; and a form that
/// writes once needs no buffer.
fn capacities(form: Form) -> (usize, usize)
    ensures input { result.0 ≡ input_size form }
    ensures output { result.1 ≡ output_size form }
{
    match form {
        Form::Run(_, _, _) => (INPUT_BYTES, 0),
        Form::Follow(_, _) => (INPUT_BYTES, OUTPUT_BYTES),
        Form::Dump(_, _) => (0, OUTPUT_BYTES),
        _ => (0, 0),
    }
}

/// Does what a command asks for, between a reader and a writer with a buffer each.
fn between<O: Opener, R: Read + Drop, W: Write + Drop, E: Sink>(
    alloc: Global,
    opener: &mut O,
    command: &Command,
    ends: Terminals,
    pipes: Pipes<BufReader<R>, BufWriter<W>>,
    faults: &mut E,
) -> u8
    ensures { HostedOn (known_host ⟦<O as Files>⟧.its R.remaining W.contents E.Sink) ends command.now
        result opener pipes.reader pipes.writer faults }
{
    let Pipes { reader, writer } = pipes;
    let mut pipes = Pipes {
        reader: Buffered::new(reader),
        writer: Outgoing::new(writer),
    };
    execute(alloc, opener, command, ends, &mut pipes, faults)
}

/// Does what a command asks for, between an input and an output, both buffered, and returns the exit status.
pub fn serve<O: Opener, R: Read + Drop, W: Write + Drop, E: Sink>(
    alloc: Global,
    opener: &mut O,
    command: &Command,
    ends: Terminals,
    pipes: Pipes<R, W>,
    faults: &mut E,
) -> u8
    ensures { ServesStreamsOn (known_host ⟦<O as Files>⟧.its R.remaining W.contents E.Sink) ends command.now
        result opener pipes.reader pipes.writer faults }
{
    let (held_in, held_out) = capacities(command.form);
    let Pipes { reader, writer } = pipes;
    let Ok(reader) = BufReader::with_capacity(alloc, held_in, reader) else {
        return refuse(KeepCommandFault::NoMemory, faults);
    };
    let Ok(writer) = BufWriter::with_capacity(alloc, held_out, writer) else {
        return refuse(KeepCommandFault::NoMemory, faults);
    };
    let pipes = Pipes { reader, writer };
    between(alloc, opener, command, ends, pipes, faults)
}
