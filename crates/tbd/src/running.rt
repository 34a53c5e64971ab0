//! What the words ask for, done over the files of the system and the standard streams.
use crate::host_names::HostNames;
use crate::surroundings::HostSurroundings;
use std::cell::Cell;
use std::io::{BufWriter, IsTerminal, Stderr};
use tb_edge_file::{Command, Pipes, Steady, Terminals, read_command, refuse_words, serve};
use tb_edge_names::{Copies, Copying, Dropping, NamedFiles};
use tb_records::Counting;

/// Does what a command asks for, and returns the exit status.
fn run<C: Copies>(
    rt: &HostRuntime,
    command: &Command,
    faults: &mut Counting<BufWriter<Stderr>>,
) -> u8 {
    let ends = Terminals {
        input: rt.stdin().is_terminal(),
        faults: rt.stderr().is_terminal(),
    };
    let reports = command.form.options().reports || ends.faults;
    let reason = Cell::new(None);
    let around = HostSurroundings {
        rt,
        reason: &reason,
    };
    let files = HostNames::new(rt);
    let mut files = NamedFiles::<HostNames, HostSurroundings, C>::new(
        rt.alloc(),
        files,
        around,
        reports,
    );
    let pipes = Pipes {
        reader: Steady::new(rt.stdin()),
        writer: Steady::new(rt.stdout()),
    };
    serve(rt.alloc(), &mut files, command, ends, pipes, faults)
}

/// Does what the words ask for, and returns the exit status.
pub(crate) fn run_words(
    rt: &HostRuntime,
    words: &[String],
    faults: &mut Counting<BufWriter<Stderr>>,
) -> u8 {
    match read_command(words) {
        Ok(command) => {
            if command.form.options().drops {
                run::<Dropping>(rt, &command, faults)
            } else {
                run::<Copying>(rt, &command, faults)
            }
        }
        Err(wrong) => refuse_words(words, wrong, faults),
    }
}
