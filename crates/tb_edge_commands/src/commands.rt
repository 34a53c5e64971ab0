//! The forms `run`, `dump` and `replay`, over any reader and writer, and the exit status of each outcome.
ghost use Rattle.std.specs.Prelude.{◌≡◌, ◌<◌, map, string_bytes};
ghost use Rattle.tb_edge_commands.specs.ExitStatuses.{fault_exit_status, command_fault_name, fault_line, PrintsLine, Reports, PerformsOn, DoesOn, LeavesUntouched};

use crate::arguments::{Form, read_form};
use crate::lines::{line_of, put_line};
use std::alloc::Global;
use tb_machine::{RunFault, dump, replay, run};
use tb_records::{DumpFault, FrameFault, Sink, Source};

/// Why the program ends with an exit status other than 0; shown only by its name.
#[derive(Clone, Copy, Debug, PartialEq, Eq)]
pub enum CommandFault {
    /// The arguments are not one of the program's forms.
    Usage,
    /// The script could not be served to its end.
    Serving(RunFault),
    /// The dump could not be replayed to its end.
    Replaying(DumpFault),
}

impl From<RunFault> for CommandFault {
    ghost use Rattle.tb_edge_commands.specs.declared.commands.CommandFault.TheVariants.{Serving};

    ghost from_gives = { λ of_run fault. fault ≡ Serving of_run };

    fn from(fault: RunFault) -> CommandFault {
        CommandFault::Serving(fault)
    }
}

impl From<DumpFault> for CommandFault {
    ghost use Rattle.tb_edge_commands.specs.declared.commands.CommandFault.TheVariants.{Replaying};

    ghost from_gives = { λ of_dump fault. fault ≡ Replaying of_dump };

    fn from(fault: DumpFault) -> CommandFault {
        CommandFault::Replaying(fault)
    }
}

impl CommandFault {
    /// 1 if a device or memory failed, 2 if the input or the arguments are wrong.
    fn exit_status(self) -> u8
        ensures value { result ≡ fault_exit_status self }
        ensures failing { 0 < result }
    {
        match self {
            CommandFault::Serving(RunFault::NoMemory) => 1,
            CommandFault::Serving(RunFault::Frame(FrameFault::Device | FrameFault::NoMemory)) => 1,
            CommandFault::Replaying(DumpFault::NoMemory) => 1,
            CommandFault::Replaying(DumpFault::Frame(FrameFault::Device | FrameFault::NoMemory)) =>
                1,
            _ => 2,
        }
    }

    /// The fault's name, as its line shows it.
    fn name(self) -> &'static str
        ensures { result.now ≡ command_fault_name self }
    {
        match self {
            CommandFault::Usage => "Usage",
            CommandFault::Serving(fault) => fault.name(),
            CommandFault::Replaying(fault) => fault.name(),
        }
    }
}

/// Writes the line `tbs: ` and the fault's name. A failure to write it changes no exit status.
fn print_fault<E: Sink>(fault: CommandFault, faults: &mut E)
    ensures { PrintsLine (fault_line fault) (E.output faults.old) (E.output faults.new) }
{
    put_line(line_of(fault.name()).as_slice(), faults);
}

/// Serves what the form asks for.
fn perform<R: Source, W: Sink>(
    alloc: Global,
    form: Form,
    reader: &mut R,
    writer: &mut W,
) -> Result<u64, CommandFault>
    ensures { PerformsOn R.Source W.Sink form result reader writer }
{
    let count = match form {
        Form::Run(clients_max, profile) => run(alloc, profile, clients_max, reader, writer)?,
        Form::Dump(clients_max, at) => dump(alloc, clients_max, at, reader, writer)?,
        Form::Replay => replay(alloc, reader, writer)?,
    };
    Ok(count)
}

/// Does what the words ask for, from a reader to a writer, and returns how many replies or entries that makes. Words of no
/// form are found before any input is read.
pub(crate) fn command<R: Source, W: Sink>(
    alloc: Global,
    words: &[String],
    reader: &mut R,
    writer: &mut W,
) -> Result<u64, CommandFault>
    ensures does { DoesOn R.Source W.Sink (map string_bytes words.now) result reader writer }
    ensures untouched { LeavesUntouched (map string_bytes words.now) reader.old reader.new writer.old writer.new }
{
    let Some(form) = read_form(words) else {
        return Err(CommandFault::Usage);
    };
    perform(alloc, form, reader, writer)
}

/// Prints the fault, and returns its exit status.
pub fn refuse<E: Sink>(fault: CommandFault, faults: &mut E) -> u8
    ensures value { result ≡ fault_exit_status fault }
    ensures failing { 0 < result }
    ensures printed { PrintsLine (fault_line fault) (E.output faults.old) (E.output faults.new) }
{
    print_fault(fault, faults);
    fault.exit_status()
}

/// Returns the exit status of an outcome, and prints the line of a fault.
pub(crate) fn report<E: Sink>(outcome: Result<u64, CommandFault>, faults: &mut E) -> u8
    ensures quiet { result ≡ 0 → faults.new ≡ faults.old }
    ensures reported { Reports outcome result (E.output faults.old) (E.output faults.new) }
{
    match outcome {
        Ok(_) => 0,
        Err(fault) => refuse(fault, faults),
    }
}
