//! Each form, over what opens devices, any reader and any writer, and the exit status of each outcome.
ghost use Rattle.std.specs.Prelude.{◌≡◌, ◌||◌};
ghost use Rattle.tb_file.specs.Reading.{rules_of};
ghost use Rattle.tb_edge_file.specs.Exits.{ExitsOn, FinishesOutput, PerformsFormOn};

use crate::arguments::{Command, Form, Options};
use crate::commands::{check_over, dump_over, print, run_over};
use crate::copying::copy_over;
use crate::ends::{Ends, Files, Pipes};
use crate::faults::{Failed, KeepCommandFault};
use crate::follower::follow_log;
use crate::following::Part;
use crate::help::{VERSION, page};
use crate::keeping::FileStart;
use crate::lines::print_fault;
use crate::openers::Opener;
use crate::outlets::Outlet;
use std::alloc::Global;
use tb_file::Rules;
use tb_records::{ClientsMax, Profile, Sink, Source};

/// Which of the program's ends are terminals.
#[derive(Clone, Copy)]
pub struct Terminals {
    /// Standard input: then `run` reports which programs read words.
    pub input: bool,
    /// Standard error: then `run` reports its start.
    pub faults: bool,
}

/// A start over the file of a path, by these rules. It is reported if that is asked for, and on a terminal.
fn file_start(path: &str, rules: Rules, options: Options, ends: Terminals) -> FileStart<'_>
    ensures path { result.path.now ≡ path.now }
    ensures rules { result.rules ≡ rules }
    ensures reports { result.reports ≡ (options.reports || ends.faults) }
    ensures existing { result.existing ≡ options.existing }
{
    FileStart {
        path,
        rules,
        reports: options.reports || ends.faults,
        existing: options.existing,
    }
}

/// The rules of a profile and of this many clients.
fn rules_of(profile: Profile, clients_max: ClientsMax) -> Rules
    ensures { result ≡ rules_of profile clients_max }
{
    Rules {
        profile,
        clients_max,
    }
}

/// Does what a command asks for.
fn perform<O: Opener, R: Source, W: Outlet, E: Sink>(
    alloc: Global,
    opener: &mut O,
    command: &Command,
    ends: Terminals,
    pipes: &mut Pipes<R, W>,
    faults: &mut E,
) -> Result<(), KeepCommandFault>
    ensures { PerformsFormOn ⟦<O as Ends<R, W, E>>⟧.its ends command.now result opener pipes faults }
{
    let (path, new) = (command.file, command.new);
    match command.form {
        Form::Run(clients_max, profile, options) => {
            let rules = rules_of(profile, clients_max);
            let file = file_start(path, rules, options, ends);
            run_over(alloc, opener, &file, ends.input, pipes, faults)
        }
        Form::Follow(clients_max, profile) => {
            let rules = rules_of(profile, clients_max);
            follow_log(alloc, rules, &mut pipes.reader, &mut pipes.writer)
        }
        Form::Dump(after, follows) => {
            let part = Part { after, follows };
            dump_over(alloc, opener, path, &mut pipes.writer, part)
        }
        Form::Check(quick) => check_over(alloc, opener, path, quick, &mut pipes.writer),
        Form::Salvage => copy_over(alloc, opener, path, new, false, &mut pipes.writer),
        Form::Backup => copy_over(alloc, opener, path, new, true, &mut pipes.writer),
        Form::Help(form) => print(&mut pipes.writer, page(form)),
        Form::Version => print(&mut pipes.writer, VERSION),
    }
}

/// Sends what a writer holds back, if all was done.
fn finish<W: Outlet>(
    done: Result<(), KeepCommandFault>,
    writer: &mut W,
) -> Result<(), KeepCommandFault>
    ensures { FinishesOutput (W.gone writer.new) done result (W.output writer.old) (W.output writer.new) }
{
    match done {
        Ok(()) => match writer.finish() {
            Ok(()) => Ok(()),
            Err(_) => Err(KeepCommandFault::Device(Failed::Output)),
        },
        Err(fault) => Err(fault),
    }
}

/// Does what a command asks for, and returns the exit status: 0 if it was done, otherwise that of the fault, whose line goes to `faults`. Before
/// that, a start of `run` reports there what it did to the file.
pub(crate) fn execute<O: Opener, R: Source, W: Outlet, E: Sink>(
    alloc: Global,
    opener: &mut O,
    command: &Command,
    ends: Terminals,
    pipes: &mut Pipes<R, W>,
    faults: &mut E,
) -> u8
    ensures { ExitsOn ⟦<O as Ends<R, W, E>>⟧.its ends command.now result opener pipes faults }
{
    let done = perform(alloc, opener, command, ends, pipes, faults);
    match finish(done, &mut pipes.writer) {
        Ok(()) => 0,
        Err(fault) => {
            print_fault(fault, fault.path(command.file, command.new), faults);
            fault.exit_status()
        }
    }
}
