//! Why a storm does not end well.
ghost use Rattle.std.specs.Prelude.{◌≡◌, ◌<◌};
ghost use Rattle.tb_edge_commands.specs.ExitStatuses.{PrintsLine};
ghost use Rattle.tb_edge_storm.specs.Storms.{storm_exit_status, storm_fault_name, storm_line};

use std::alloc::{AllocError, AllocFailed};
use tb_edge_commands::{line_of, put_line};
use tb_published::{OpenFault, SeatFault};
use tb_records::Sink;

/// Why a storm does not end well.
#[derive(Clone, Copy, Debug, PartialEq, Eq)]
pub enum StormFault {
    /// There is no memory for copies, ports, the server's places or an answer.
    NoMemory,
    /// The copies have no place for a reader.
    NoPlace,
    /// There is no copy to read, or it does not show the whole history.
    NoCopy,
    /// A client had no reply after all its calls.
    GaveUp,
    /// The lines could not be written.
    Device,
}

impl StormFault {
    /// 1 if a device, memory or a copy failed, 3 if a client gave up.
    pub fn exit_status(self) -> u8
        ensures value { result ≡ storm_exit_status self }
        ensures failing { 0 < result }
    {
        match self {
            StormFault::GaveUp => 3,
            _ => 1,
        }
    }

    /// Writes the line `tbs: ` and the fault's name. A failure to write it changes no exit status.
    pub fn print<E: Sink>(self, faults: &mut E)
        ensures { PrintsLine (storm_line self) (E.output faults.old) (E.output faults.new) }
    {
        put_line(line_of(self.name()).as_slice(), faults);
    }

    /// The fault's name, as its line shows it.
    fn name(self) -> &'static str
        ensures { result.now ≡ storm_fault_name self }
    {
        match self {
            StormFault::NoMemory => "NoMemory",
            StormFault::NoPlace => "NoPlace",
            StormFault::NoCopy => "NoCopy",
            StormFault::GaveUp => "GaveUp",
            StormFault::Device => "Device",
        }
    }
}

impl From<AllocError> for StormFault {
    ghost use Rattle.tb_edge_storm.specs.declared.faults.StormFault.TheVariants.{NoMemory};

    ghost from_gives = { λ _ fault. fault ≡ NoMemory };

    fn from(_: AllocError) -> StormFault {
        StormFault::NoMemory
    }
}

impl<T: Drop> From<AllocFailed<T>> for StormFault {
    ghost use Rattle.tb_edge_storm.specs.declared.faults.StormFault.TheVariants.{NoMemory};

    ghost from_gives = { λ _ fault. fault ≡ NoMemory };

    fn from(_: AllocFailed<T>) -> StormFault {
        StormFault::NoMemory
    }
}

impl From<OpenFault> for StormFault {
    ghost use Rattle.tb_edge_storm.specs.Storms.{of_opening};

    ghost from_gives = { λ of_open fault. fault ≡ of_opening of_open };

    fn from(fault: OpenFault) -> StormFault {
        match fault {
            OpenFault::NoMemory => StormFault::NoMemory,
            OpenFault::NoPlace => StormFault::NoPlace,
        }
    }
}

impl From<SeatFault> for StormFault {
    ghost use Rattle.tb_edge_storm.specs.Storms.{of_seat};

    ghost from_gives = { λ of_one fault. fault ≡ of_seat of_one };

    fn from(fault: SeatFault) -> StormFault {
        match fault {
            SeatFault::NoMemory => StormFault::NoMemory,
            SeatFault::NoCopy => StormFault::NoCopy,
        }
    }
}
