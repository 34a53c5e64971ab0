//! Why the program ends before its input does.
ghost use Rattle.std.specs.Prelude.{◌≡◌};
ghost use Rattle.tb_oracle.specs.Faults.{oracle_fault_name, oracle_exit_status};
ghost use Rattle.tb_oracle.specs.Streams.{IsOfReading};

use std::alloc::AllocError;
use std::{fmt, io};
use tb_caller::FieldFault;
use tb_records::FrameFault;
use thiserror::Error;

/// Why the next step has no answer. All steps before it are answered.
#[derive(Clone, Copy, Debug, PartialEq, Eq, Error)]
pub enum OracleFault {
    /// The input ends within a step, or a step's frame of a request is wrong; a device failed, or there is no memory.
    Frame(FrameFault),
    /// No client has the fields.
    Field(FieldFault),
    /// No phase has this number.
    UnknownPhase,
    /// No kind of step has this number.
    UnknownStep,
}

impl OracleFault {
    /// The fault's name, as its line shows it.
    pub fn name(self) -> &'static str
        ensures { result.now ≡ oracle_fault_name self }
    {
        match self {
            OracleFault::Frame(fault) => fault.name(),
            OracleFault::Field(fault) => fault.name(),
            OracleFault::UnknownPhase => "UnknownPhase",
            OracleFault::UnknownStep => "UnknownStep",
        }
    }

    /// 1 if a device or memory failed, 2 if the input is wrong.
    pub fn exit_status(self) -> u8
        ensures { result ≡ oracle_exit_status self }
    {
        match self {
            OracleFault::Frame(FrameFault::Device | FrameFault::NoMemory) => 1,
            _ => 2,
        }
    }
}

impl fmt::Display for OracleFault {
    ghost use Rattle.std.specs.Prelude.{Some};
    ghost use Rattle.tb_oracle.specs.Faults.{oracle_fault_name};

    ghost output = { λ fault. Some (oracle_fault_name fault) };

    fn fmt<W: fmt::Write>(&self, f: &mut fmt::Formatter<W>) -> fmt::Result {
        f.write_str(self.name())
    }
}

impl From<FrameFault> for OracleFault {
    ghost use Rattle.tb_oracle.specs.declared.faults.OracleFault.TheVariants.{Frame};

    ghost from_gives = { λ of_frame fault. fault ≡ Frame of_frame };

    fn from(fault: FrameFault) -> OracleFault {
        OracleFault::Frame(fault)
    }
}

impl From<FieldFault> for OracleFault {
    ghost use Rattle.tb_oracle.specs.declared.faults.OracleFault.TheVariants.{Field};

    ghost from_gives = { λ of_fields fault. fault ≡ Field of_fields };

    fn from(fault: FieldFault) -> OracleFault {
        OracleFault::Field(fault)
    }
}

impl From<AllocError> for OracleFault {
    ghost use Rattle.tb_oracle.specs.declared.faults.OracleFault.TheVariants.{Frame};
    ghost use Rattle.tb_records.specs.declared.faults.FrameFault.TheVariants.{NoMemory};

    ghost from_gives = { λ _ fault. fault ≡ Frame NoMemory };

    fn from(_: AllocError) -> OracleFault {
        OracleFault::Frame(FrameFault::NoMemory)
    }
}

/// The fault of a failed read.
pub fn fault_of(error: &io::Error) -> OracleFault
    ensures { IsOfReading result }
{
    match error.kind() {
        io::ErrorKind::UnexpectedEof => OracleFault::Frame(FrameFault::Short),
        io::ErrorKind::OutOfMemory => OracleFault::Frame(FrameFault::NoMemory),
        _ => OracleFault::Frame(FrameFault::Device),
    }
}
