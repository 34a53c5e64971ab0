//! The operations of requests, by TigerBeetle's names.
ghost use Rattle.std.specs.Prelude.{◌≡◌, false, MatchOption, Some};
ghost use Rattle.tb_records.specs.Messages.{is_operation};
ghost use Rattle.tb_records.specs.Operations.{operation_code, operation_name};
ghost use Rattle.tb_records.specs.Named.{IsOnly};

use std::fmt;

/// The operation of a request: the number next to it is the one in a frame.
#[derive(Clone, Copy, Debug, PartialEq, Eq)]
pub enum Operation {
    /// Opens a session of a client.
    Register = 2,
    /// Creates accounts.
    CreateAccounts = 129,
    /// Creates transfers.
    CreateTransfers = 130,
    /// Looks accounts up by their ids.
    LookupAccounts = 131,
    /// Looks transfers up by their ids.
    LookupTransfers = 132,
}

impl Operation {
    /// All of them, by rising number.
    pub const ALL: [Operation; 5] = [
        Operation::Register,
        Operation::CreateAccounts,
        Operation::CreateTransfers,
        Operation::LookupAccounts,
        Operation::LookupTransfers,
    ];

    /// The operation's number, in a frame.
    pub fn code(self) -> u8
        ensures { result ≡ operation_code self }
    {
        self as u8
    }

    /// The operation that has a number; `None` if no operation has it.
    pub fn from_code(code: u8) -> Option<Operation>
        ensures value { MatchOption result (is_operation code ≡ false)
            (λ operation. operation_code operation ≡ code) }
        ensures only { IsOnly result (λ operation. operation_code operation ≡ code) }
    {
        match code {
            2 => Some(Operation::Register),
            129 => Some(Operation::CreateAccounts),
            130 => Some(Operation::CreateTransfers),
            131 => Some(Operation::LookupAccounts),
            132 => Some(Operation::LookupTransfers),
            _ => None,
        }
    }

    /// The operation's name, in TigerBeetle's spelling.
    pub fn name(self) -> &'static str
        ensures { result.now ≡ operation_name self }
    {
        match self {
            Operation::Register => "register",
            Operation::CreateAccounts => "create_accounts",
            Operation::CreateTransfers => "create_transfers",
            Operation::LookupAccounts => "lookup_accounts",
            Operation::LookupTransfers => "lookup_transfers",
        }
    }
}

impl fmt::Display for Operation {
    ghost output = { λ operation. Some (operation_name operation) };

    fn fmt<W: fmt::Write>(&self, f: &mut fmt::Formatter<W>) -> fmt::Result {
        f.write_str(self.name())
    }
}
