//! The first requests through `take` and a seat, as steps: what becomes of each, the bytes of the answer to it, and what a
//! seat looks up.
use crate::making::Asked;
use crate::published::frames::Header;
use crate::published::steps::Step;
use tb_published::Taken;
use tb_records::Status;

/// The first bytes of a header: the client.
const CLIENT_7: u128 = 0x07000000_00000000_00000000_00000000;

/// The first bytes of a header: the client.
const CLIENT_9: u128 = 0x09000000_00000000_00000000_00000000;

/// The header of the register's reply, and of its repeat's.
const REGISTERED: Header = [
    CLIENT_7,
    0x01000000_00000000_00000000_02000000,
    0x00000000_01000000_00000000_00000000,
];

/// The header of the transfer's reply, and of its repeat's.
const MOVED: Header = [
    CLIENT_7,
    0x01000000_00000000_03000000_82000000,
    0x00000000_04000000_00000000_00000000,
];

/// Client 7 registers, again too, creates accounts 1 and 2, and looks them up. It transfers, twice, and one of each refusal
/// follows. Its next request is the fifth entry: two seats find the reply to it, one of them after it learns of it too.
pub(crate) const FIRST_ROWS: &[Step] = &[
    Step::Row((
        (7, 0, 0),
        Asked::Register,
        Taken::Committed(1),
        REGISTERED,
        false,
    )),
    Step::Row((
        (7, 0, 0),
        Asked::Register,
        Taken::Repeat(1),
        REGISTERED,
        false,
    )),
    Step::Row((
        (7, 1, 1),
        Asked::TwoAccounts,
        Taken::Committed(2),
        [
            CLIENT_7,
            0x01000000_00000000_01000000_81000000,
            0x00000000_02000000_00000000_00000000,
        ],
        false,
    )),
    Step::Row((
        (7, 1, 2),
        Asked::Lookup(&[2, 9, 1]),
        Taken::Committed(3),
        [
            CLIENT_7,
            0x01000000_00000000_02000000_83000000,
            0x00010000_03000000_00000000_00000000,
        ],
        true,
    )),
    Step::Accounts(3, 0),
    Step::Row((
        (7, 1, 3),
        Asked::Transfer(11, 1, 100),
        Taken::Committed(4),
        MOVED,
        false,
    )),
    Step::Row((
        (7, 1, 3),
        Asked::Transfer(11, 1, 100),
        Taken::Repeat(4),
        MOVED,
        false,
    )),
    Step::Row((
        (7, 1, 2),
        Asked::Lookup(&[2, 9, 1]),
        Taken::Refused(Status::Older),
        [CLIENT_7, 0x01000000_00000000_02000000_83040000, 0],
        false,
    )),
    Step::Row((
        (7, 1, 3),
        Asked::Transfer(11, 1, 101),
        Taken::Refused(Status::Collision),
        [CLIENT_7, 0x01000000_00000000_03000000_82050000, 0],
        false,
    )),
    Step::Row((
        (7, 1, 5),
        Asked::Lookup(&[]),
        Taken::Refused(Status::NewerRequest),
        [CLIENT_7, 0x01000000_00000000_05000000_83060000, 0],
        false,
    )),
    Step::Row((
        (7, 2, 4),
        Asked::Lookup(&[]),
        Taken::Refused(Status::NewerSession),
        [CLIENT_7, 0x02000000_00000000_04000000_83030000, 0],
        false,
    )),
    Step::Row((
        (7, 0, 4),
        Asked::Lookup(&[]),
        Taken::Refused(Status::SessionTooLow),
        [CLIENT_7, 0x00000000_00000000_04000000_83020000, 0],
        false,
    )),
    Step::Row((
        (9, 1, 1),
        Asked::Lookup(&[]),
        Taken::Refused(Status::NoSession),
        [CLIENT_9, 0x01000000_00000000_01000000_83010000, 0],
        false,
    )),
    Step::Accounts(4, 100),
    Step::Transfers,
    Step::Entries(4),
    Step::Take((7, 1, 4), Asked::Lookup(&[]), 10, Ok(Taken::Committed(5))),
    Step::SecondStatus((7, 1, 4), Asked::Lookup(&[]), Status::Reply, 5),
    Step::SecondLearns,
    Step::SecondStatus((7, 1, 4), Asked::Lookup(&[]), Status::Reply, 5),
    Step::Accounts(5, 100),
];
