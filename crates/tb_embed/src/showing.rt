//! Accounts and transfers shown outside sessions.
ghost use Rattle.std.specs.Prelude.{◌≡◌, ◌≤◌, length, take};
ghost use Rattle.tb_embed.specs.Calls.{ShowsRecordBytes, ShowsAccount, ShowsTransfer};

use crate::outcomes::Outcome;
use crate::servers::TbServer;
use std::alloc::Global;

/// Writes the bytes of a record to the start of a room.
fn write(bytes: &[u8; 128], room: &mut [u8])
    requires { 128 ≤ length room.old }
    ensures written { take 128 room.new ≡ bytes.now }
    ensures same_length { length room.new ≡ length room.old }
{
    room[..128].copy_from_slice(bytes);
}

/// Writes the bytes of a record that is there.
fn show(found: Option<[u8; 128]>, room: &mut [u8]) -> Outcome
    ensures { ShowsRecordBytes result found room.new }
{
    if room.len() < 128 {
        return Outcome::TooSmall(128);
    }
    let Some(bytes) = found else {
        return Outcome::Absent
    };
    write(&bytes, room);
    Outcome::Done(128)
}

/// Shows an account as it is now.
pub(crate) fn show_account(
    alloc: Global,
    server: &mut TbServer,
    id: u128,
    room: &mut [u8],
) -> Outcome
    ensures { ShowsAccount id server.old server.new room.new result }
{
    let Some(held) = server.take(alloc) else {
        return Outcome::Closed
    };
    let found = match held.machine.account(id) {
        Some(account) => Some(account.to_bytes()),
        None => None,
    };
    server.put(held);
    show(found, room)
}

/// Shows a transfer as it was recorded.
pub(crate) fn show_transfer(
    alloc: Global,
    server: &mut TbServer,
    id: u128,
    room: &mut [u8],
) -> Outcome
    ensures { ShowsTransfer id server.old server.new room.new result }
{
    let Some(held) = server.take(alloc) else {
        return Outcome::Closed
    };
    let found = match held.machine.transfer(id) {
        Some(transfer) => Some(transfer.to_bytes()),
        None => None,
    };
    server.put(held);
    show(found, room)
}
