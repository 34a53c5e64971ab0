//! The calls that C makes. Each takes the handle by reference, returns a status, and needs from its caller only what
//! embed/tb_embed.h says of pointers.
ghost use Rattle.std.specs.Prelude.{◌≡◌, None};
ghost use Rattle.tb_embed.specs.Outcomes.{Reports, ReportsLength};
ghost use Rattle.tb_embed.specs.Calls.{standing, id_of_halves, OpensHandle, ServesFrame, ShowsAccount, ShowsTransfer};

use crate::asking::serve;
use crate::handles::open;
use crate::servers::TbServer;
use crate::showing::{show_account, show_transfer};
use std::alloc::Global;

/// Opens a closed handle at the empty history: profile 1 or 2, and 1 to `CLIENTS_MAX` clients with a session at one time. Statuses: 0
/// opened, 2 wrong arguments or an open handle, 3 no memory.
#[unsafe(no_mangle)]
pub extern "C" fn tb_embed_open(
    alloc: Global,
    server: &mut TbServer,
    profile: u32,
    clients_max: u32,
) -> u32
    ensures { Reports result (OpensHandle profile clients_max (standing server.old) (standing server.new)) }
{
    open(alloc, server, profile, clients_max).status()
}

/// Serves the frame of a request that comes at a moment, in nanoseconds, and writes the frame of the reply into the room.
/// Statuses: 0 answered, and `written` is the length of the reply; 1 a closed handle; 3 no memory; 4 no frame of a request,
/// or bytes after it; 5 no time is left; 7 answered, but the room is too small, and `written` is how many bytes it needs.
/// The same request, sent next, gets the same reply.
#[unsafe(no_mangle)]
pub extern "C" fn tb_embed_serve(
    alloc: Global,
    server: &mut TbServer,
    moment: u64,
    request: &[u8],
    reply: &mut [u8],
    written: &mut usize,
) -> u32
    ensures { ReportsLength result written.new
        (ServesFrame (standing server.old) (standing server.new) moment request.now reply.new) }
{
    let outcome = serve(alloc, server, moment, request, reply);
    *written = outcome.length();
    outcome.status()
}

/// Writes the 128 bytes of an account as it is now, its id in two halves. Statuses: 0 written, 1 a closed handle, 6 no such
/// account, 7 the room is shorter than 128 bytes.
#[unsafe(no_mangle)]
pub extern "C" fn tb_embed_account(
    alloc: Global,
    server: &mut TbServer,
    id_low: u64,
    id_high: u64,
    account: &mut [u8],
) -> u32
    ensures { Reports result (ShowsAccount (id_of_halves id_low id_high) server.old server.new account.new) }
{
    show_account(alloc, server, id(id_low, id_high), account).status()
}

/// Writes the 128 bytes of a transfer as it was recorded, its id in two halves. The statuses are those for an account.
#[unsafe(no_mangle)]
pub extern "C" fn tb_embed_transfer(
    alloc: Global,
    server: &mut TbServer,
    id_low: u64,
    id_high: u64,
    transfer: &mut [u8],
) -> u32
    ensures { Reports result (ShowsTransfer (id_of_halves id_low id_high) server.old server.new transfer.new) }
{
    show_transfer(alloc, server, id(id_low, id_high), transfer).status()
}

/// Closes the handle, and frees its server if it has one.
#[unsafe(no_mangle)]
pub extern "C" fn tb_embed_close(alloc: Global, server: &mut TbServer)
    ensures { standing server.new ≡ None }
{
    let _held = server.take(alloc);
}

/// An id of its two halves.
pub(crate) fn id(low: u64, high: u64) -> u128
    ensures { result ≡ id_of_halves low high }
{
    u128::from(low) + u128::from(high) * 18_446_744_073_709_551_616
}
