//! The calls, made as C makes them. The frame of a register and its reply are those of examples/first.script.
use crate::callers::{tb_caller_call, tb_caller_check, tb_caller_received};
use crate::calls::{
    tb_embed_account, tb_embed_close, tb_embed_open, tb_embed_serve, tb_embed_transfer,
};
use crate::servers::TbServer;
use crate::steps::TbCaller;
use std::alloc::Global;
use std::process::Abort;
use std::test::Fail;
use tb_records::{Account, Body, Items, Request, write_request};

/// The frame by which client 7 registers.
const REGISTER: [u8; 48] = [
    7, 0, 0, 0, 0, 0, 0, 0, 0, 0, 0, 0, 0, 0, 0, 0, // client
    0, 0, 0, 0, 0, 0, 0, 0, 0, 0, 0, 0, 2, 0, 0, 0, // session, request, operation
    0, 0, 0, 0, 0, 0, 0, 0, 0, 0, 0, 0, 0, 0, 0, 0, // length
];

/// The reply: what the request has, and session 1 and commit 1.
fn registered() -> [u8; 48] {
    let mut reply = REGISTER;
    reply[16] = 1;
    reply[36] = 1;
    reply
}

/// What a serving returned: the status, and the length that it reported.
#[derive(Clone, Copy, Debug, PartialEq, Eq)]
struct Fared {
    status: u32,
    written: usize,
}

fn serve(
    alloc: Global,
    server: &mut TbServer,
    moment: u64,
    frame: &[u8],
    room: &mut [u8],
) -> Fared {
    let mut written = 9;
    let status = tb_embed_serve(alloc, server, moment, frame, room, &mut written);
    Fared { status, written }
}

fn expect_opened(rt: &impl Abort, alloc: Global, server: &mut TbServer) {
    let mut room = [0; 48];
    let closed = Fared {
        status: 1,
        written: 0,
    };
    assert_eq!(rt; serve(alloc, server, 10, &REGISTER, &mut room), closed);
    assert_eq!(rt; tb_embed_account(alloc, server, 1, 0, &mut room), 1);
    for (profile, clients_max) in [(0, 2), (3, 2), (1, 0), (1, 65)] {
        assert_eq!(rt; tb_embed_open(alloc, server, profile, clients_max), 2);
    }
    assert_eq!(rt; tb_embed_open(alloc, server, 2, 64), 0);
    assert_eq!(rt; tb_embed_open(alloc, server, 1, 2), 2);
    tb_embed_close(alloc, server);
    tb_embed_close(alloc, server);
    assert_eq!(rt; serve(alloc, server, 10, &REGISTER, &mut room), closed);
    assert_eq!(rt; tb_embed_open(alloc, server, 1, 2), 0);
}

/// Takes what may go to another thread.
fn expect_send<T: Send>(_: &T) {}

#[test]
fn opened_and_closed(rt: HostRuntime) -> Result<(), Fail> {
    let mut server = TbServer::closed(rt.alloc());
    expect_send(&server);
    expect_opened(&rt, rt.alloc(), &mut server);
    tb_embed_close(rt.alloc(), &mut server);
    Ok(())
}

/// Malformed bytes are refused, and so is a new request that finds no time.
fn expect_refused(rt: &impl Abort, alloc: Global, server: &mut TbServer) {
    let mut room = [9; 60];
    let mut longer = [0; 49];
    longer[..48].copy_from_slice(&REGISTER);
    assert_eq!(rt; tb_embed_open(alloc, server, 1, 2), 0);
    let malformed = Fared {
        status: 4,
        written: 0,
    };
    assert_eq!(rt;
        serve(alloc, server, 10, &REGISTER[..47], &mut room),
        malformed
    );
    assert_eq!(rt; serve(alloc, server, 10, &longer, &mut room), malformed);
    let late = serve(
        alloc,
        server,
        9_223_372_036_854_775_808,
        &REGISTER,
        &mut room,
    );
    assert_eq!(rt; late.status, 5);
}

/// A room that is too small loses nothing: the request, sent again, gets its first reply.
fn expect_register(rt: &impl Abort, alloc: Global, server: &mut TbServer) {
    let mut room = [9; 60];
    let mut short = [0; 47];
    let small = serve(alloc, server, 10, &REGISTER, &mut short);
    assert_eq!(rt;
        small,
        Fared {
            status: 7,
            written: 48
        }
    );
    let done = serve(alloc, server, 10, &REGISTER, &mut room);
    assert_eq!(rt;
        done,
        Fared {
            status: 0,
            written: 48
        }
    );
    assert!(rt; room.starts_with(&registered()));
    assert_eq!(rt; room[48], 9);
}

#[test]
fn first_register(rt: HostRuntime) -> Result<(), Fail> {
    let mut server = TbServer::closed(rt.alloc());
    expect_refused(&rt, rt.alloc(), &mut server);
    expect_register(&rt, rt.alloc(), &mut server);
    tb_embed_close(rt.alloc(), &mut server);
    Ok(())
}

fn account_of(id: u128) -> Account {
    Account {
        id,
        ledger: 700,
        code: 10,
        ..Account::default()
    }
}

/// The frame of client 7's request 1 of session 1, to create this account.
fn creation(alloc: Global, id: u128) -> Result<Vec<u8>, Fail> {
    let mut events = Vec::new(alloc);
    events.push(account_of(id))?;
    let mut frame = Vec::new(alloc);
    match Request::new(7, 1, 1, Body::CreateAccounts(Items::new(events))) {
        Ok(request) => write_request(&request, &mut frame)?,
        Err(_) => return Err("no request".into()),
    }
    Ok(frame)
}

/// The account has the first timestamp after the register's time; only it is there.
fn expect_account(rt: &impl Abort, alloc: Global, server: &mut TbServer, frame: &[u8]) {
    let mut room = [0; 128];
    let mut short = [0; 127];
    assert_eq!(rt; tb_embed_open(alloc, server, 1, 2), 0);
    assert_eq!(rt; serve(alloc, server, 10, &REGISTER, &mut room).status, 0);
    assert_eq!(rt; serve(alloc, server, 10, frame, &mut room).status, 0);
    assert_eq!(rt; tb_embed_account(alloc, server, 5, 1, &mut short), 7);
    let status = tb_embed_account(alloc, server, 5, 1, &mut room);
    assert_eq!(rt; status, 0);
    let mut shown = account_of(18_446_744_073_709_551_621);
    shown.timestamp = 11;
    assert_eq!(rt; room.as_slice(), shown.to_bytes().as_slice());
    assert_eq!(rt; tb_embed_account(alloc, server, 5, 0, &mut room), 6);
    assert_eq!(rt; tb_embed_transfer(alloc, server, 5, 1, &mut room), 6);
}

#[test]
fn account_of_two_halves(rt: HostRuntime) -> Result<(), Fail> {
    let frame = creation(rt.alloc(), 18_446_744_073_709_551_621)?;
    let mut server = TbServer::closed(rt.alloc());
    expect_account(&rt, rt.alloc(), &mut server, frame.as_slice());
    tb_embed_close(rt.alloc(), &mut server);
    Ok(())
}

/// A new client of id 7.
fn client() -> TbCaller {
    TbCaller {
        id_low: 7,
        id_high: 0,
        session: 0,
        last: 0,
        phase: 0,
    }
}

/// What a reply was for the request that waits.
#[derive(Clone, Copy, Debug, PartialEq, Eq)]
struct Taken {
    status: u32,
    heard: u32,
    read: usize,
}

fn received(alloc: Global, caller: &mut TbCaller, frame: &[u8], reply: &[u8]) -> Taken {
    let mut heard = 9;
    let mut read = 9;
    let status = tb_caller_received(alloc, caller, frame, reply, &mut heard, &mut read);
    Taken {
        status,
        heard,
        read,
    }
}

/// The register is made once, in a room that holds it.
fn expect_called(rt: &impl Abort, alloc: Global, caller: &mut TbCaller, frame: &mut [u8]) {
    let mut written = 9;
    let status = tb_caller_call(alloc, caller, &REGISTER[..47], frame, &mut written);
    assert_eq!(rt; (status, written), (6, 0));
    let mut short = [0; 47];
    let status = tb_caller_call(alloc, caller, &REGISTER, &mut short, &mut written);
    assert_eq!(rt; (status, written), (7, 48));
    assert_eq!(rt; *caller, client());
    let status = tb_caller_call(alloc, caller, &REGISTER, frame, &mut written);
    assert_eq!(rt; (status, written), (0, 48));
    assert_eq!(rt; caller.phase, 1);
    let status = tb_caller_call(alloc, caller, &REGISTER, &mut short, &mut written);
    assert_eq!(rt; (status, written), (3, 0));
}

/// A frame with a fault changes nothing, and the reply is taken once.
fn expect_received(rt: &impl Abort, alloc: Global, caller: &mut TbCaller, frame: &[u8]) {
    let open = *caller;
    let cut = Taken {
        status: 6,
        heard: 3,
        read: 0,
    };
    let reply = registered();
    let short = reply.get(..47).unwrap_or(&[]);
    assert_eq!(rt; received(alloc, caller, frame, short), cut);
    let part = frame.get(..47).unwrap_or(&[]);
    assert_eq!(rt; received(alloc, caller, part, &reply).status, 13);
    assert_eq!(rt; *caller, open);
    let returned = Taken {
        status: 0,
        heard: 0,
        read: 48,
    };
    assert_eq!(rt; received(alloc, caller, frame, &reply), returned);
    assert_eq!(rt; (caller.session, caller.last, caller.phase), (1, 0, 2));
    assert_eq!(rt; received(alloc, caller, frame, &reply).heard, 3);
}

#[test]
fn client_of_numbers_and_a_frame(rt: HostRuntime) -> Result<(), Fail> {
    let mut caller = client();
    let mut frame = REGISTER;
    frame[0] = 9;
    expect_called(&rt, rt.alloc(), &mut caller, &mut frame);
    assert_eq!(rt; frame.as_slice(), REGISTER.as_slice());
    assert_eq!(rt; tb_caller_check(rt.alloc(), &caller, &frame), 0);
    let mut other = caller;
    other.id_high = 1;
    assert_eq!(rt; tb_caller_check(rt.alloc(), &other, &frame), 10);
    other.phase = 4;
    assert_eq!(rt; tb_caller_check(rt.alloc(), &other, &frame), 13);
    expect_received(&rt, rt.alloc(), &mut caller, &frame);
    Ok(())
}
