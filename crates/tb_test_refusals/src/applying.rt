//! `Machine::apply`: a refused call leaves all as it was, and made again it gives the answer.
use crate::scripts::{Pair, Script, copy_of, put_reply};
use crate::troubles::{Trouble, Why, expect, note_no_memory};
use std::alloc::{AllocError, Global};
use tb_machine::{Entry, Machine, answer_of};
use tb_records::{Account, Body, Profile, Reply, Request, Transfer};
use tb_sessions::Class;

/// The bytes of replies that there is capacity for.
const BYTES_CAPACITY: usize = 1 << 20;

/// The accounts, and the transfers, that there is capacity for.
const ROWS_CAPACITY: usize = 1 << 10;

/// What a machine shows of whatever a script names: its accounts, transfers and stored replies, its last commit number and
/// time.
#[derive(Drop)]
struct Shown {
    commit: u64,
    time: u64,
    accounts: Vec<Account>,
    transfers: Vec<Transfer>,
    replies: Vec<u8>,
}

impl Shown {
    /// Nothing, without memory.
    fn new(alloc: Global) -> Shown {
        Shown {
            commit: 0,
            time: 0,
            accounts: Vec::new(alloc),
            transfers: Vec::new(alloc),
            replies: Vec::new(alloc),
        }
    }

    /// Reserves memory for what the scripts of the tests name.
    fn reserve(&mut self) -> Result<(), AllocError> {
        self.accounts.reserve(ROWS_CAPACITY)?;
        self.transfers.reserve(ROWS_CAPACITY)?;
        self.replies.reserve(BYTES_CAPACITY)
    }

    /// Looks for the accounts of these ids.
    fn look_for_accounts(
        &mut self,
        machine: &Machine<Global>,
        events: &[Account],
    ) -> Result<(), Trouble> {
        for event in events {
            if let Some(account) = machine.account(event.id) {
                self.accounts.push(account)?;
            }
        }
        Ok(())
    }

    /// Looks for the transfers of these ids.
    fn look_for_transfers(
        &mut self,
        machine: &Machine<Global>,
        events: &[Transfer],
    ) -> Result<(), Trouble> {
        for event in events {
            if let Some(transfer) = machine.transfer(event.id) {
                self.transfers.push(transfer)?;
            }
        }
        Ok(())
    }

    /// Looks for what a request names.
    fn look_for(&mut self, machine: &Machine<Global>, request: &Request) -> Result<(), Trouble> {
        if let Some(reply) = machine.reply_of(request.client()) {
            put_reply(reply, &mut self.replies)?;
        }
        match request.body() {
            Body::CreateAccounts(events) => self.look_for_accounts(machine, events.as_slice()),
            Body::CreateTransfers(events) => self.look_for_transfers(machine, events.as_slice()),
            _ => Ok(()),
        }
    }

    /// Looks at a machine.
    fn look(&mut self, machine: &Machine<Global>, pairs: &[Pair]) -> Result<(), Trouble> {
        self.commit = machine.commit();
        self.time = machine.time();
        self.accounts.clear();
        self.transfers.clear();
        self.replies.clear();
        for pair in pairs {
            if let Err(trouble) = self.look_for(machine, &pair.request) {
                return Err(trouble);
            }
        }
        Ok(())
    }

    fn same(&self, other: &Shown) -> bool {
        self.commit == other.commit
            && self.time == other.time
            && self.accounts.as_slice() == other.accounts.as_slice()
            && self.transfers.as_slice() == other.transfers.as_slice()
            && self.replies.as_slice() == other.replies.as_slice()
    }
}

/// A script, what a machine showed of it before the last call, and what after it.
#[derive(Drop)]
struct Watch<'a> {
    script: &'a Script<'a>,
    before: Shown,
    after: Shown,
}

impl Watch<'_> {
    /// After a refused call: nothing has changed.
    fn expect_same(&mut self, machine: &Machine<Global>) -> Result<(), Trouble> {
        if let Err(trouble) = self.after.look(machine, self.script.pairs) {
            return Err(trouble);
        }
        expect(self.before.same(&self.after), Why::Changed)
    }

    /// Applies an entry that may come next; if that is refused, nothing has changed, and it is applied again.
    fn apply<R: Eprint>(
        &mut self,
        rt: &R,
        machine: &mut Machine<Global>,
        entry: &Entry,
    ) -> Result<(), Trouble> {
        if !machine.fits(entry) {
            return Err(Trouble::Wrong(Why::Unfit));
        }
        if let Err(trouble) = self.before.look(machine, self.script.pairs) {
            return Err(trouble);
        }
        if machine.apply(entry).is_ok() {
            return Ok(());
        }
        note_no_memory(rt, "apply");
        if let Err(trouble) = self.expect_same(machine) {
            return Err(trouble);
        }
        expect(
            machine.fits(entry) && machine.apply(entry).is_ok(),
            Why::RefusedTwice,
        )
    }

    /// Enters the request of a pair, if it is new.
    fn enter<R: Eprint>(
        &mut self,
        rt: &R,
        machine: &mut Machine<Global>,
        pair: &Pair,
    ) -> Result<(), Trouble> {
        if machine.class(&pair.request) != Class::New {
            return Ok(());
        }
        let events = pair.request.body().event_count() as u64;
        let Some(time) = machine.next_time(pair.moment, events) else {
            return Err(Trouble::Wrong(Why::NoTime));
        };
        let entry = Entry {
            commit: machine.commit() + 1,
            time,
            request: copy_of(rt, self.script.alloc, &pair.request)?,
        };
        let applied = self.apply(rt, machine, &entry);
        drop(entry);
        applied
    }

    /// Enters the request of each pair, and appends the answer to it.
    fn serve<R: Eprint>(
        &mut self,
        rt: &R,
        machine: &mut Machine<Global>,
        out: &mut Vec<u8>,
    ) -> Result<(), Trouble> {
        for pair in self.script.pairs {
            if let Err(trouble) = self.enter(rt, machine, pair) {
                return Err(trouble);
            }
            if let Err(trouble) = put_answer(rt, self.script.alloc, machine, &pair.request, out) {
                return Err(trouble);
            }
        }
        Ok(())
    }
}

/// The answer to a request; the allocation for it may be refused once.
fn answer<R: Eprint>(
    rt: &R,
    alloc: Global,
    machine: &Machine<Global>,
    request: &Request,
) -> Result<Reply, AllocError> {
    match answer_of(alloc, machine, request) {
        Ok(reply) => Ok(reply),
        Err(AllocError) => {
            note_no_memory(rt, "answer_of");
            answer_of(alloc, machine, request)
        }
    }
}

/// Appends the answer to a request.
fn put_answer<R: Eprint>(
    rt: &R,
    alloc: Global,
    machine: &Machine<Global>,
    request: &Request,
    out: &mut Vec<u8>,
) -> Result<(), Trouble> {
    match answer(rt, alloc, machine, request) {
        Ok(reply) => {
            let put = put_reply(&reply, out);
            drop(reply);
            put
        }
        Err(AllocError) => Err(Trouble::SetUp),
    }
}

/// A machine; an allocation for it may be refused once.
fn new_machine<R: Eprint>(rt: &R, script: &Script<'_>) -> Result<Machine<Global>, AllocError> {
    let (alloc, clients_max) = (script.alloc, script.clients_max);
    match Machine::new_in(alloc, alloc, Profile::One, clients_max) {
        Ok(machine) => Ok(machine),
        Err(AllocError) => {
            note_no_memory(rt, "new_in");
            Machine::new_in(alloc, alloc, Profile::One, clients_max)
        }
    }
}

/// Serves a script, which is watched, by a new machine.
fn apply_watched<R: Eprint>(
    rt: &R,
    watch: &mut Watch<'_>,
    out: &mut Vec<u8>,
) -> Result<(), Trouble> {
    watch.before.reserve()?;
    watch.after.reserve()?;
    match new_machine(rt, watch.script) {
        Ok(mut machine) => {
            let served = watch.serve(rt, &mut machine, out);
            drop(machine);
            served
        }
        Err(AllocError) => Err(Trouble::SetUp),
    }
}

/// Applies the entries of a script, and appends the answers to its requests.
pub fn apply_all<R: Eprint>(rt: &R, script: &Script<'_>, out: &mut Vec<u8>) -> Result<(), Trouble> {
    let mut watch = Watch {
        script,
        before: Shown::new(script.alloc),
        after: Shown::new(script.alloc),
    };
    let served = apply_watched(rt, &mut watch, out);
    drop(watch);
    served
}
