//! Scripts and the replies that are wanted, put together from numbers, field by field.
use std::alloc::Global;
use std::process::Abort;
use tb_records::{Account, Operation, Status, Transfer};

/// What requests and replies say of themselves before the length of their body.
#[derive(Clone, Copy)]
pub struct Head {
    pub client: u128,
    pub session: u64,
    pub number: u32,
    pub operation: Operation,
}

impl Head {
    /// The register of a client, whose session a reply names.
    pub fn register(client: u128, session: u64) -> Head {
        Head {
            client,
            session,
            number: 0,
            operation: Operation::Register,
        }
    }

    /// A request of client 7's session 1.
    pub fn of_seven(number: u32, operation: Operation) -> Head {
        Head {
            client: 7,
            session: 1,
            number,
            operation,
        }
    }
}

/// Appends a number, little-endian, in this many bytes, 16 at most.
pub fn put(rt: &impl Abort, out: &mut Vec<u8>, number: u128, width: usize) {
    for byte in number.to_le_bytes().iter().take(width) {
        out.push(*byte).expect(rt, "memory");
    }
}

/// Appends bytes.
pub fn put_bytes(rt: &impl Abort, out: &mut Vec<u8>, bytes: &[u8]) {
    out.extend_from_slice(bytes).expect(rt, "memory");
}

/// Appends numbers, each in this many bytes.
fn put_all(rt: &impl Abort, out: &mut Vec<u8>, numbers: &[(u128, usize)]) {
    for (number, width) in numbers {
        put(rt, out, *number, *width);
    }
}

/// Appends the first 32 bytes of a header, which requests and replies share except for the status.
fn put_head(rt: &impl Abort, out: &mut Vec<u8>, head: Head, status: u8) {
    put_all(
        rt,
        out,
        &[
            (head.client, 16),
            (head.session as u128, 8),
            (head.number as u128, 4),
            (head.operation.code() as u128, 1),
            (status as u128, 1),
            (0, 2),
        ],
    );
}

/// Appends an account's record.
pub fn put_account(rt: &impl Abort, out: &mut Vec<u8>, account: &Account) {
    put_all(
        rt,
        out,
        &[
            (account.id, 16),
            (account.debits_pending, 16),
            (account.debits_posted, 16),
            (account.credits_pending, 16),
            (account.credits_posted, 16),
            (0, 16),
            (0, 16),
            (account.ledger as u128, 4),
            (account.code as u128, 2),
            (account.flags as u128, 2),
            (account.timestamp as u128, 8),
        ],
    );
}

/// Appends a transfer's record.
fn put_transfer(rt: &impl Abort, out: &mut Vec<u8>, transfer: &Transfer) {
    put_all(
        rt,
        out,
        &[
            (transfer.id, 16),
            (transfer.debit_account_id, 16),
            (transfer.credit_account_id, 16),
            (transfer.amount, 16),
            (transfer.pending_id, 16),
            (0, 16),
            (0, 12),
            (transfer.timeout as u128, 4),
            (transfer.ledger as u128, 4),
            (transfer.code as u128, 2),
            (transfer.flags as u128, 2),
            (transfer.timestamp as u128, 8),
        ],
    );
}

/// A script, and the replies that are wanted.
#[derive(Drop)]
pub struct Script {
    pub alloc: Global,
    /// The moment of the next request.
    pub moment: u64,
    /// The number of the last request of client 7's session 1.
    number: u32,
    /// The commit number of the last request entered.
    commit: u64,
    /// The number of requests.
    pub requests: u64,
    pub bytes: Vec<u8>,
    pub replies: Vec<u8>,
    /// The body of client 7's next request, and how many events are in it.
    body: Vec<u8>,
    events: u32,
    /// The body of the reply to it.
    answer: Vec<u8>,
}

impl Script {
    pub fn new(alloc: Global) -> Script {
        Script {
            alloc,
            moment: 10,
            number: 0,
            commit: 0,
            requests: 0,
            bytes: Vec::new(alloc),
            replies: Vec::new(alloc),
            body: Vec::new(alloc),
            events: 0,
            answer: Vec::new(alloc),
        }
    }

    /// The moment and header of a request whose body has this many bytes.
    pub fn ask_header(&mut self, rt: &impl Abort, head: Head, length: usize) {
        put(rt, &mut self.bytes, self.moment as u128, 8);
        put_head(rt, &mut self.bytes, head, 0);
        put_all(rt, &mut self.bytes, &[(length as u128, 4), (0, 12)]);
    }

    /// A request without a body.
    pub fn ask(&mut self, rt: &impl Abort, head: Head) {
        self.requests = self.requests.wrapping_add(1);
        self.ask_header(rt, head, 0);
    }

    /// The header of a wanted reply whose body has this many bytes.
    fn want(&mut self, rt: &impl Abort, head: Head, status: Status, commit: u64, length: usize) {
        put_head(rt, &mut self.replies, head, status.code());
        put_all(
            rt,
            &mut self.replies,
            &[(length as u128, 4), (commit as u128, 8), (0, 4)],
        );
    }

    /// A client's register, which makes a session.
    pub fn register(&mut self, rt: &impl Abort, client: u128, session: u64) {
        self.ask(rt, Head::register(client, 0));
        self.want(
            rt,
            Head::register(client, session),
            Status::Reply,
            session,
            0,
        );
        self.commit = session;
    }

    /// A lookup of no account, by client, session and number, and its reply's status and commit number.
    pub fn look(
        &mut self,
        rt: &impl Abort,
        client: u128,
        session: u64,
        number: u32,
        status: Status,
        commit: u64,
    ) {
        let head = Head {
            client,
            session,
            number,
            operation: Operation::LookupAccounts,
        };
        self.ask(rt, head);
        self.want(rt, head, status, commit, 0);
    }

    /// The request of client 7 with this number and one transfer, and its reply's status and commit number.
    pub fn transfer(
        &mut self,
        rt: &impl Abort,
        number: u32,
        row: &Transfer,
        status: Status,
        commit: u64,
    ) {
        let head = Head::of_seven(number, Operation::CreateTransfers);
        self.requests = self.requests.wrapping_add(1);
        self.ask_header(rt, head, 128);
        put_transfer(rt, &mut self.bytes, row);
        self.want(rt, head, status, commit, 0);
    }

    /// The request of client 7 with this number, which looks accounts 2, 9 and 1 up, and the status that it is refused with.
    pub fn look_again(&mut self, rt: &impl Abort, number: u32, status: Status) {
        let head = Head::of_seven(number, Operation::LookupAccounts);
        self.requests = self.requests.wrapping_add(1);
        self.ask_header(rt, head, 48);
        put_all(rt, &mut self.bytes, &[(2, 16), (9, 16), (1, 16)]);
        self.want(rt, head, status, 0, 0);
    }

    /// Counts an event of client 7's next request, and puts its result's code into the reply if that is not 0.
    fn put_event(&mut self, rt: &impl Abort, code: u32) {
        let index = self.events;
        self.events = index.wrapping_add(1);
        if code != 0 {
            put_all(
                rt,
                &mut self.answer,
                &[(index as u128, 4), (code as u128, 4)],
            );
        }
    }

    /// An account of client 7's next request, and its result's code.
    pub fn put_account(&mut self, rt: &impl Abort, row: &Account, code: u32) {
        put_account(rt, &mut self.body, row);
        self.put_event(rt, code);
    }

    /// A transfer of client 7's next request, and its result's code.
    pub fn put_transfer(&mut self, rt: &impl Abort, row: &Transfer, code: u32) {
        put_transfer(rt, &mut self.body, row);
        self.put_event(rt, code);
    }

    /// An id of client 7's next lookup.
    pub fn put_id(&mut self, rt: &impl Abort, id: u128) {
        put(rt, &mut self.body, id, 16);
    }

    /// An account that the lookup finds.
    pub fn put_found_account(&mut self, rt: &impl Abort, row: &Account) {
        put_account(rt, &mut self.answer, row);
    }

    /// A transfer that the lookup finds.
    pub fn put_found_transfer(&mut self, rt: &impl Abort, row: &Transfer) {
        put_transfer(rt, &mut self.answer, row);
    }

    /// Counts client 7's next request, which is entered.
    fn count(&mut self) {
        self.number = self.number.wrapping_add(1);
        self.commit = self.commit.wrapping_add(1);
        self.requests = self.requests.wrapping_add(1);
        self.events = 0;
    }

    /// Client 7's next request, which is entered: its body and its reply's are those that were put.
    pub fn send(&mut self, rt: &impl Abort, operation: Operation) {
        self.count();
        let head = Head::of_seven(self.number, operation);
        let (length, answered) = (self.body.len(), self.answer.len());
        self.ask_header(rt, head, length);
        put_bytes(rt, &mut self.bytes, self.body.as_slice());
        self.want(rt, head, Status::Reply, self.commit, answered);
        put_bytes(rt, &mut self.replies, self.answer.as_slice());
        self.body.clear();
        self.answer.clear();
    }
}
