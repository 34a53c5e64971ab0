//! `take` and `Seat::answer`: what is refused leaves what it must, and made again it gives the answer.
use crate::scripts::{Pair, Script, copy_of, put_history, put_reply};
use crate::troubles::{Trouble, Why, expect, note};
use std::sync::Wait;
use tb_published::{Naming, Publisher, Seat, TakeFault, Taken};
use tb_records::{Reply, Request, Status};

/// What a call of `take` returned, and how long the history was before it and after it.
#[derive(Clone, Copy)]
struct Call {
    taken: Result<Taken, TakeFault>,
    before: u64,
    after: u64,
}

impl Call {
    /// The history has grown by this entry, and no other.
    fn grew_by(self, commit: u64) -> Result<(), Trouble> {
        expect(
            commit == self.after && commit == self.before.saturating_add(1),
            Why::OtherCommit,
        )
    }

    /// Nothing is refused: the history has grown by one entry if the result says so, and otherwise stayed.
    fn expect_taken(self) -> Result<(), Trouble> {
        match self.taken {
            Ok(Taken::Committed(c)) => self.grew_by(c),
            Ok(_) => expect(self.before == self.after, Why::Changed),
            Err(_) => Err(Trouble::Wrong(Why::RefusedTwice)),
        }
    }

    /// A call after a refused one that entered the request: it is a repeat.
    fn expect_repeat(self, commit: u64) -> Result<(), Trouble> {
        match self.taken {
            Ok(Taken::Repeat(c)) => expect(c == commit, Why::NoRepeat),
            _ => Err(Trouble::Wrong(Why::NoRepeat)),
        }
    }
}

/// Takes a copy of the request of a pair.
fn take_once<J: Naming, R: Wait + Eprint>(
    rt: &R,
    script: &Script<'_>,
    publisher: &mut Publisher<J>,
    pair: &Pair,
) -> Result<Call, Trouble> {
    let before = publisher.history().len() as u64;
    match copy_of(rt, script.alloc, &pair.request) {
        Ok(copy) => {
            let taken = publisher.take(rt, copy, pair.moment);
            let after = publisher.history().len() as u64;
            Ok(Call {
                taken,
                before,
                after,
            })
        }
        Err(trouble) => Err(trouble),
    }
}

/// The copies show less than the history: what a seat sees then.
fn expect_less<J: Naming>(
    seat: &mut Seat<J>,
    request: &Request,
    commit: u64,
) -> Result<(), Trouble> {
    let seen = seat.seen();
    if seat.status(request).is_err() {
        return Err(Trouble::Wrong(Why::NoStatus));
    }
    expect(
        seen <= seat.seen() && seat.seen() < commit,
        Why::SeenTooMuch,
    )
}

/// Prints that `take` was refused.
fn note_take<R: Eprint>(rt: &R, fault: TakeFault, before: u64) {
    let fault = match fault {
        TakeFault::Unpublished(c) if c == before => "Unpublished before",
        TakeFault::Unpublished(_) => "Unpublished after",
        fault => fault.name(),
    };
    note(rt, "take", fault);
}

/// What a refused call left. The number of the entry if it entered the request all the same, which is not shown then.
fn entered_by<J: Naming>(
    call: Call,
    seat: &mut Seat<J>,
    request: &Request,
) -> Result<Option<u64>, Trouble> {
    match call.taken {
        Err(TakeFault::TimeExhausted) => Err(Trouble::Wrong(Why::NoTime)),
        Err(TakeFault::Unpublished(c)) if c != call.before => {
            if let Err(trouble) = call.grew_by(c) {
                return Err(trouble);
            }
            match expect_less(seat, request, c) {
                Ok(()) => Ok(Some(c)),
                Err(trouble) => Err(trouble),
            }
        }
        _ => {
            match expect(call.after == call.before, Why::Changed) {
                Ok(()) => Ok(None),
                Err(trouble) => Err(trouble),
            }
        }
    }
}

/// Takes the request of a pair again, which is an entry already or not.
fn take_again<J: Naming, R: Wait + Eprint>(
    rt: &R,
    script: &Script<'_>,
    publisher: &mut Publisher<J>,
    pair: &Pair,
    entered: Option<u64>,
) -> Result<(), Trouble> {
    match (take_once(rt, script, publisher, pair), entered) {
        (Ok(again), Some(commit)) => again.expect_repeat(commit),
        (Ok(again), None) => again.expect_taken(),
        (Err(trouble), _) => Err(trouble),
    }
}

/// Takes the request of a pair; if that is refused, it is taken again.
fn take_pair<J: Naming, R: Wait + Eprint>(
    rt: &R,
    script: &Script<'_>,
    publisher: &mut Publisher<J>,
    seat: &mut Seat<J>,
    pair: &Pair,
) -> Result<(), Trouble> {
    match take_once(rt, script, publisher, pair) {
        Ok(call) => {
            match call.taken {
                Ok(_) => call.expect_taken(),
                Err(fault) => {
                    note_take(rt, fault, call.before);
                    match entered_by(call, seat, &pair.request) {
                        Ok(entered) => take_again(rt, script, publisher, pair, entered),
                        Err(trouble) => Err(trouble),
                    }
                }
            }
        }
        Err(trouble) => Err(trouble),
    }
}

/// Appends a reply, which is not NotYet.
fn put_answer(reply: &Reply, out: &mut Vec<u8>) -> Result<(), Trouble> {
    if reply.status() == Status::NotYet {
        return Err(Trouble::Wrong(Why::NotShown));
    }
    put_reply(reply, out)
}

/// Appends a seat's answer to a request; false if it is refused.
fn ask_once<J: Naming, R: Eprint>(
    rt: &R,
    seat: &mut Seat<J>,
    request: &Request,
    out: &mut Vec<u8>,
) -> Result<bool, Trouble> {
    match seat.answer(request) {
        Ok(reply) => {
            let put = put_answer(&reply, out);
            drop(reply);
            match put {
                Ok(()) => Ok(true),
                Err(trouble) => Err(trouble),
            }
        }
        Err(fault) => {
            note(rt, "answer", fault.name());
            Ok(false)
        }
    }
}

/// The same. What the seat has seen does not fall, also if it is refused.
fn ask<J: Naming, R: Eprint>(
    rt: &R,
    seat: &mut Seat<J>,
    request: &Request,
    out: &mut Vec<u8>,
) -> Result<bool, Trouble> {
    let seen = seat.seen();
    let answered = ask_once(rt, seat, request, out);
    if seat.seen() < seen {
        return Err(Trouble::Wrong(Why::SeenFell));
    }
    answered
}

/// Appends a seat's answer to a request; if that is refused, it is asked again.
fn answer<J: Naming, R: Eprint>(
    rt: &R,
    seat: &mut Seat<J>,
    request: &Request,
    out: &mut Vec<u8>,
) -> Result<(), Trouble> {
    let answered = match ask(rt, seat, request, out) {
        Ok(false) => ask(rt, seat, request, out),
        answered => answered,
    };
    match answered {
        Ok(answered) => expect(answered, Why::RefusedTwice),
        Err(trouble) => Err(trouble),
    }
}

/// Takes the pairs of a script, and appends the seat's answer to each.
fn take_pairs<J: Naming, R: Wait + Eprint>(
    rt: &R,
    script: &Script<'_>,
    publisher: &mut Publisher<J>,
    seat: &mut Seat<J>,
    out: &mut Vec<u8>,
) -> Result<(), Trouble> {
    for pair in script.pairs {
        if let Err(trouble) = take_pair(rt, script, publisher, seat, pair) {
            return Err(trouble);
        }
        if let Err(trouble) = answer(rt, seat, &pair.request, out) {
            return Err(trouble);
        }
    }
    Ok(())
}

/// Takes the pairs of a script, and appends the seat's answers and the history.
fn take_over<J: Naming, R: Wait + Eprint>(
    rt: &R,
    script: &Script<'_>,
    publisher: &mut Publisher<J>,
    seat: &mut Seat<J>,
    out: &mut Vec<u8>,
) -> Result<(), Trouble> {
    if let Err(trouble) = take_pairs(rt, script, publisher, seat, out) {
        return Err(trouble);
    }
    put_history(script.clients_max, publisher.history(), out)
}

/// Takes the pairs of a script, appends the seat's answers and the history, and closes the publisher. Never false.
pub fn take_all<J: Naming, R: Wait + Eprint>(
    rt: &R,
    script: &Script<'_>,
    mut publisher: Publisher<J>,
    seat: &mut Seat<J>,
    out: &mut Vec<u8>,
) -> Result<bool, Trouble> {
    let taken = take_over(rt, script, &mut publisher, seat, out);
    drop(publisher.close(rt));
    match taken {
        Ok(()) => Ok(true),
        Err(trouble) => Err(trouble),
    }
}
