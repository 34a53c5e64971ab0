//! How an opening is made.
ghost use Rattle.std.specs.Prelude.{◌≡◌, [], All, IfOk, vec_len};
ghost use Rattle.tb_published.specs.private.Prefixes.{prefix};

use crate::faults::OpenFault;
use crate::front::HistoryHead;
use crate::limits::SeatCount;
use crate::naming::Naming;
use crate::publisher::Publisher;
use crate::seat::Seat;
use std::alloc::{AllocError, Global};
use std::marker::Model;
use std::sync::Wait;
use tb_records::{ClientsMax, Profile};

/// An opening before it has its name: the rules that its history is to keep. Contracts see it as the opening.
#[derive(Drop)]
pub struct Opening {
    head: HistoryHead,
}

impl Model for Opening {
    ghost use Rattle.std.specs.Prelude.{◌≡◌, []};
    ghost use Rattle.tb_published.specs.Openings.{Opening};

    ghost Value = { Opening };

    ghost view = { λ o. o.head.opening };

    ghost invariant = { λ o. o.head.list ≡ [] };
}

impl Opening {
    /// An opening by these rules. It takes no memory.
    pub fn new(profile: Profile, clients_max: ClientsMax) -> Opening
        ensures { (result.profile ≡ profile) × (result.clients_max ≡ clients_max) }
    {
        Opening {
            head: HistoryHead::new(profile, clients_max),
        }
    }

    /// The rules.
    pub(crate) fn rules(&self) -> (Profile, ClientsMax)
        ensures { (result.0 ≡ self.now.profile) × (result.1 ≡ self.now.clients_max) }
    {
        self.head.front().rules()
    }

    /// The head of its empty history.
    pub(crate) fn into_head(self) -> HistoryHead
        ensures { result ≡ prefix self [] }
    {
        let Opening { head } = self;
        head
    }
}

/// Opens an empty history: its publisher, and `seats` seats. The caller names the opening: it calls a function that is
/// generic in `J`. If it is refused, nothing is left of it.
pub fn open<J: Naming, W: Wait>(
    alloc: Global,
    rt: &W,
    opening: Opening,
    seats: SeatCount,
) -> Result<(Publisher<J>, Vec<Seat<J>>), OpenFault>
    requires { opening ≡ J.opening }
    ensures publisher { IfOk result (λ t. (t.0.history ≡ []) × (t.0.shown ≡ [])) }
    ensures seats { IfOk result (λ t. (vec_len t.1 ≡ seats) × All (λ s. s ≡ []) t.1.items) }
{
    let mut publisher = match Publisher::start(alloc, rt, opening, seats) {
        Ok(publisher) => publisher,
        Err(AllocError) => return Err(OpenFault::NoMemory),
    };
    match take_seats(alloc, &mut publisher, seats) {
        Ok(seats) => Ok((publisher, seats)),
        Err(fault) => {
            publisher.close(rt);
            Err(fault)
        }
    }
}

/// `count` seats of a publisher.
fn take_seats<J: Naming>(
    alloc: Global,
    publisher: &mut Publisher<J>,
    count: SeatCount,
) -> Result<Vec<Seat<J>>, OpenFault>
    requires { publisher.old.shown ≡ [] }
    ensures same { publisher.new ≡ publisher.old }
    ensures seats { IfOk result (λ seats. (vec_len seats ≡ count) × All (λ s. s ≡ []) seats.items) }
{
    let count = count.get();
    let Ok(mut seats) = Vec::with_capacity(alloc, count as usize) else {
        return Err(OpenFault::NoMemory);
    };
    for _ in 0..count {
        match publisher.seat() {
            Ok(seat) => seats.push_reserved(seat),
            Err(fault) => {
                drop(seats);
                return Err(fault);
            }
        }
    }
    Ok(seats)
}
