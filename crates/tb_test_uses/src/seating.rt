//! A caller of two seats next to the publisher of their history, as a finished server leaves it: what follows about what
//! both have seen, and about what they answer.
ghost use Rattle.std.specs.Prelude.{◌≡◌, IsTrue, IfOk, IfSome};
ghost use mathlib.Core.List.{IsPrefix};
ghost use Rattle.tb_published.specs.Openings.{IsAnswerIn, LegalIn, OneBegins};

use tb_published::{Naming, Publisher, Seat, SeatFault};
use tb_records::{Reply, Request};

/// Says whether what a publisher shows has all that two seats have seen: then its history begins with both. One of the two
/// lists that they have seen begins with the other.
pub fn are_within<J: Naming>(publisher: &Publisher<J>, one: &Seat<J>, two: &Seat<J>) -> bool
    ensures one_history { OneBegins one.now two.now }
    ensures history { IsTrue result
        → IsPrefix one.now publisher.now.history × IsPrefix two.now publisher.now.history }
    ensures legal { LegalIn J.opening publisher.now.history }
{
    let _ = one.beside(two);
    let _ = publisher.history();
    publisher.beside(one) && publisher.beside(two)
}

/// Asks two seats the same, and returns both replies: each is the one-thread ledger's after a prefix of the publisher's one
/// legal history, and that prefix has all that the seat had seen before. None if a seat has seen what is not shown.
pub fn ask_two<J: Naming>(
    publisher: &Publisher<J>,
    one: &mut Seat<J>,
    two: &mut Seat<J>,
    request: &Request,
) -> Result<Option<(Reply, Reply)>, SeatFault>
    ensures begins { IsPrefix one.old one.new × IsPrefix two.old two.new }
    ensures one_history { OneBegins one.new two.new }
    ensures history { IfOk result
        (λ answers.
        IfSome answers
        (λ _.
        IsPrefix one.new publisher.now.history
        × IsPrefix two.new publisher.now.history)) }
    ensures legal { LegalIn J.opening publisher.now.history }
    ensures answers { IfOk result
        (λ answers. IfSome answers (λ both. IsAnswerIn J.opening one.new request.now both.0)) }
    ensures answers_of_two { IfOk result
        (λ answers. IfSome answers (λ both. IsAnswerIn J.opening two.new request.now both.1)) }
{
    let first = one.answer(request);
    let second = two.answer(request);
    let within = are_within(publisher, one, two);
    match (first, second) {
        (Ok(first), Ok(second)) => {
            if within {
                return Ok(Some((first, second)));
            }
            drop(first);
            drop(second);
            Ok(None)
        }
        (Err(fault), second) => {
            drop(second);
            Err(fault)
        }
        (Ok(first), Err(fault)) => {
            drop(first);
            Err(fault)
        }
    }
}
