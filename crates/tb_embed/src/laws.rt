//! Laws of the calls, from the definitions. A call does nothing; its promise is the law.
ghost use Rattle.std.specs.Prelude.{ℕ, List};
ghost use Rattle.tb_records.specs.Messages.{Message, IsLawful};
ghost use Rattle.tb_records.specs.Frames.{Spells};
ghost use Rattle.tb_machine.specs.Histories.{State};
ghost use Rattle.tb_machine.specs.Runs.{IsTimely};
ghost use Rattle.tb_embed.specs.Calls.{IsMalformed, IsAnsweredAgain};
ghost use Rattle.tb_embed.specs.CallRuns.{CallsMakeHistory, OneStatus};

/// The frame of a request is not malformed. So `tb_embed_serve` returns status 4 only if the bytes have a fault or more
/// bytes follow a frame.
pub fn frames_are_not_malformed()
    ensures { (bytes : List ℕ) (r : Message) → Spells bytes r → IsMalformed bytes → ⊥ }
{}

/// A request that was served loses nothing if its reply did not arrive, as in a room that was too small: sent again, at
/// whatever moment, it changes nothing and gets the same bytes.
pub fn answered_again()
    ensures { (S : State) (moment again : ℕ) (r : Message) → IsLawful r
        → IsTimely S (moment, r)
        → IsAnsweredAgain S moment again r }
{}

/// Calls one after another leave the server of an opened handle after a legal history: what is accepted of the requests that
/// were answered, in their order. Each got the reply that this history gives. So each law of legal histories holds of a
/// server inside another program.
pub fn calls_make_history()
    ensures { CallsMakeHistory }
{}

/// Except for status 3, out of memory, `tb_embed_serve` has one right status for the same server, moment, bytes and length
/// of the room. They come in this order: 1 closed, 4 no frame of a request, 5 no time is left, 7 the room is too small, 0.
pub fn one_status()
    ensures { OneStatus }
{}
