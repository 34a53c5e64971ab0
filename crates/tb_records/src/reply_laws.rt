//! Laws of the frames of replies, for every reply whose numbers fit their fields. None of them makes a call.
ghost use Rattle.std.specs.Prelude.{◌≡◌, ◌++◌, None, ℕ, List};
ghost use Rattle.tb_records.specs.Messages.{Answer, answer_fault};
ghost use Rattle.tb_records.specs.ReplyFrames.{reply_bytes, reply_fault, FitsFrame, HasKind, IsReply};

/// The frame of a reply has no fault, whatever follows it.
#[tactic(auto, using(crate::proofs::ReplyLaws::spelled_whole))]
pub fn spelled_whole()
    ensures { (r : Answer) (more : List ℕ) → IsReply r → reply_fault (reply_bytes r ++ more) ≡ None }
{}

/// Each reply has one frame, and no frame is a prefix of another one.
#[tactic(auto, using(crate::proofs::ReplyLaws::one_reading))]
pub fn one_reading()
    ensures { (r s : Answer) (x y : List ℕ) → IsReply r
        → IsReply s
        → reply_bytes r ++ x ≡ reply_bytes s ++ y
        → (r ≡ s) × (x ≡ y) }
{}

/// The first fault of a reply's values is the first fault of their frame, if the body is of the kind that the operation and the status require.
#[tactic(auto, using(crate::proofs::ReplyLaws::one_fault))]
pub fn one_fault()
    ensures { (r : Answer) (more : List ℕ) → FitsFrame r
        → HasKind r
        → reply_fault (reply_bytes r ++ more) ≡ answer_fault r }
{}
