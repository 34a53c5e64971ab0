//! What follows from the definitions about what seats have seen. A call does nothing; its promise is the law.
ghost use Rattle.tb_published.specs.SeenLaws.{NeverNotYet, OneHistory};

/// A seat that learnt what was told after a request was committed never answers NotYet for it, except for a register whose
/// session was evicted since then.
pub fn never_not_yet()
    ensures { NeverNotYet }
{}

/// Two prefixes of one history, as the lists that two seats have seen: one begins with the other.
pub fn one_history()
    ensures { OneHistory }
{}
