//! The laws of followers, over the definitions only. A call does nothing; its promise is the law.
ghost use Rattle.tb_log.specs.LogLaws.{AnswersTheScript, HashesTheReplies};

/// The replies of a follower are those that a server gives to the script that the entries encode, and so is its state; the hash of the replies is of
/// these frames, however the script is cut into entries.
pub fn answers_the_script()
    ensures answers { AnswersTheScript }
    ensures hashes { HashesTheReplies }
{}
