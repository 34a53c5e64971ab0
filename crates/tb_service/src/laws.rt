//! What follows from the definitions about a run and the places of its ports. A call does nothing; its promise is the law.
ghost use Rattle.tb_service.specs.OfferedLaws.{NoOfferInvented};
ghost use Rattle.tb_service.specs.ToldLaws.{IsOneWay, OneList, OneOutcome};

use crate::gates::{Gate, Moments};
use tb_published::Naming;

/// Each entry that a run added to the history has a request that one of the ports from `service` offered.
pub fn none_invented<J: Naming, M: Moments, G: Gate>()
    ensures { NoOfferInvented J.opening M.tells G.passes }
{}

/// If each state has one next moment, the moments of a run are pinned by the first state and their number. So is the history
/// that results from the requests taken and those left out.
pub fn one_list<J: Naming, M: Moments, G: Gate>()
    ensures moments { IsOneWay M.tells → OneList M.tells }
    ensures history { IsOneWay M.tells → OneOutcome J.opening M.tells G.passes }
{}
