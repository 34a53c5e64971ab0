//! How the publisher posts the history's entries.
ghost use Rattle.std.specs.Prelude.{◌≡◌};
ghost use mathlib.Core.List.{IsPrefix};
ghost use Rattle.tb_published.specs.Openings.{LegalIn};
ghost use Rattle.tb_published.specs.private.PostedEntries.{PostsNext};

use crate::front::HistoryHead;
use crate::naming::Naming;
use crate::replica::Posted;
use std::alloc::Global;
use tb_machine::Entry;

/// The next entry that the head of the history has not counted, to be posted; the head counts it then. None if all are
/// counted, if there is no memory for the entry's copy, or if another entry had been counted.
pub(crate) fn next_posted<J: Naming>(
    global: Global,
    offered: &mut HistoryHead,
    history: &[Entry],
) -> Option<Posted<J>>
    requires named { offered.old.opening ≡ J.opening }
    requires begins { IsPrefix offered.old.list history.now }
    requires legal { LegalIn J.opening history.now }
    ensures { PostsNext offered.old offered.new history.now result }
{
    let count = offered.front().len();
    let entry = history.get(count as usize)?;
    let Ok(entry) = entry.copy(global) else {
        return None;
    };
    if !offered.add(&entry) {
        drop(entry);
        return None;
    }
    Some(Posted::new(entry, offered.front().again()))
}

/// Has the copies search for the accounts of the posted entry that waits, the last of `count` entries, and of those after it.
pub(crate) fn look_ahead<J: Naming>(
    global: Global,
    history: &[Entry],
    count: u64,
    waiting: &mut Option<Posted<J>>,
)
    ensures { waiting.new ≡ waiting.old }
{
    let Some((_, later)) = history.split_at_checked(count as usize) else {
        return;
    };
    if let Some(posted) = waiting {
        posted.look_ahead(global, later);
    }
}
