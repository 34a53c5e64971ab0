//! What `check` reports of a file.
ghost use Rattle.std.specs.Prelude.{◌≡◌, ◌-◌};
ghost use Rattle.tb_records.specs.DumpBytes.{profile_number};
ghost use Rattle.tb_edge_file.specs.Summaries.{summary_of, behind_text, replayed_text};

use crate::dates::Moment;
use std::fmt;
use tb_file::Rules;
use tb_file_journal::LATCH_BYTES;
use tb_records::Profile;

/// What was read of a file whose records are all those of one history, or of entries in order.
#[derive(Clone, Copy)]
pub(crate) struct Found {
    pub rules: Rules,
    pub records: usize,
    pub entries: u64,
    /// The time of the last entry.
    pub time: u64,
    /// Where the records end.
    pub end: usize,
}

impl Found {
    /// What is in such a file of this many bytes, which was read quickly or as one history.
    pub fn summary(self, len: usize, quick: bool) -> Summary
        ensures { result ≡ summary_of self len quick }
    {
        Summary {
            rules: self.rules,
            records: self.records,
            entries: self.entries,
            time: self.time,
            behind: len.saturating_sub(self.end).saturating_sub(LATCH_BYTES),
            replayed: !quick,
        }
    }
}

/// What is in a file.
#[derive(Clone, Copy)]
pub struct Summary {
    pub rules: Rules,
    /// The head, and one for each entry.
    pub records: usize,
    pub entries: u64,
    /// The time of the last entry, in nanoseconds.
    pub time: u64,
    /// The bytes after the records: not committed yet, or torn. A start would cut them off.
    pub behind: usize,
    /// Whether the entries were replayed, or only their numbers and times checked.
    pub replayed: bool,
}

/// The number of a profile.
pub(crate) fn profile_number(profile: Profile) -> u8
    ensures { result ≡ profile_number profile }
{
    match profile {
        Profile::One => 1,
        Profile::Two => 2,
    }
}

/// What this many bytes after the records are.
pub(crate) fn behind_text(bytes: usize) -> &'static str
    ensures { result.now ≡ behind_text bytes }
{
    if bytes == 0 {
        ""
    } else {
        ", not committed yet or torn"
    }
}

/// What a summary ends with: whether the entries were replayed.
fn replayed_text(replayed: bool) -> &'static str
    ensures { result.now ≡ replayed_text replayed }
{
    if replayed {
        "whole: every entry was replayed\n"
    } else {
        "not replayed: only checksums, commit numbers and times were checked\n"
    }
}

impl fmt::Display for Summary {
    ghost use Rattle.std.specs.Prelude.{Some};
    ghost use Rattle.tb_edge_file.specs.Summaries.{summary_text};

    ghost output = { λ summary. Some (summary_text summary) };

    fn fmt<W: fmt::Write>(&self, f: &mut fmt::Formatter<W>) -> fmt::Result {
        let profile = profile_number(self.rules.profile);
        let clients_max = self.rules.clients_max.get();
        let what = behind_text(self.behind);
        let note = replayed_text(self.replayed);
        let date = Moment { time: self.time };
        write!(
            f,
            "records {}\nentries {}\nprofile {profile}\nclients_max {clients_max}\nlast time {}\nlast date {date}\nbytes after the records {}{what}\n{note}",
            self.records, self.entries, self.time, self.behind
        )
    }
}
