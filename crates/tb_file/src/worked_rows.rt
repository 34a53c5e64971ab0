//! Examples: what small files represent, by the definitions. A call does nothing; its contract is the example.
ghost use Rattle.std.specs.Prelude.{◌≡◌, ◌∷◌, ◌++◌, [], Err, Ok, codes};
ghost use Rattle.tb_file_journal.specs.Contents.{block, journal_of, magic};
ghost use Rattle.tb_file_journal.specs.declared.opening.OpenFault.TheVariants as open_faults;
ghost use Rattle.tb_file_journal.specs.declared.reading.Refusal.TheVariants as refusals;
ghost use Rattle.tb_file.specs.declared.faults.StartFault.TheVariants as start;
ghost use Rattle.tb_file.specs.Keeping.{head_record};
ghost use Rattle.tb_file.specs.Creating.{HasNoEntry, StandFor, history_of};
ghost use Rattle.tb_file.specs.Reading.{RulesAnswer, dump_of, rules_of};
ghost use Rattle.tb_file.specs.Recovering.{IsRestored, StopsAt, StopsFile, StopsReading};
ghost use Rattle.tb_machine.specs.Histories.{start as start_state};
ghost use Rattle.tb_records.specs.declared.faults.FrameFault.TheVariants as frame;
ghost use Rattle.tb_records.specs.declared.limits.Profile.TheVariants.{One, Two};

/// A file with only a head represents a ledger of its rules without entries.
pub fn head_alone()
    ensures rules { RulesAnswer (Ok (rules_of Two 8)) (journal_of (head_record Two 8 ∷ [])) }
    ensures restored { IsRestored Two 8 (head_record Two 8 ∷ []) (start_state Two 8) }
    ensures no_entry { HasNoEntry Two 8 (journal_of (head_record Two 8 ∷ [])) }
{}

/// Its dump has 16 bytes.
pub fn dump_of_a_head()
    ensures { dump_of (rules_of Two 8) (journal_of (head_record Two 8 ∷ []))
        ≡ codes "TBSDUMP1" ++ 2 ∷ 0 ∷ 0 ∷ 0 ∷ 8 ∷ 0 ∷ 0 ∷ 0 ∷ [] }
{}

/// A file without records, such as one that was torn at its creation, represents a ledger of any rules without entries, and is read as having no
/// head.
pub fn no_record()
    ensures stands { StandFor (history_of Two 8 []) [] }
    ensures restored { IsRestored Two 8 [] (start_state Two 8) }
    ensures rules { RulesAnswer (Err start.Head) (journal_of []) }
    ensures no_entry { HasNoEntry Two 8 (journal_of []) }
{}

/// A head of another profile, and one of another number of clients.
pub fn other_rules()
    ensures profile { StopsFile start.OtherRules Two 8 (head_record One 8 ∷ []) }
    ensures clients { StopsFile start.OtherRules Two 8 (head_record Two 9 ∷ []) }
{}

/// A record of three bytes is no head, and neither is a head that names no clients.
pub fn no_head()
    ensures bytes { StopsFile start.Head Two 8 ((1 ∷ 2 ∷ 3 ∷ []) ∷ []) }
    ensures clients { StopsFile start.Head Two 8 (head_record Two 0 ∷ []) }
{}

/// Two bytes after the head are not the record of an entry: record 1 is reported.
pub fn short_record()
    ensures { StopsAt (start.Record 1 frame.Short) (start_state Two 8) (1 ∷ 2 ∷ []) }
{}

/// The first fault in a file is reported: a record that is not that of an entry before a torn block, and a torn block after the head.
pub fn first_in_the_file()
    ensures record { StopsReading (start.Record 1 frame.Short) Two 8
        (magic ++ (block (head_record Two 8) ++ (block (1 ∷ 2 ∷ []) ++ 255 ∷ 255 ∷ 255 ∷ 255 ∷ 1 ∷ []))) }
    ensures block { StopsReading (start.Journal (open_faults.Refused (refusals.Damaged 25))) Two 8
        (magic ++ (block (head_record Two 8) ++ 255 ∷ 255 ∷ 255 ∷ 255 ∷ 1 ∷ [])) }
{}
