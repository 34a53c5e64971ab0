//! What holds of the contracts of the system's calls on names.
ghost use Rattle.tb_edge_names.specs.Folder.{CanBeMet};

/// The assumed contracts of the system's calls on names can be met: files in memory whose changes are durable at once meet them, for each call that
/// succeeds.
#[tactic(auto, using(crate::proofs::Folders::can_be_met))]
pub fn can_be_met()
    ensures { CanBeMet }
{}
