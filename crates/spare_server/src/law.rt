//! What holds of standbys.
ghost use Rattle.spare_server.specs.Standbys.{AllFollow};

/// In each state each standby's service stands for the history, or for the history and the entry that waits. One that applied an entry
/// since it started or joined keeps the deeds of the last one. One that applied none stands for what is answered, and the files are
/// those of it.
pub fn law_of_standbys()
    ensures { AllFollow }
{}
