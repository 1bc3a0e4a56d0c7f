//! What holds of the definitions of histories. The clause of each function is a law, and its body does nothing.
ghost use Rattle.sve_history.specs.Laws.{EntryMakesTheNextRevision, EarlierRevisionsStay, StampsTellRevisions, NamesStampTellsARevision, OpeningFilesAreUntouched};

/// An entry makes the next revision, of the files that were newest before it.
pub fn entry_makes_the_next_revision()
    ensures { EntryMakesTheNextRevision }
{}

/// Further entries leave each earlier revision as it was.
#[tactic(auto, using(crate::proofs::Pushes::earlier_revisions_stay))]
pub fn earlier_revisions_stay()
    ensures { EarlierRevisionsStay }
{}

/// The stamp of a name is a revision that is not later, and at it the name has what it has now.
pub fn stamps_tell_revisions()
    ensures { StampsTellRevisions }
{}

/// The stamp of the set of names is a revision that is not later, and at it the same names are there as now.
pub fn names_stamp_tells_a_revision()
    ensures { NamesStampTellsARevision }
{}

/// No commit has touched the opening files of a session.
pub fn opening_files_are_untouched()
    ensures { OpeningFilesAreUntouched }
{}
