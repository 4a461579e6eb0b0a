//! What follows from the definitions of a run.

ghost use Rattle.zd_admin.specs.Ends.{OneAdminOutcome};
ghost use Rattle.zd_admin.specs.Rows.{CountsOfFresh, CountsOfUsed};

/// Words, geometry and image decide how a run ends, unless something fails or no memory is found.
pub fn one_outcome()
    ensures { OneAdminOutcome }
{}

/// The counts of a fresh volume with 6 conventional and 6 sequential zones, and of one that is in use.
pub fn counts_of_rows()
    ensures fresh { CountsOfFresh }
    ensures used { CountsOfUsed }
{}
