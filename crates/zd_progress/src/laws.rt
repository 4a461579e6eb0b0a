//! What follows from the definitions. The bodies are empty: the clauses are the laws.

ghost use Rattle.zd_progress.specs.Laws.{CommitsMakeFewCalls, FewAreToCome, JobsLessen, LoneRunsWait, NextStepsTell};
ghost use Rattle.zd_progress.specs.Laws.{NoMoreIsToCome, OthersAreCounted, RunsEnd, RunsKeepLimits, StepsLessen};
ghost use Rattle.zd_progress.specs.Laws.{WholeRunsArePromised};

/// While nobody else has a piece in flight, what waits is told, and why the next step comes next.
pub fn steps_tell()
    ensures waiting { LoneRunsWait }
    ensures next { NextStepsTell }
    ensures others { OthersAreCounted }
{}

/// Before the next piece is entered two jobs and three commits begin at most, and so many calls are made.
pub fn little_comes()
    ensures few { FewAreToCome }
    ensures no_more { NoMoreIsToCome }
    ensures commit { CommitsMakeFewCalls }
{}

/// A run ends: each step leaves less to do.
pub fn runs_end()
    ensures step { StepsLessen }
    ensures job { JobsLessen }
    ensures run { RunsEnd }
    ensures limits { RunsKeepLimits }
{}

/// What is promised of the end of a run that was alone from the beginning of its session.
pub fn runs_promise()
    ensures { WholeRunsArePromised }
{}
