//! Runs of a session, from its beginning to its end.

ghost use Rattle.zd_progress.specs.Paces.{IsFreshLoop, IsPromised, IsWholeRun};
ghost use Rattle.zd_examples.specs.Loops.{flush_begun, flush_over, move_begun, move_over};

/// A flush waits: a commit of nothing dirty enters it, with its one call.
pub fn flush_run_examples()
    ensures fresh { IsFreshLoop flush_begun }
    ensures whole { IsWholeRun flush_begun flush_over }
    ensures promised { IsPromised flush_begun flush_over }
{}

/// A write lacks a zone: a move gives one back, and the write is entered behind it, with the second call.
pub fn move_run_examples()
    ensures fresh { IsFreshLoop move_begun }
    ensures whole { IsWholeRun move_begun move_over }
    ensures promised { IsPromised move_begun move_over }
{}
