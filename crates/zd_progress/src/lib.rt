//! Why a run ends: a session that one actor steps, which prefers pieces, ends after so many steps, and enters its
//! next piece after so many calls of the disk.
//!
//! There is no code here, but definitions and laws over numbers: no law knows how a volume or a session is held in
//! memory, nor what stands on a disk. Whoever steps a session shows what each of its steps makes of the numbers
//! (`LoopAnswers`), and has what is promised of the end of such a run.
//!
//! # What is proved
//!
//! - `laws::steps_tell`: where nobody else has a piece in flight, the rules of steps give the actor a step, unless no
//!   job can be picked where only a job can help; and no job begins but for want of a zone.
//! - `laws::little_comes`: before the next piece is entered two jobs and three commits begin at most.
//! - `laws::runs_end`: each step lessens a number, also where the run isn't alone.
//! - `laws::runs_promise`: on a session that has just begun the numbers of calls of neighbouring entries are close, the
//!   session has ended, and with room for three commits a piece no commit meets the last generation.
#![tactic(auto)]

pub mod laws;
