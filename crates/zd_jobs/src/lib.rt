//! Jobs: what their steps make of a volume. A job moves the valid blocks of one chunk so that a zone can be given
//! back.
//!
//! There is no code here, but definitions and laws over plain values and over what a disk tells; no law knows how
//! a volume is held in memory.
#![tactic(auto)]
