//! What runs print.

ghost use Rattle.std.specs.Prelude.{◌≡◌, ◌++◌, [], ◌∷◌, codes, map, replicate, take};
ghost use Rattle.zd_model.specs.Plain.{pattern};
ghost use Rattle.zd_model.specs.Report.{items_text, outcome_text, run_output, report, outcome_status};
ghost use Rattle.zd_examples.specs.Histories.{discard_history, empty_volume_history};
ghost use Rattle.zd_examples.specs.Histories.{last_block_history, sectors_history};
ghost use Rattle.zd_examples.specs.Histories.{two_chunks_history};
ghost use Rattle.zd_examples.specs.Reports.{faulty_history, flush_history, joined_history};
ghost use Rattle.zd_examples.specs.Reports.{middle_history, nearly_pattern, nearly_zeros};

use zd_base::Why;
use zd_model::{Ending, NoVolume, Outcome};

/// The line that ends an output, for each outcome.
pub fn outcome_examples()
    ensures ok { outcome_text (Outcome.Ended Ending.Ok) ≡ codes "end 0 ok\n" }
    ensures usage { outcome_text Outcome.Usage ≡ codes "end 1 usage\n" }
    ensures no_super_block { outcome_text (Outcome.NoVolume NoVolume.NoSuperBlock)
        ≡ codes "end 3 volume no-super-block\n" }
    ensures layout { outcome_text (Outcome.NoVolume NoVolume.Layout)
        ≡ codes "end 3 volume layout\n" }
    ensures map { outcome_text (Outcome.NoVolume (NoVolume.BadMap 1)) ≡ codes "end 3 volume map 1\n" }
    ensures bits { outcome_text (Outcome.NoVolume (NoVolume.BadBits 7 3)) ≡ codes "end 3 volume bits 7 3\n" }
    ensures device { outcome_text (Outcome.Ended (Ending.Stopped Why.Device))
        ≡ codes "end 4 device\n" }
    ensures source { outcome_text Outcome.Source ≡ codes "end 5 source\n" }
    ensures memory { outcome_text (Outcome.Ended (Ending.Stopped Why.Memory))
        ≡ codes "end 7 memory\n" }
    ensures generation { outcome_text (Outcome.Ended (Ending.Stopped Why.Generation))
        ≡ codes "end 8 generation\n" }
    ensures not_built { outcome_text Outcome.NotBuilt ≡ codes "end 11 not-built\n" }
{}

/// The exit status of each outcome.
pub fn status_examples()
    ensures ended { map outcome_status (Outcome.Ended Ending.Ok ∷ Outcome.Usage ∷ Outcome.Source ∷ [])
        ≡ 0 ∷ 1 ∷ 5 ∷ [] }
    ensures no_volume { map outcome_status
        (Outcome.NoVolume NoVolume.NoSuperBlock ∷ Outcome.NoVolume NoVolume.Layout
        ∷ Outcome.NoVolume (NoVolume.BadMap 1) ∷ Outcome.NoVolume (NoVolume.BadBits 7 3) ∷ [])
        ≡ 3 ∷ 3 ∷ 3 ∷ 3 ∷ [] }
    ensures stopped { map outcome_status (Outcome.Ended (Ending.Stopped Why.Device)
        ∷ Outcome.Ended (Ending.Stopped Why.Memory)
        ∷ Outcome.Ended (Ending.Stopped Why.Generation) ∷ Outcome.NotBuilt ∷ [])
        ≡ 4 ∷ 7 ∷ 8 ∷ 11 ∷ [] }
{}

/// An empty volume, a write at its end, two chunks, a discard, a block between zeros, sectors.
pub fn report_examples()
    ensures empty { report [] Ending.Ok ≡ codes "end 0 ok\n" }
    ensures nothing { report empty_volume_history Ending.Ok
        ≡ codes "0 1 0 r 0 1 data z8 @0\nend 0 ok\n" }
    ensures last { report last_block_history Ending.Ok
        ≡ codes "0 1 0 w 127 1 7 done @1\n0 2 0 r 127 1 data p7x8 @1\n0 3 0 r 127 2 range @1\n"
        ++ codes "end 0 ok\n" }
    ensures two { report two_chunks_history Ending.Ok
        ≡ codes "0 1 0 w 14 2 3 done @1\n0 1 1 w 16 2 3 done @2\n"
        ++ codes "0 2 0 r 14 2 data p3x16 @2\n0 2 1 r 16 2 data p3x16 @2\nend 0 ok\n" }
    ensures discard { report discard_history Ending.Ok
        ≡ codes "0 1 0 w 0 4 1 done @1\n0 2 0 d 1 2 done @1\n"
        ++ codes "0 3 0 r 0 4 data p1x8,z16,p1x8 @1\nend 0 ok\n" }
    ensures middle { report middle_history Ending.Ok
        ≡ codes "0 1 0 r 0 3 data z8,p4x8,z8 @0\nend 0 ok\n" }
    ensures sectors { report sectors_history Ending.Ok
        ≡ codes "0 1 0 ws 3 2 5 done @1\n0 2 0 rs 0 8 data z3,p5x2,z3 @1\nend 0 ok\n" }
{}

/// Runs that ended otherwise: what was entered stands before the outcome's line.
pub fn output_examples()
    ensures faulty { report faulty_history (Ending.Stopped Why.Device)
        ≡ codes "63 10 0 r 0 1 fault @1\n7 11 2 w 16 9 4294967295 fault @2\n"
        ++ codes "7 12 0 d 9 400 range @2\n0 13 0 f fault @30\nend 4 device\n" }
    ensures flush { report flush_history (Ending.Stopped Why.Generation)
        ≡ codes "2 1000000 0 f done @18\nend 8 generation\n" }
    ensures usage { run_output [] Outcome.Usage ≡ codes "end 1 usage\n" }
    ensures ended { run_output flush_history (Outcome.Ended (Ending.Stopped Why.Memory))
        ≡ codes "2 1000000 0 f done @18\nend 7 memory\n" }
{}

/// Rows of sectors: those of one seed are joined, other sectors stand by themselves, and each
/// sector is compared with the pattern of its own place.
pub fn item_examples()
    ensures seeds { report joined_history Ending.Ok
        ≡ codes "0 12 1 r 3 3 data p5x16,p6x8 @107\nend 0 ok\n" }
    ensures seed_zero { items_text 8 (pattern 0 8) ≡ codes "p0x1" }
    ensures inside { items_text 4 (pattern 5 4) ≡ codes "p5x1" }
    ensures other_place { take 1 (items_text 8 (pattern 3 0)) ≡ codes "h" }
    ensures nearly { take 1 (items_text 0 nearly_pattern) ≡ codes "h" }
    ensures digits { items_text 0 nearly_zeros ≡ codes "h" ++ replicate 1023 48 ++ codes "1" }
    ensures apart { items_text 72 (nearly_zeros ++ nearly_zeros)
        ≡ items_text 72 nearly_zeros ++ codes "," ++ items_text 72 nearly_zeros }
{}
