//! Texts of numbers, of plans, and what is refused.

ghost use Rattle.std.specs.Prelude.{◌≡◌, ◌+◌, ◌-◌, ◌^◌, ◌++◌, List, [], ◌∷◌, ℕ, codes, length};
ghost use Rattle.zd_model.specs.Script.{HasNumbers, IsScript, IsWithinLimits, RefusesScript};
ghost use Rattle.zd_model.specs.Text.{hex, numeral};
ghost use Rattle.zd_model.specs.declared.requests.Request.{Request};
ghost use Rattle.zd_model.specs.declared.texts.BadLine.{BadLine as WhyBad};
ghost use Rattle.zd_examples.specs.Requests.{two_chunks_plan};
ghost use Rattle.zd_examples.specs.Scripts.{all_kinds, greatest, most_discarded, most_in_sectors};
ghost use Rattle.zd_examples.specs.Scripts.{sectors_plan};
ghost use Rattle.zd_examples.specs.Scripts.{too_much_discarded};
ghost use Rattle.zd_examples.specs.Scripts.{too_much_moved};
ghost use Rattle.zd_examples.specs.Scripts.{HasFewBlocks};

use zd_model::{BadLine, What};

/// Numbers and bytes as texts.
#[tactic(auto, unfolding(zd_model::specs::Text::numeral))]
pub fn numeral_examples()
    ensures zero { numeral 0 ≡ codes "0" }
    ensures nine { numeral 9 ≡ codes "9" }
    ensures ten { numeral 10 ≡ codes "10" }
    ensures inside { numeral 90817 ≡ codes "90817" }
    ensures large { numeral (2 ^ 64) ≡ codes "18446744073709551616" }
    ensures bytes { hex (0 ∷ 0x9a ∷ 0xff ∷ []) ≡ codes "009aff" }
{}

/// Scripts and their plans.
#[tactic(auto, unfolding(zd_model::specs::Script::line_text, zd_model::specs::Text::numeral))]
pub fn script_examples()
    ensures empty { IsScript [] [] }
    ensures two { IsScript (codes "w 0 14 4 3\nr 0 14 4\n") two_chunks_plan }
    ensures kinds { IsScript (codes "r 0 5 2\nw 1 10 1 99\nd 63 0 100\nf 2\n") all_kinds }
    ensures greatest { IsScript
        (codes "w 0 18446744073709551615 1 4294967295\nr 0 0 32767\n") greatest }
    ensures discards { IsScript (codes "d 0 0 4194303\nr 0 0 32768\nd 0 9 1\n") most_discarded }
    ensures sectors { IsScript (codes "ws 0 3 2 5\nrs 9 0 8\n") sectors_plan }
{}

/// The bounds of numbers.
pub fn bound_examples()
    ensures greatest { HasNumbers (What.Write (2 ^ 64 - 1) (2 ^ 32 - 1) (2 ^ 32 - 1)) }
    ensures least { HasNumbers (What.Discard 0 1) }
    ensures block { HasNumbers (What.Read (2 ^ 64) 1) → ⊥ }
    ensures no_block { HasNumbers (What.Write 0 0 1) → ⊥ }
    ensures count { HasNumbers (What.Discard 0 (2 ^ 32)) → ⊥ }
    ensures seed { HasNumbers (What.Write 0 1 (2 ^ 32)) → ⊥ }
    ensures last_sector { HasNumbers (What.ReadSectors (2 ^ 64 - 1) 1) }
    ensures sector { HasNumbers (What.ReadSectors (2 ^ 64) 1) → ⊥ }
    ensures no_sector { HasNumbers (What.WriteSectors 0 0 1) → ⊥ }
{}

/// The limits of scripts.
pub fn limit_examples()
    ensures discards { IsWithinLimits most_discarded }
    ensures discards_more { IsWithinLimits too_much_discarded → ⊥ }
    ensures moves { IsWithinLimits greatest }
    ensures moves_more { IsWithinLimits too_much_moved → ⊥ }
    ensures sectors { IsWithinLimits (most_in_sectors 262_137) }
    ensures sectors_more { IsWithinLimits (most_in_sectors 262_138) → ⊥ }
    ensures requests_most { (plan : List Request) → length plan ≡ 1_000_000 →
        HasFewBlocks plan → IsWithinLimits plan }
    ensures requests_more { (plan : List Request) → length plan ≡ 1_000_001 →
        IsWithinLimits plan → ⊥ }
    ensures bytes_more { (bytes : List ℕ) → length bytes ≡ 67_108_865 →
        RefusesScript bytes 0 BadLine.TooLong }
    ensures bytes_most { (bytes : List ℕ) (why : WhyBad) → length bytes ≡ 67_108_864 →
        RefusesScript bytes 0 why → ⊥ }
{}

/// What is refused, by which rule: form, number, caller and limits, in this order.
pub fn refusal_examples()
    ensures form { RefusesScript (codes "r 0 0\n") 1 BadLine.Form }
    ensures number { RefusesScript (codes "r 64 0 0\n") 1 BadLine.Number }
    ensures caller { RefusesScript (codes "r 64 0 1\n") 1 BadLine.Caller }
    ensures long { RefusesScript (codes "r 0 0 32769\n") 1 BadLine.TooLong }
    ensures leading { RefusesScript (codes "f 0\nr 0 00 1\n") 2 BadLine.Form }
    ensures unended { RefusesScript (codes "r 0 0 1") 1 BadLine.Form }
    ensures caller_first { RefusesScript (codes "r 64 0 32769\n") 1 BadLine.Caller }
    ensures far { RefusesScript (codes "d 0 18446744073709551616 1\n") 1 BadLine.Number }
    ensures discards { RefusesScript (codes "d 0 0 4194304\nd 1 0 1\n") 2 BadLine.TooLong }
    ensures sectors { RefusesScript (codes "rs 0 7 262138\n") 1 BadLine.TooLong }
    ensures sectors_caller_first { RefusesScript (codes "rs 64 7 262138\n") 1 BadLine.Caller }
    ensures no_sector { RefusesScript (codes "ws 64 0 0 1\n") 1 BadLine.Number }
{}

/// Lines that have none of the six forms.
pub fn form_examples()
    ensures blank { RefusesScript (codes "f 0\n\n") 2 BadLine.Form }
    ensures letter { RefusesScript (codes "x 0 0 1\n") 1 BadLine.Form }
    ensures spaces { RefusesScript (codes "f  0\n") 1 BadLine.Form }
    ensures indented { RefusesScript (codes " f 0\n") 1 BadLine.Form }
    ensures sign { RefusesScript (codes "f -1\n") 1 BadLine.Form }
    ensures letters { RefusesScript (codes "fs 0\n") 1 BadLine.Form }
{}
