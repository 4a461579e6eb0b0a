//! What a cut of a request is, and how entries of the program are seen.

ghost use Rattle.std.specs.Prelude.{◌≡◌, [], ◌∷◌};
ghost use Rattle.zd_model.specs.Cut.{IsCut};
ghost use Rattle.zd_model.specs.Requests.{Moves, operation_of};
ghost use Rattle.zd_model.specs.Entries.{answer_of, shown_entry};
ghost use Rattle.zd_model.specs.Plain.{Answer};
ghost use Rattle.zd_examples.specs.Requests.{entry_by};

use zd_model::{Reply, What};

/// Parts that follow each other, each in one chunk of 16 blocks.
pub fn cut_examples()
    ensures one { IsCut 16 128 256 (What.Read 16 16 ∷ []) }
    ensures two { IsCut 16 112 144 (What.Write 14 2 3 ∷ What.Write 16 2 3 ∷ []) }
    ensures finer { IsCut 16 0 24 (What.Discard 0 1 ∷ What.Discard 1 2 ∷ []) }
    ensures nothing { IsCut 16 5 5 [] }
    ensures sectors { IsCut 16 127 129
        (What.WriteSectors 127 1 4 ∷ What.WriteSectors 128 1 4 ∷ []) }
{}

/// Parts that don't.
pub fn wrong_cut_examples()
    ensures two_chunks { IsCut 16 112 144 (What.Read 14 4 ∷ []) → ⊥ }
    ensures gap { IsCut 16 0 24 (What.Read 0 1 ∷ What.Read 2 1 ∷ []) → ⊥ }
    ensures overlap { IsCut 16 0 24 (What.Read 0 2 ∷ What.Read 1 2 ∷ []) → ⊥ }
    ensures no_block { IsCut 16 0 24 (What.Read 0 3 ∷ What.Read 3 0 ∷ []) → ⊥ }
    ensures too_short { IsCut 16 0 24 (What.Read 0 2 ∷ []) → ⊥ }
    ensures sectors { IsCut 16 127 129 (What.WriteSectors 127 2 4 ∷ []) → ⊥ }
    ensures flush { Moves (operation_of What.Flush) → ⊥ }
{}

/// Replies and entries without the room of their bytes.
pub fn entry_examples()
    ensures got { answer_of (Reply.Got (record { items = 7 ∷ 8 ∷ []; room = 5 }))
        ≡ Answer.Got (7 ∷ 8 ∷ []) }
    ensures done { answer_of Reply.Done ≡ Answer.Done }
    ensures range { answer_of Reply.Range ≡ Answer.Range }
    ensures fault { answer_of Reply.Fault ≡ Answer.Fault }
    ensures entry { shown_entry (record {
      caller = 3;
      request = 4;
      piece = 5;
      what = What.Read 6 7;
      reply = Reply.Fault;
      at = 8;
    }) ≡ entry_by 3 4 5 (What.Read 6 7) Answer.Fault 8 }
{}
