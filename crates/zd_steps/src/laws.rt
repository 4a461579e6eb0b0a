//! What is proved about pieces and their callers' heads, whatever code moves them.

ghost use Rattle.std.specs.Prelude.{◌≡◌, ◌<◌, ℕ, All, List, map};
ghost use Rattle.zd_model.specs.History.{HistoryEntry, IsOrdered, mark_of_entry};
ghost use Rattle.zd_model.specs.Pieces.{pieces_of};
ghost use Rattle.zd_model.specs.declared.requests.Request.{Request};
ghost use Rattle.zd_steps.specs.Queues.{Callers, HasEntered, IsScriptOf};

/// The pieces of a plan are a script's: in its order, of its requests' callers, and no flush of them ends past
/// the device.
pub fn plan_is_script()
    ensures { (z blocks limit : ℕ) (plan : List Request) → All (λ r. r.caller < limit) plan →
        IsScriptOf limit (pieces_of z blocks plan) }
{}

/// Where of each caller the pieces before its head are entered, the history keeps each caller's order.
pub fn heads_keep_order()
    ensures { (z blocks : ℕ) (plan : List Request) (h : Callers) (history : List HistoryEntry) →
        h.pieces ≡ pieces_of z blocks plan → HasEntered h (map mark_of_entry history) →
        IsOrdered z blocks plan history }
{}
