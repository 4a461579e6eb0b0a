//! The first piece of each caller that isn't entered.

ghost use Rattle.std.specs.Prelude.{◌≡◌, ◌≢◌, ℕ, ◌+◌, ◌<◌, ◌≤◌, ◌^◌, ◌++◌, ◌∷◌, [], Bool, List, Some, IfOk};
ghost use Rattle.std.specs.Prelude.{Contains, Decides, length, map, option_copied, replicate, slice_get};
ghost use Rattle.zd_model.specs.History.{Mark, mark_of_piece};
ghost use Rattle.zd_model.specs.declared.requests.Piece.{Piece};
ghost use Rattle.zd_steps.specs.Queues.{AreFirsts, AreHeads, AreLinkedFrom, HasEntered, HaveCallersBelow, IsLeast, first_of, head_of};

use std::alloc::Global;
use std::marker::Model;
use zd_base::Memory;
use zd_model::Piece;

/// The callers' numbers are below it.
pub const CALLERS: usize = 64;

/// All pieces of a plan in the order of the script, and for each caller its head: the place of its first
/// piece that isn't entered.
#[derive(Drop)]
pub(crate) struct Heads {
    pieces: Vec<Piece>,
    /// For each piece the place of its caller's next one; the count of pieces where there is none.
    links: Vec<usize>,
    heads: [usize; CALLERS],
}

impl Model for Heads {
    ghost use Rattle.zd_steps.specs.Queues.{AreHeads, AreLinks, Callers, HaveCallersBelow};

    ghost Value = { Callers };

    ghost view = { λ h. record { pieces = h.pieces.items; heads = h.heads } };

    ghost invariant = { λ h. HaveCallersBelow 64 h.pieces.items
        × AreLinks h.pieces.items h.links.items × AreHeads h.pieces.items h.heads };
}

/// A test of a caller's first piece.
pub(crate) trait PieceTest {
    ghost test: { Self → Piece → Bool };

    /// The pieces that it can be asked about.
    ghost takes: { Self → Piece → Type 0 };

    fn passes(&self, piece: &Piece) -> bool
        requires { takes self.now piece.now }
        ensures { result ≡ test self.now piece.now };
}

/// Links the piece at place i, behind which all are linked.
fn link(pieces: &[Piece], links: &mut [usize], heads: &mut [usize; CALLERS], i: usize)
    requires callers { HaveCallersBelow 64 pieces.now }
    requires inside { i < length pieces.now }
    requires behind { AreLinkedFrom pieces.now links.old heads.old (i + 1) }
    ensures { AreLinkedFrom pieces.now links.new heads.new i }
{
    let caller = usize::from(pieces[i].caller);
    links[i] = heads[caller];
    heads[caller] = i;
}

/// Links all pieces, and gives each caller's first place.
fn link_all(pieces: &[Piece], links: &mut Vec<usize>) -> [usize; CALLERS]
    requires callers { HaveCallersBelow 64 pieces.now }
    requires count { links.old.items ≡ replicate (length pieces.now) (length pieces.now) }
    ensures { AreLinkedFrom pieces.now links.new.items result 0 }
{
    let mut heads = [pieces.len(); CALLERS];
    for i in (0..pieces.len()).rev() {
        link(pieces, links, &mut heads, i);
    }
    heads
}

impl Heads {
    /// No piece is entered yet.
    pub(crate) fn new(alloc: Global, pieces: Vec<Piece>) -> Result<Heads, Memory>
        requires { HaveCallersBelow 64 pieces.items }
        ensures pieces { IfOk result (λ h. h.pieces ≡ pieces.items) }
        ensures heads { IfOk result (λ h. AreHeads h.pieces h.heads) }
        ensures none { IfOk result (λ h. HasEntered h []) }
    {
        let count = pieces.len();
        let mut links = vec![in alloc; count; count].map_err(|_| Memory)?;
        let heads = link_all(&pieces, &mut links);
        Ok(Heads {
            pieces,
            links,
            heads,
        })
    }

    /// A caller's head.
    pub(crate) fn head(&self, caller: usize) -> usize
        requires { caller < 64 }
        ensures { result ≡ head_of self.now caller }
    {
        self.heads[caller]
    }

    /// The piece at a place.
    pub(crate) fn at(&self, place: usize) -> Option<&Piece>
        ensures { option_copied result ≡ slice_get self.now.pieces place }
    {
        self.pieces.get(place)
    }

    /// How many pieces there are.
    pub(crate) fn count(&self) -> usize
        ensures { result ≡ length self.now.pieces }
    {
        self.pieces.len()
    }

    /// A caller's first piece is entered.
    pub(crate) fn enter(&mut self, caller: u8)
        requires known { caller < 64 }
        requires some { head_of self.old caller < length self.old.pieces }
        ensures pieces { self.new.pieces ≡ self.old.pieces }
        ensures heads { AreHeads self.new.pieces self.new.heads }
        ensures passes { head_of self.old caller < head_of self.new caller }
        ensures stays { (c : ℕ) → c ≢ caller → head_of self.new c ≡ head_of self.old c }
        ensures entered { (entered : List Mark) (p : Piece) → HasEntered self.old entered →
            first_of self.old caller ≡ Some p → HasEntered self.new (entered ++ mark_of_piece p ∷ []) }
    {
        let caller = usize::from(caller);
        self.heads[caller] = self.links[self.heads[caller]];
    }

    /// The first pieces of these callers are entered.
    pub(crate) fn enter_all(&mut self, list: &[Piece])
        requires heads { AreHeads self.old.pieces self.old.heads }
        requires firsts { AreFirsts self.old list.now }
        ensures pieces { self.new.pieces ≡ self.old.pieces }
        ensures heads { AreHeads self.new.pieces self.new.heads }
        ensures others { (c : ℕ) → ((k : ℕ) (p : Piece) → slice_get list.now k ≡ Some p → p.caller ≢ c) →
            first_of self.new c ≡ first_of self.old c }
        ensures later { (c : ℕ) → head_of self.old c ≤ head_of self.new c }
        ensures entered { (entered : List Mark) → HasEntered self.old entered →
            HasEntered self.new (entered ++ map mark_of_piece list.now) }
    {
        for piece in list {
            self.enter(piece.caller);
        }
    }

    /// The place, from one on, of the least head whose piece passes; the count of pieces where none does.
    pub(crate) fn least<T: PieceTest>(&self, test: &T, from: usize) -> usize
        requires { (p : Piece) → Contains self.now.pieces p → T.takes test.now p }
        ensures least { IsLeast self.now (T.test test.now) from result }
        ensures count { length self.now.pieces < 2 ^ 64 }
    {
        let mut least = self.pieces.len();
        for head in self.heads {
            if from <= head && head < least && test.passes(&self.pieces[head]) {
                least = head;
            }
        }
        least
    }

    /// Whether all pieces are entered.
    pub(crate) fn is_over(&self) -> bool
        ensures { Decides result ((c : ℕ) → c < 64 → length self.now.pieces ≤ head_of self.now c) }
    {
        let count = self.pieces.len();
        self.heads.iter().all(|head| *head >= count)
    }
}
