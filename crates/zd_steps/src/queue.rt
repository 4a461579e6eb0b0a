//! The pieces of all callers on their way, and the choice of the next step.

ghost use Rattle.std.specs.Prelude.{◌≡◌, ◌+◌, ◌||◌, ◌<◌, ◌≤◌, ◌++◌, ◌∷◌, [], ℕ, List, true, false, None, Some, Option};
ghost use Rattle.std.specs.Prelude.{Contains, IfOk, IfSome, length, replicate, slice_set, vec_capacity, vec_len};
ghost use Rattle.zd_model.specs.History.{Mark};
ghost use Rattle.zd_model.specs.declared.requests.Piece.{Piece};
ghost use Rattle.zd_steps.specs.Runs.{eligible_flushes, flight_of, has_flush, is_over, is_ready, is_wanted, reads, writes};
ghost use Rattle.zd_steps.specs.NextStep.{by_preference, commit_step, job_step, next_step, piece_step};
ghost use Rattle.zd_steps.specs.Queues.{EntersFlushes, EntersPiece, HasEntered, IsQueue, IsScriptOf, MayServe};
ghost use Rattle.zd_steps.specs.Queues.{head_of, run_of};
ghost use Rattle.zd_steps.specs.declared.step.Step.TheVariants.{Serve};

use crate::flights::Flights;
use crate::heads::{CALLERS, Heads};
use crate::ready::{Flushing, Servable, Wanting, is_ready};
use crate::standing::HasStanding;
use crate::step::Step;
use std::alloc::Global;
use std::marker::Model;
use zd_base::{Memory, Prefer, StepKind};
use zd_model::Piece;

/// All pieces of a plan, how far each caller has come in its own, and what each actor has in flight.
#[derive(Drop)]
pub struct Queue {
    heads: Heads,
    flights: Flights,
}

impl Model for Queue {
    ghost use Rattle.zd_steps.specs.Queues.{IsQueue, QueueState, queue_of};

    ghost Value = { QueueState };

    ghost view = { λ q. queue_of q.flights.chunk_blocks q.heads q.flights.pieces.items };

    ghost invariant = { λ q. IsQueue q.flights.chunk_blocks q.heads q.flights.pieces.items };
}

/// Appends a piece where there is room.
fn add(list: &mut Vec<Piece>, piece: Piece)
    requires { vec_len list.old < vec_capacity list.old }
    ensures items { list.new.items ≡ list.old.items ++ piece ∷ [] }
    ensures count { vec_len list.new ≡ vec_len list.old + 1 }
    ensures room { vec_capacity list.old ≤ vec_capacity list.new }
{
    match list.push(piece) {
        Ok(()) => {}
        Err(_) => unreachable!(),
    }
}

impl Queue {
    /// Nothing is entered and nothing in flight.
    pub fn new(
        alloc: Global,
        pieces: Vec<Piece>,
        chunk_blocks: u32,
        actors: usize,
    ) -> Result<Queue, Memory>
        requires chunk { 0 < chunk_blocks }
        requires pieces { IsScriptOf 64 pieces.items }
        ensures pieces { IfOk result (λ q. q.callers.pieces ≡ pieces.items) }
        ensures chunk { IfOk result (λ q. q.chunk_blocks ≡ chunk_blocks) }
        ensures flights { IfOk result (λ q. q.flights ≡ replicate actors None) }
        ensures none { IfOk result (λ q. HasEntered q.callers []) }
    {
        let flights = Flights::new(alloc, chunk_blocks, actors)?;
        let heads = Heads::new(alloc, pieces)?;
        Ok(Queue { heads, flights })
    }

    /// Whether all pieces are entered.
    pub fn is_over(&self) -> bool
        ensures { (entered : List Mark) → HasEntered self.now.callers entered →
            result ≡ is_over (run_of self.now entered) }
    {
        self.heads.is_over()
    }

    /// A caller's head: the place of its first piece that isn't entered; the count of all pieces where there is
    /// none.
    pub fn head(&self, caller: u8) -> usize
        requires { caller < 64 }
        ensures { result ≡ head_of self.now.callers caller }
    {
        self.heads.head(usize::from(caller))
    }

    /// What is always true of a queue.
    pub fn sound(&self)
        ensures { IsQueue self.now.chunk_blocks self.now.callers self.now.flights }
    {
        let _heads = &self.heads;
    }

    /// The class of pieces: the next step of what the actor has in flight, else of the first piece that is
    /// eligible and ready.
    fn piece_step<V: HasStanding>(&self, volume: &V, actor: usize) -> Option<Step>
        requires running { (V.standing volume.now).stopped ≡ false }
        requires known { (p : Piece) → Contains self.now.callers.pieces p → V.knows volume.now p }
        requires actor { actor < length self.now.flights }
        ensures { (entered : List Mark) → HasEntered self.now.callers entered →
            result ≡ piece_step (run_of self.now entered) (V.standing volume.now)
            (flight_of (run_of self.now entered) actor) }
    {
        if let Some(piece) = self.flights.of(actor) {
            return if is_ready(volume, &piece) {
                Some(Step::Serve(piece))
            } else {
                None
            };
        }
        let servable = Servable {
            flights: &self.flights,
            volume,
        };
        let place = self.heads.least(&servable, 0);
        match self.heads.at(place) {
            Some(piece) => Some(Step::Serve(*piece)),
            None => None,
        }
    }

    /// Whether a write that is eligible or in flight lacks a zone.
    fn is_wanted<V: HasStanding>(&self, volume: &V) -> bool
        requires running { (V.standing volume.now).stopped ≡ false }
        requires known { (p : Piece) → Contains self.now.callers.pieces p → V.knows volume.now p }
        ensures { (entered : List Mark) → HasEntered self.now.callers entered →
            result ≡ is_wanted (run_of self.now entered) (V.standing volume.now) }
    {
        let wanting = Wanting {
            flights: &self.flights,
            volume,
        };
        self.heads.least(&wanting, 0) < self.heads.count()
    }

    /// Whether a flush is eligible.
    fn has_flush(&self) -> bool
        ensures { (entered : List Mark) → HasEntered self.now.callers entered →
            result ≡ has_flush (run_of self.now entered) }
    {
        self.heads.least(&Flushing, 0) < self.heads.count()
    }

    /// The class of commits: the next call of the one that is under way or due.
    fn commit_step<V: HasStanding>(&self, volume: &V) -> Option<Step>
        requires running { (V.standing volume.now).stopped ≡ false }
        requires known { (p : Piece) → Contains self.now.callers.pieces p → V.knows volume.now p }
        ensures { (entered : List Mark) → HasEntered self.now.callers entered →
            result ≡ commit_step (run_of self.now entered) (V.standing volume.now) }
    {
        if volume.commits() || volume.commit_due(self.has_flush(), self.is_wanted(volume)) {
            Some(Step::Commit)
        } else {
            None
        }
    }

    /// The class of jobs: the next step of the one under way where it may be done now, or the first of one
    /// that is due.
    fn job_step<V: HasStanding>(&self, volume: &V) -> Option<Step>
        requires running { (V.standing volume.now).stopped ≡ false }
        requires known { (p : Piece) → Contains self.now.callers.pieces p → V.knows volume.now p }
        ensures { (entered : List Mark) → HasEntered self.now.callers entered →
            result ≡ job_step (run_of self.now entered) (V.standing volume.now) (V.standing volume.now).job }
    {
        match volume.job() {
            Some(StepKind::Remap) if volume.commits() => None,
            Some(kind) => Some(Step::Work(kind)),
            None if volume.job_due(self.is_wanted(volume)) => Some(Step::Begin),
            None => None,
        }
    }

    /// The first class that has a step, in the order that is preferred.
    fn by_preference<V: HasStanding>(
        &self,
        volume: &V,
        actor: usize,
        prefer: Prefer,
    ) -> Option<Step>
        requires running { (V.standing volume.now).stopped ≡ false }
        requires known { (p : Piece) → Contains self.now.callers.pieces p → V.knows volume.now p }
        requires actor { actor < length self.now.flights }
        ensures { (entered : List Mark) → HasEntered self.now.callers entered →
            result ≡ by_preference (run_of self.now entered) (V.standing volume.now) prefer
            (piece_step (run_of self.now entered) (V.standing volume.now) (flight_of (run_of self.now entered) actor))
            (commit_step (run_of self.now entered) (V.standing volume.now))
            (job_step (run_of self.now entered) (V.standing volume.now) (V.standing volume.now).job) }
    {
        match prefer {
            Prefer::Pieces => self
                .piece_step(volume, actor)
                .or_else(|| self.commit_step(volume))
                .or_else(|| self.job_step(volume)),
            Prefer::Commits => self
                .commit_step(volume)
                .or_else(|| self.job_step(volume))
                .or_else(|| self.piece_step(volume, actor)),
            Prefer::Jobs => self
                .job_step(volume)
                .or_else(|| self.commit_step(volume))
                .or_else(|| self.piece_step(volume, actor)),
        }
    }

    /// The one next step of an actor, or none.
    pub fn choose<V: HasStanding>(&self, volume: &V, actor: usize, prefer: Prefer) -> Option<Step>
        requires known { (p : Piece) → Contains self.now.callers.pieces p → V.knows volume.now p }
        requires actor { actor < length self.now.flights }
        ensures step { (entered : List Mark) → HasEntered self.now.callers entered →
            result ≡ next_step (run_of self.now entered) (V.standing volume.now) actor prefer }
        ensures serve { (entered : List Mark) (p : Piece) → HasEntered self.now.callers entered →
            result ≡ Some (Serve p) → MayServe self.now actor p × (is_ready (V.standing volume.now) p ≡ true) }
    {
        let _heads = &self.heads;
        if volume.stopped() || self.is_over() {
            return None;
        }
        self.by_preference(volume, actor, prefer)
    }

    /// The flushes that a commit enters, in the order of the script, in a list with room for one a caller.
    pub fn flushes(&self, list: &mut Vec<Piece>)
        requires room { 64 ≤ vec_capacity list.old }
        ensures list { (entered : List Mark) → HasEntered self.now.callers entered →
            list.new.items ≡ eligible_flushes (run_of self.now entered) }
        ensures room { 64 ≤ vec_capacity list.new }
    {
        list.clear();
        let mut place = self.heads.least(&Flushing, 0);
        while let Some(piece) = self.heads.at(place) {
            add(list, *piece);
            place = self.heads.least(&Flushing, place + 1);
        }
    }

    /// A piece that an actor served is entered.
    pub fn enter(&mut self, actor: usize, piece: &Piece)
        requires actor { actor < length self.old.flights }
        requires served { MayServe self.old actor piece.now }
        ensures { EntersPiece self.old self.new actor piece.now }
    {
        self.heads.enter(piece.caller);
        self.flights.set(actor, None);
    }

    /// A piece that an actor served is in flight with it: a read of which runs are left, or a write that has
    /// read an edge.
    pub fn fly(&mut self, actor: usize, piece: &Piece)
        requires actor { actor < length self.old.flights }
        requires served { MayServe self.old actor piece.now }
        requires in_range { piece.now.range ≡ false }
        requires moves { (reads piece.now || writes piece.now) ≡ true }
        ensures { self.new ≡ record self.old { flights = slice_set self.old.flights actor (Some piece.now) } }
    {
        self.flights.set(actor, Some(*piece));
    }

    /// The flushes that a commit enters are entered.
    pub fn enter_flushes(&mut self, list: &[Piece])
        requires { (entered : List Mark) × HasEntered self.old.callers entered
            × (list.now ≡ eligible_flushes (run_of self.old entered)) }
        ensures { EntersFlushes self.old self.new list.now }
    {
        self.heads.enter_all(list);
    }
}
