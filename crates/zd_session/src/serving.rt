//! The steps of pieces.

ghost use Rattle.std.specs.Prelude.{◌≡◌, ◌<◌, List, None, Some, false, true};
ghost use Rattle.zd_model.specs.Requests.{operation_of};
ghost use Rattle.zd_model.specs.Requests.Operation.{Discarding, Reading, Writing};
ghost use Rattle.zd_model.specs.declared.requests.Request.{Request};
ghost use Rattle.zd_routes.specs.Edges.{IsDue};
ghost use Rattle.zd_routes.specs.Routes.{LacksZone};
ghost use Rattle.zd_routes.specs.declared.edges.Edge.{Edge};
ghost use Rattle.zd_session.specs.Moving.{CanMove, HasMoved, StandsSo, seen_by};
ghost use Rattle.zd_session.specs.Serving.{Serves, ServesDiscard, ServesEdge, ServesIn, ServesPast, ServesRead};
ghost use Rattle.zd_session.specs.Serving.{ServesWrite};
ghost use Rattle.zd_session.specs.Sessions.{edges_seen, no_edges};
ghost use Rattle.zd_session.specs.Standings.{lacks_edge, standing_of};
ghost use Rattle.zd_steps.specs.NextStep.{kind_by, kind_of};
ghost use Rattle.zd_steps.specs.Queues.{IsQueue};
ghost use Rattle.zd_steps.specs.Runs.{is_ready};
ghost use Rattle.zd_steps.specs.declared.step.Step.TheVariants.{Serve};
ghost use Rattle.zd_volume.specs.declared.phase.Phase.TheVariants.{Idle};

use crate::progress::Progress;
use zd_base::StepKind;
use zd_disk::ZonedDisk;
use zd_model::{Piece, What};
use zd_state::{Ran, Volume};
use zd_write::Tried;

/// What a volume and a queue tell of themselves.
pub(crate) fn known<D: ZonedDisk>(volume: &Volume<D>, progress: &Progress)
    ensures volume { StandsSo D.view volume.now }
    ensures queue { IsQueue progress.now.queue.chunk_blocks progress.now.queue.callers progress.now.queue.flights }
{
    volume.sound();
    volume.shows();
    volume.serves();
    progress.queue.sound();
}

/// Makes the next run of a read. The last one enters it.
fn serve_read<D: ZonedDisk>(
    volume: &mut Volume<D>,
    progress: &mut Progress,
    actor: usize,
    piece: &Piece,
)
    requires moves { CanMove D.view volume.old progress.old actor piece.now }
    requires range { piece.now.range ≡ false }
    requires reads { operation_of piece.now.what ≡ Reading }
    ensures moved { HasMoved D.view volume.old volume.new progress.old progress.new }
    ensures serves { (plan : List Request) → ServesRead D.view (seen_by volume.old plan progress.old)
        (seen_by volume.new plan progress.new) actor piece.now }
{
    known(volume, progress);
    let mut flight = progress.take_read(actor, piece);
    match zd_read::step(volume, &mut flight) {
        Ran::More => {
            progress.actors[actor].read = Some(flight);
            progress.queue.fly(actor, piece);
        }
        Ran::Entered => progress.queue.enter(actor, piece),
    }
}

/// Reads the next edge of a write.
fn serve_edge<D: ZonedDisk>(
    volume: &mut Volume<D>,
    progress: &mut Progress,
    actor: usize,
    piece: &Piece,
)
    requires moves { CanMove D.view volume.old progress.old actor piece.now }
    requires range { piece.now.range ≡ false }
    requires writes { operation_of piece.now.what ≡ Writing }
    requires due { (edge : Edge)
        × IsDue volume.old.plain piece.now.what (edges_seen progress.old.actors.items actor) edge }
    ensures moved { HasMoved D.view volume.old volume.new progress.old progress.new }
    ensures serves { (plan : List Request) → ServesEdge D.view (seen_by volume.old plan progress.old)
        (seen_by volume.new plan progress.new) actor piece.now }
{
    known(volume, progress);
    let edges = &mut progress.actors[actor].edges;
    if volume.merge_read(piece, edges).is_ok() {
        progress.queue.fly(actor, piece);
    }
}

/// Writes a piece whose edges are read. It is entered, done or failed.
fn serve_write<D: ZonedDisk>(
    volume: &mut Volume<D>,
    progress: &mut Progress,
    actor: usize,
    piece: &Piece,
)
    requires moves { CanMove D.view volume.old progress.old actor piece.now }
    requires range { piece.now.range ≡ false }
    requires writes { operation_of piece.now.what ≡ Writing }
    requires idle { volume.old.plain.phase ≡ Idle }
    requires zone { LacksZone volume.old.plain piece.now.what → ⊥ }
    requires none { (edge : Edge) →
        IsDue volume.old.plain piece.now.what (edges_seen progress.old.actors.items actor) edge → ⊥ }
    ensures moved { HasMoved D.view volume.old volume.new progress.old progress.new }
    ensures serves { (plan : List Request) → ServesWrite D.view (seen_by volume.old plan progress.old)
        (seen_by volume.new plan progress.new) actor piece.now }
{
    known(volume, progress);
    let edges = &mut progress.actors[actor].edges;
    match zd_write::step(volume, piece, edges) {
        Tried::NoZone => unreachable!(),
        Tried::Entered | Tried::Stopped => {}
    }
    edges.first.clear();
    edges.last.clear();
    progress.queue.enter(actor, piece);
}

/// Discards a piece, and enters it.
fn serve_discard<D: ZonedDisk>(
    volume: &mut Volume<D>,
    progress: &mut Progress,
    actor: usize,
    piece: &Piece,
)
    requires moves { CanMove D.view volume.old progress.old actor piece.now }
    requires range { piece.now.range ≡ false }
    requires discards { operation_of piece.now.what ≡ Discarding }
    requires idle { volume.old.plain.phase ≡ Idle }
    ensures moved { HasMoved D.view volume.old volume.new progress.old progress.new }
    ensures serves { (plan : List Request) → ServesDiscard (seen_by volume.old plan progress.old)
        (seen_by volume.new plan progress.new) actor piece.now }
{
    known(volume, progress);
    zd_write::discard(volume, piece);
    progress.queue.enter(actor, piece);
}

/// Enters a piece that ends past the device.
fn serve_past<D: ZonedDisk>(
    volume: &mut Volume<D>,
    progress: &mut Progress,
    actor: usize,
    piece: &Piece,
)
    requires moves { CanMove D.view volume.old progress.old actor piece.now }
    requires range { piece.now.range ≡ true }
    ensures moved { HasMoved D.view volume.old volume.new progress.old progress.new }
    ensures serves { (plan : List Request) → ServesPast (seen_by volume.old plan progress.old)
        (seen_by volume.new plan progress.new) actor piece.now }
{
    known(volume, progress);
    volume.enter(piece);
    progress.queue.enter(actor, piece);
}

/// Makes the next step of a write: an edge is read where one is due, else its blocks are written.
fn serve_blocks<D: ZonedDisk>(
    volume: &mut Volume<D>,
    progress: &mut Progress,
    actor: usize,
    piece: &Piece,
) -> StepKind
    requires moves { CanMove D.view volume.old progress.old actor piece.now }
    requires range { piece.now.range ≡ false }
    requires writes { operation_of piece.now.what ≡ Writing }
    requires ready { is_ready (standing_of volume.old.plain no_edges) piece.now ≡ true }
    ensures moved { HasMoved D.view volume.old volume.new progress.old progress.new }
    ensures serves { (plan : List Request) → ServesIn D.view (seen_by volume.old plan progress.old)
        (seen_by volume.new plan progress.new) actor piece.now Writing
        (lacks_edge volume.old.plain (edges_seen progress.old.actors.items actor) piece.now) }
    ensures kind { result ≡ kind_by Writing
        (lacks_edge volume.old.plain (edges_seen progress.old.actors.items actor) piece.now) }
{
    known(volume, progress);
    let edges = &progress.actors[actor].edges;
    if volume.next_edge(piece, edges).is_some() {
        serve_edge(volume, progress, actor, piece);
        StepKind::MergeRead
    } else {
        serve_write(volume, progress, actor, piece);
        StepKind::Write
    }
}

/// Makes the step of a piece, and answers its kind.
pub(crate) fn serve<D: ZonedDisk>(
    volume: &mut Volume<D>,
    progress: &mut Progress,
    actor: usize,
    piece: &Piece,
) -> StepKind
    requires moves { CanMove D.view volume.old progress.old actor piece.now }
    requires ready { is_ready (standing_of volume.old.plain no_edges) piece.now ≡ true }
    ensures moved { HasMoved D.view volume.old volume.new progress.old progress.new }
    ensures serves { (plan : List Request) → Serves D.view (seen_by volume.old plan progress.old)
        (seen_by volume.new plan progress.new) actor piece.now }
    ensures kind { result ≡ kind_of (standing_of volume.old.plain (edges_seen progress.old.actors.items actor))
        (Serve piece.now) }
{
    if piece.range {
        serve_past(volume, progress, actor, piece);
        return StepKind::Enter;
    }
    match piece.what {
        What::Read { .. } | What::ReadSectors { .. } => {
            serve_read(volume, progress, actor, piece);
            StepKind::ReadRun
        }
        What::Write { .. } | What::WriteSectors { .. } => {
            serve_blocks(volume, progress, actor, piece)
        }
        What::Discard { .. } => {
            serve_discard(volume, progress, actor, piece);
            StepKind::Discard
        }
        What::Flush => unreachable!(),
    }
}
