//! One part of a flush: it is planned over the superblock and the places that the parts before it leave, and carried
//! out or given up.
ghost use Rattle.std.specs.Prelude.{◌≡◌, ◌⊎◌, ◌+◌, ◌<◌, ◌≤◌, ◌^◌, [], length, IfErr, IfOk, OnErr, Err};
ghost use Rattle.h5w_flush_laws.specs.Spaces.{extent_of};
ghost use Rattle.h5w_model.specs.Findings.{the_superblock};
ghost use Rattle.h5w_model.specs.declared.root.Super.{Super};
ghost use Rattle.h5w_space.specs.Space.{IsLive, Space};
ghost use Rattle.h5w_space.specs.declared.Full.{Full};
ghost use Rattle.h5w_writer.specs.Flushes.{SameBut};
ghost use Rattle.h5w_writer.specs.Halves.{IsHalf, WasHalf, most_of, places_of};
ghost use Rattle.h5w_writer.specs.Lent.{WasLent};
ghost use Rattle.h5w_writer.specs.Refusals.{IsDeepFor, IsFullFor, IsSpace};
ghost use Rattle.h5w_writer.specs.Sessions.{IsSession, IsUnmade, Session};
ghost use Rattle.h5w_writer.specs.Told.{told_of};
ghost use Rattle.h5w_writer.specs.declared.refusal.FlushError.{FlushError};
ghost use Rattle.h5w_several_writer.specs.Turns.{HasTurned, IsBegun, IsPlannedThen, WasBegun};

use crate::several::set_aside;
use h5w_model::{OutOfMemory, Super};
use h5w_space::Places;
use h5w_writer::{FlushError, Planned, WriterCore};
use std::alloc::Global;
use std::mem;

/// A part that is planned; the superblock and the places of the file behind it; and how many pieces it and the parts
/// before it have at most.
#[derive(Drop)]
pub struct Turn {
    pub planned: Planned,
    pub root: Super,
    pub places: Places,
    pub pieces: u64,
}

/// So many pieces more.
fn more_pieces(pieces: u64, rows: usize, after: usize) -> Result<u64, OutOfMemory>
    ensures { IfOk result (λ all. all ≡ pieces + (rows + after)) }
{
    let more = rows.checked_add(after).ok_or(OutOfMemory)?;
    Ok(pieces.checked_add(more as u64).ok_or(OutOfMemory)?)
}

/// The places that a part which is planned leaves behind it, and how many pieces there are with its own at most, where
/// there is memory for that.
fn behind(part: &WriterCore, planned: &Planned, pieces: u64) -> Result<(Places, u64), OutOfMemory>
    ensures places { IfOk result (λ x. x.0 ≡ places_of part.now planned.now) }
    ensures pieces { IfOk result (λ x. x.1 ≡ pieces + most_of planned.now) }
{
    let (rows, after, _) = part.needs(planned);
    let pieces = more_pieces(pieces, rows, after)?;
    let places = part.places_then(planned).copy()?;
    Ok((places, pieces))
}

/// Plans a part that was told of the superblock and the places of the parts before it.
fn plan_part(part: &mut WriterCore, pieces: u64) -> Result<Turn, FlushError>
    requires waits { 0 < part.old.waits }
    requires idle { part.old.pending ≡ [] }
    ensures planned { IfOk result (λ t. IsPlannedThen part.old part.new pieces t) }
    ensures kept { OnErr result (SameBut part.old part.new) }
    ensures full { (full : Full) → result ≡ Err (FlushError.Space full) → IsFullFor part.old full }
    ensures deep { result ≡ Err FlushError.Deep → IsDeepFor part.old }
    ensures causes { IfErr result (λ e. IsSpace e ⊎ ((e ≡ FlushError.Deep) ⊎ (e ≡ FlushError.OutOfMemory))) }
{
    match part.plan_rows() {
        Ok(planned) => match behind(part, &planned, pieces) {
            Ok((places, pieces)) => {
                let root = Super {
                    end: places.end(),
                    ..part.root()
                };
                Ok(Turn {
                    planned,
                    root,
                    places,
                    pieces,
                })
            }
            Err(_) => {
                part.give_up(planned);
                Err(FlushError::OutOfMemory)
            }
        },
        Err(e) => Err(e),
    }
}

/// Tells a part of this superblock and these places, which it has then, and hands out those that it had.
fn lend(part: &mut WriterCore, alloc: Global, root: &mut Super, places: &mut Places)
    requires version { root.old.version ≡ 3 }
    requires rises { part.old.places.end ≤ places.old.end }
    requires limit { places.old.limit ≤ 2 ^ 40 }
    requires live { IsUnmade part.old → IsLive places.old (extent_of the_superblock) }
    ensures session { part.new ≡ told_of part.old root.old places.old }
    ensures root { root.new ≡ part.old.root }
    ensures places { places.new ≡ part.old.places }
{
    let own = part.root();
    // so it is known that the places end below 2^64
    let _ = places.end();
    let none = Places::new(alloc, 0, 0);
    *places = part.tell(*root, mem::replace(places, none));
    *root = own;
}

/// Takes back from a part what was lent to it; it has again what it handed out.
fn reclaim(part: &mut WriterCore, alloc: Global, root: &mut Super, places: &mut Places)
    requires idle { part.old.pending ≡ [] }
    requires lent { WasLent part.old root.old places.old }
    ensures session { part.new ≡ told_of part.old root.old places.old }
    ensures root { root.new ≡ part.old.root }
    ensures places { places.new ≡ part.old.places }
{
    let lent = part.root();
    let none = Places::new(alloc, 0, 0);
    *places = part.take_back(*root, mem::replace(places, none));
    *root = lent;
}

/// Plans a part over this superblock and these places, which it has then, and hands out those that it had. After a
/// refusal all is as before, but for places that are held in its index.
pub fn begin_part(
    part: &mut WriterCore,
    alloc: Global,
    pieces: u64,
    root: &mut Super,
    places: &mut Places,
) -> Result<Turn, FlushError>
    requires session { IsSession part.old }
    requires waits { 0 < part.old.waits }
    requires idle { part.old.pending ≡ [] }
    requires version { root.old.version ≡ 3 }
    requires rises { part.old.places.end ≤ places.old.end }
    requires limit { places.old.limit ≤ 2 ^ 40 }
    ensures begun { IfOk result (λ t. IsBegun part.old root.old places.old pieces part.new t root.new places.new) }
    ensures version { IfOk result (λ t. t.root.version ≡ 3) }
    ensures rises { IfOk result (λ t. places.old.end ≤ t.places.end) }
    ensures limit { IfOk result (λ t. t.places.limit ≡ places.old.limit) }
    ensures root { OnErr result (root.new ≡ root.old) }
    ensures places { OnErr result (places.new ≡ places.old) }
    ensures kept { OnErr result (SameBut part.old part.new) }
    ensures full { (full : Full) → result ≡ Err (FlushError.Space full) → IsFullFor (told_of part.old root.old places.old) full }
    ensures deep { result ≡ Err FlushError.Deep → IsDeepFor part.old }
    ensures causes { IfErr result (λ e. IsSpace e ⊎ ((e ≡ FlushError.Deep) ⊎ (e ≡ FlushError.OutOfMemory))) }
{
    // nothing that a flush retires lies in the superblock, but that is not known here
    if part.is_unmade() && !places.live(0, h5w_super::LEN as u64) {
        return Err(FlushError::OutOfMemory);
    }
    lend(part, alloc, root, places);
    match plan_part(part, pieces) {
        Ok(turn) => Ok(turn),
        Err(e) => {
            reclaim(part, alloc, root, places);
            Err(e)
        }
    }
}

/// Carries out a part, which has then the superblock that the last part left, and places that end where that part's do.
pub fn end_part(
    part: &mut WriterCore,
    alloc: Global,
    turn: Turn,
    limit: u64,
    root: &mut Super,
    places: &mut Places,
)
    requires half { WasHalf part.old turn.planned }
    requires version { turn.root.version ≡ 3 }
    requires rises { (places_of part.old turn.planned).end ≤ turn.places.end }
    requires begun { 48 ≤ turn.places.end }
    requires limit { limit ≤ 2 ^ 40 }
    ensures turned { (old : Session) → IsHalf old part.old turn.planned → HasTurned old part.old turn.planned turn.root turn.places.end limit part.new }
    ensures few { length part.new.pending ≤ most_of turn.planned }
    ensures root { root.new ≡ turn.root }
    ensures places { places.new ≡ turn.places }
{
    let Turn {
        planned,
        root: last,
        places: then,
        ..
    } = turn;
    part.carry_out(planned);
    drop(set_aside(part, alloc, last, then.end(), limit));
    *root = last;
    *places = then;
}

/// Gives up a part, which has again the superblock and the places that it handed out.
pub fn undo_part(
    part: &mut WriterCore,
    alloc: Global,
    turn: Turn,
    root: &mut Super,
    places: &mut Places,
)
    requires begun { WasBegun part.old turn.planned root.old places.old }
    ensures kept { (s : Session) (r : Super) (t : Space) → IsHalf (told_of s r t) part.old turn.planned → root.old ≡ s.root → places.old ≡ s.places
        → SameBut s part.new × (root.new ≡ r) × (places.new ≡ t) }
{
    let Turn { planned: ended, .. } = turn;
    part.give_up(ended);
    reclaim(part, alloc, root, places);
}
