//! The copying of a planned file: what is looked at, and what is written, in their order.
ghost use Rattle.std.specs.Prelude.{◌≡◌, ◌+◌, ◌≤◌, [], ◌∷◌, length, Err, IfErr, OnErr, OnOk};
ghost use Rattle.h5w_model.specs.Causes.{Rose};
ghost use Rattle.h5w_packing.specs.Jobs.{IsJobIn, IsPrepared, size_of};
ghost use Rattle.h5w_packing.specs.declared.job.Job.TheVariants as jobs;
ghost use Rattle.h5w_repack.specs.Copies.{AreDone, Carries, CarriesSome, IsDone, IsFault};

use crate::error::CopyError;
use crate::pair::Pair;
use h5w_image::ImageError;
use h5w_model::{PIECE, Piece, Write};
use h5w_packing::{Job, Packing};

/// A piece of `n` bytes: those that were looked at, with zeros behind them where these are fewer.
fn padded(piece: &Piece, n: usize) -> Piece
    requires { n ≤ 512 }
    ensures len { length result ≡ n }
    ensures whole { length piece.now ≡ n → result ≡ piece.now }
{
    let mut bytes = [0; PIECE];
    bytes[..piece.len()].copy_from_slice(piece.as_slice());
    Piece::of(&bytes[..n])
}

/// Copies `n` bytes of the source from `from` on, in one piece, to place `to`. Where the source has fewer, which is so only where somebody
/// else cut it since it was checked, zeros stand for them.
fn copy_piece<P: Pair>(from: u64, to: u64, n: usize, pair: &mut P) -> Result<(), CopyError>
    requires some { 1 ≤ n }
    requires piece { n ≤ 512 }
    requires pieces { 1 ≤ (P.view pair.old).to.pieces }
    requires end { to + n ≤ (P.view pair.old).to.end }
    ensures done { OnOk result (IsDone (jobs.Chunk from to n) (P.view pair.old) (P.view pair.new)) }
    ensures kept { OnErr result (Carries [] (P.view pair.old) (P.view pair.new)) }
    ensures causes { IfErr result IsFault }
    ensures from_fault { result ≡ Err CopyError.From → Rose (P.view pair.old).from.faults (P.view pair.new).from.faults }
    ensures to_fault { result ≡ Err CopyError.To → Rose (P.view pair.old).to.faults (P.view pair.new).to.faults }
{
    let mut piece = Piece::new();
    match pair.look(from, n, &mut piece) {
        Ok(()) => {}
        Err(_) => return Err(CopyError::From),
    }
    let w = Write {
        at: to,
        piece: padded(&piece, n),
    };
    match pair.write(&w) {
        Ok(()) => Ok(()),
        Err(_) => Err(CopyError::To),
    }
}

/// Writes a piece of a block.
fn write_piece<P: Pair>(w: &Write, pair: &mut P) -> Result<(), CopyError>
    requires some { 1 ≤ length w.now.piece }
    requires pieces { 1 ≤ (P.view pair.old).to.pieces }
    requires end { w.now.at + length w.now.piece ≤ (P.view pair.old).to.end }
    ensures done { OnOk result (IsDone (jobs.Block w.now) (P.view pair.old) (P.view pair.new)) }
    ensures kept { OnErr result (Carries [] (P.view pair.old) (P.view pair.new)) }
    ensures causes { IfErr result IsFault }
    ensures from_fault { result ≡ Err CopyError.From → Rose (P.view pair.old).from.faults (P.view pair.new).from.faults }
    ensures to_fault { result ≡ Err CopyError.To → Rose (P.view pair.old).to.faults (P.view pair.new).to.faults }
{
    match pair.write(w) {
        Ok(()) => Ok(()),
        Err(_) => Err(CopyError::To),
    }
}

/// Does one job: one piece is written.
fn do_job<P: Pair>(job: &Job, pair: &mut P) -> Result<(), CopyError>
    requires sized { IsJobIn (P.view pair.old).to.end job.now }
    requires pieces { 1 ≤ (P.view pair.old).to.pieces }
    ensures done { OnOk result (IsDone job.now (P.view pair.old) (P.view pair.new)) }
    ensures kept { OnErr result (Carries [] (P.view pair.old) (P.view pair.new)) }
    ensures causes { IfErr result IsFault }
    ensures from_fault { result ≡ Err CopyError.From → Rose (P.view pair.old).from.faults (P.view pair.new).from.faults }
    ensures to_fault { result ≡ Err CopyError.To → Rose (P.view pair.old).to.faults (P.view pair.new).to.faults }
{
    match job {
        Job::Chunk { from, to, len } => copy_piece(*from, *to, *len, pair),
        Job::Block(w) => write_piece(w, pair),
    }
}

/// Does all that is left of a planned file, for which there is room.
fn do_all<P: Pair>(packing: &mut Packing, pair: &mut P) -> Result<(), CopyError>
    requires prepared { IsPrepared packing.old }
    requires pieces { length packing.old.left ≤ (P.view pair.old).to.pieces }
    requires end { packing.old.end ≤ (P.view pair.old).to.end }
    ensures done { OnOk result (AreDone packing.old.left (P.view pair.old) (P.view pair.new)) }
    ensures ranges { packing.new.ranges ≡ packing.old.ranges }
    ensures partly { OnErr result (CarriesSome (P.view pair.old) (P.view pair.new)) }
    ensures causes { IfErr result IsFault }
    ensures from_fault { result ≡ Err CopyError.From → Rose (P.view pair.old).from.faults (P.view pair.new).from.faults }
    ensures to_fault { result ≡ Err CopyError.To → Rose (P.view pair.old).to.faults (P.view pair.new).to.faults }
{
    while let Some(job) = packing.next() {
        do_job(&job, pair)?;
        packing.done();
    }
    Ok(())
}

/// Makes room for all pieces of the new file.
fn make_room<P: Pair>(packing: &Packing, pair: &mut P) -> Result<(), CopyError>
    ensures kept { Carries [] (P.view pair.old) (P.view pair.new) }
    ensures pieces { OnOk result (length packing.now.left ≤ (P.view pair.new).to.pieces) }
    ensures end { OnOk result (packing.now.end ≤ (P.view pair.new).to.end) }
    ensures from_fault { result ≡ Err CopyError.From → Rose (P.view pair.old).from.faults (P.view pair.new).from.faults }
    ensures to_fault { result ≡ Err CopyError.To → Rose (P.view pair.old).to.faults (P.view pair.new).to.faults }
{
    match pair.reserve(packing.pieces(), packing.end()) {
        Ok(()) => Ok(()),
        Err(ImageError::Failed) => Err(CopyError::To),
        Err(ImageError::OutOfMemory) => Err(CopyError::OutOfMemory),
    }
}

/// Copies the chunks of the source into the new file, in pieces, and writes its other blocks behind them; the superblock is the last, so that
/// no reader finds a file before all of it is there.
pub fn copy<P: Pair>(packing: &mut Packing, pair: &mut P) -> Result<(), CopyError>
    requires { IsPrepared packing.old }
    ensures copied { OnOk result (AreDone packing.old.left (P.view pair.old) (P.view pair.new)) }
    ensures ranges { packing.new.ranges ≡ packing.old.ranges }
    ensures partly { OnErr result (CarriesSome (P.view pair.old) (P.view pair.new)) }
    // OutOfMemory comes before the first write
    ensures before { result ≡ Err CopyError.OutOfMemory → Carries [] (P.view pair.old) (P.view pair.new) }
    ensures from_fault { result ≡ Err CopyError.From → Rose (P.view pair.old).from.faults (P.view pair.new).from.faults }
    ensures to_fault { result ≡ Err CopyError.To → Rose (P.view pair.old).to.faults (P.view pair.new).to.faults }
{
    make_room(packing, pair)?;
    do_all(packing, pair)
}
