//! Two files of one disk.
ghost use Rattle.std.specs.Prelude.{◌≡◌, ◌≢◌, IfSome};
ghost use Rattle.std.proofs.Props.{props};
ghost use Rattle.h5w_image.specs.View.{IsThere};
ghost use Rattle.h5w_repacking.specs.Pairs.{pair_of};

use h5w_image::{Disk, Failed, ImageError, Piece, Write};
use h5w_repack::Pair;

/// Two files of one disk, both of which are there: one that is looked at, and another one that is written.
#[derive(Drop)]
pub struct TwoFiles<'a, 'b, 'c, D: Disk> {
    pub disk: &'a mut D,
    pub from: &'b str,
    pub to: &'c str,
    pub ghost from_there: { IsThere (D.view disk.now) from.now } by { Prim.hlevel props },
    pub ghost to_there: { IsThere (D.view disk.now) to.now } by { Prim.hlevel props },
    pub ghost apart: { IfSome (D.view disk.now).told (λ d. from.now ≢ to.now) } by { Prim.hlevel props },
}

impl<'a, 'b, 'c, D: Disk> Pair for TwoFiles<'a, 'b, 'c, D> {
    ghost view = { λ s. pair_of s.disk.ghost_name s.from.now s.to.now (D.view s.disk.now) };

    fn look(&mut self, at: u64, len: usize, out: &mut Piece) -> Result<(), Failed> {
        self.disk.look(self.from, at, len, out)
    }

    fn reserve(&mut self, pieces: u64, end: u64) -> Result<(), ImageError> {
        self.disk.reserve(self.to, pieces, end)?;
        Ok(())
    }

    #[tactic(auto, using(h5w_image::proofs::DiskLemmas::kept, crate::proofs::PairLemmas::stays_apart))]
    fn write(&mut self, w: &Write) -> Result<(), Failed> {
        match self.disk.put(self.to, w) {
            Ok(()) => Ok(()),
            Err(failed) => Err(failed),
        }
    }
}
