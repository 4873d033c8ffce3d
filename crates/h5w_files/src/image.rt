//! One file of a disk as an image.
ghost use Rattle.std.specs.Prelude.{◌≡◌, ◌≤◌, ◌+◌, ◌∷◌, [], true, length, OnOk, OnErr};
ghost use Rattle.std.proofs.Props.{props};
ghost use Rattle.h5w_model.specs.Causes.{Rose};
ghost use Rattle.h5w_image.specs.View.{Same, Looked, Wrote, GivesRange, IsThere};
ghost use Rattle.h5w_files.specs.Images.{file_image};

use h5w_image::{Disk, Failed, ImageError, Piece, PieceRead, PieceWrite, Write};

/// The file of a name, which is there, as an image. It tells its bytes where the disk tells its files, and no history.
#[derive(Drop)]
pub struct DiskImage<'a, 'b, D: Disk> {
    pub disk: &'a mut D,
    pub name: &'b str,
    pub ghost there: { IsThere (D.view disk.now) name.now } by { Prim.hlevel props },
}

impl<'a, 'b, D: Disk> PieceRead for DiskImage<'a, 'b, D> {
    ghost view = { λ s. file_image s.disk.ghost_name s.name.now (D.view s.disk.now) };

    fn look(&mut self, at: u64, len: usize, out: &mut Piece) -> Result<(), Failed> {
        self.disk.look(self.name, at, len, out)
    }
}

impl<'a, 'b, D: Disk> PieceWrite for DiskImage<'a, 'b, D> {
    ghost use Rattle.std.specs.Prelude.{refl};

    ghost writes_alone = { λ s. refl };

    /// It never fails.
    fn reserve(&mut self, pieces: u64, end: u64) -> Result<(), ImageError> {
        self.disk.reserve(self.name, pieces, end)?;
        Ok(())
    }

    #[tactic(auto, using(h5w_image::proofs::DiskLemmas::kept))]
    fn write(&mut self, w: &Write) -> Result<(), Failed> {
        match self.disk.put(self.name, w) {
            Ok(()) => Ok(()),
            Err(failed) => Err(failed),
        }
    }
}
