ghost use Rattle.std.specs.Prelude.{◌^◌, None, []};

use h5w_image::{Disk, Failed, MakeError, OutOfMemory, Piece, Write};

/// A disk that has one file under each name. It shows the file half written in the looks behind the first `begins` and up to `ends`, and
/// else with the number of the look as its byte at `place`.
#[derive(Drop)]
pub struct Restless {
    pub bytes: Vec<u8>,
    pub half: Vec<u8>,
    pub begins: u64,
    pub ends: u64,
    pub place: usize,
    pub looks: u64,
}

impl Restless {
    /// What the next look shows.
    fn shown(&mut self) -> &[u8] {
        if self.begins <= self.looks && self.looks < self.ends {
            return &self.half;
        }
        if let Some(byte) = self.bytes.get_mut(self.place) {
            *byte = (self.looks % 256) as u8;
        }
        &self.bytes
    }
}

impl Disk for Restless {
    ghost view = { λ s. record { told = None; faults = 0; through = []; pieces = 2 ^ 64; end = λ name. 2 ^ 64 } };

    fn faults(&self) -> u64 {
        0
    }

    fn size(&mut self, _name: &str) -> Result<Option<u64>, Failed> {
        Ok(Some(self.bytes.len() as u64))
    }

    fn make(&mut self, _name: &str) -> Result<bool, MakeError> {
        Ok(false)
    }

    fn look(&mut self, _name: &str, at: u64, len: usize, out: &mut Piece) -> Result<(), Failed> {
        self.looks = self.looks.saturating_add(1);
        let rest = self.shown().get(at as usize..).unwrap_or(&[]);
        out.set(&rest[..rest.len().min(len)]);
        Ok(())
    }

    fn put(&mut self, _name: &str, _w: &Write) -> Result<(), Failed> {
        Ok(())
    }

    fn reserve(&mut self, _name: &str, _pieces: u64, _end: u64) -> Result<(), OutOfMemory> {
        Ok(())
    }
}
