//! A half-done read of rows, chunk by chunk; of a dataset of two dimensions it stands in [`crate::grid`].
ghost use Rattle.std.specs.Prelude.{◌≡◌, ◌≢◌, ◌+◌, ◌-◌, ◌*◌, ◌/◌, ◌^◌, ◌<◌, ◌≤◌, get_or, length, ℕ, Ok, Some, true, false, IfOk};
ghost use Rattle.h5w_model.specs.Numbers.{undefined};
ghost use Rattle.h5w_model.specs.Calls.{first_in_band, last_in_band};
ghost use Rattle.h5w_dataset.specs.Described.{described_of};

use crate::cells::{put_cells, put_fill};
use crate::grid::{Beside, Grid};
use h5w_bytes::UNDEFINED;
use h5w_dataset::Dataset;
use h5w_lookup::{Gather, Known, Look, Outcome, Progress, address_at, look_at};
use h5w_model::{BlockFault, OutOfMemory, Piece, ReadError, Values};
use std::alloc::Global;

/// A read takes memory for so many values at once at most: a mebibyte, whatever the header says.
const AHEAD: u64 = 65_536;

/// Rows of a dataset of one dimension.
#[derive(Clone, Copy)]
pub struct Span {
    dataset: Dataset,
    /// The first row.
    from: u64,
    /// The row behind the last.
    to: u64,
    ghost line: { dataset.shape.rank ≡ 1 },
    ghost some: { from < to },
}

/// A read that waits for the range of a chunk.
#[derive(Drop)]
pub struct Ranged {
    span: Span,
    /// The number of the band of rows that the chunk holds.
    band: u64,
    /// The values of the rows of the bands before.
    values: Vec<i128>,
    pub gather: Gather,
    ghost low: { span.from / span.dataset.layout.chunk.0 ≤ band },
    ghost high: { band ≤ (span.to - 1) / span.dataset.layout.chunk.0 },
}

/// What a read waits for.
#[derive(Drop)]
pub enum Reads {
    /// The range of a chunk.
    Range(Ranged),
    /// The range of a chunk beside others.
    Beside(Beside),
    /// A look at the chunk at `at`, whose range of `need` bytes passes 2^64.
    Past { at: u64, need: u64 },
}

/// What a look makes of a read: the values of its rows, one after another.
pub type Valued = Outcome<Values, Reads>;

impl Span {
    ghost use Rattle.h5w_reader.specs.Values.{goes, valued, rows_rest, band_rest, reading_with};

    /// The number of the band behind the last.
    fn end(&self) -> u64
        ensures { result ≡ (self.now.to - 1) / self.now.dataset.layout.chunk.0 + 1 }
    {
        (self.to - 1) / self.dataset.layout.chunk.0 + 1
    }

    /// How many cells of a band's chunk stand before the first that is asked for, and how many are asked for.
    fn touched(&self, band: u64) -> (u64, u64)
        requires low { self.now.from / self.now.dataset.layout.chunk.0 ≤ band }
        requires high { band ≤ (self.now.to - 1) / self.now.dataset.layout.chunk.0 }
        ensures before { result.0 ≡ first_in_band (described_of self.now.dataset) band self.now.from - band * self.now.dataset.layout.chunk.0 }
        ensures count { result.1 ≡ last_in_band (described_of self.now.dataset) band self.now.to - first_in_band (described_of self.now.dataset) band self.now.from }
        ensures some { 0 < result.1 }
        ensures inside { result.0 + result.1 ≤ self.now.dataset.layout.chunk.0 }
    {
        let rows = self.dataset.layout.chunk.0;
        let start = band * rows;
        let first = self.from.max(start);
        let last = if self.to - start < rows {
            self.to
        } else {
            start + rows
        };
        (first - start, last - first)
    }

    /// Where the range that is asked for begins in a band's chunk, and its length, in bytes.
    fn range(&self, band: u64) -> (u64, u64)
        requires low { self.now.from / self.now.dataset.layout.chunk.0 ≤ band }
        requires high { band ≤ (self.now.to - 1) / self.now.dataset.layout.chunk.0 }
        ensures start { result.0 ≡ (first_in_band (described_of self.now.dataset) band self.now.from - band * self.now.dataset.layout.chunk.0) * self.now.dataset.int_type.size }
        ensures len { result.1 ≡ (last_in_band (described_of self.now.dataset) band self.now.to - first_in_band (described_of self.now.dataset) band self.now.from) * self.now.dataset.int_type.size }
        ensures some { 0 < result.1 }
        ensures small { result.0 + result.1 < 2 ^ 32 }
    {
        let size = u64::from(self.dataset.int_type.size);
        let (before, count) = self.touched(band);
        (before * size, count * size)
    }

    /// Goes on from a band up to the next chunk that is looked at, or to the end.
    fn go_on(
        self,
        alloc: Global,
        known: &Known,
        mut band: u64,
        mut values: Vec<i128>,
    ) -> Result<Progress<Values, Reads>, OutOfMemory>
        requires { self.from / self.dataset.layout.chunk.0 ≤ band }
        ensures { IfOk result (λ g. goes known.now g ≡ rows_rest (reading_with known.now self.dataset) self.from self.to band values.items) }
    {
        let end = self.end();
        while band < end {
            let address = address_at(&known.table, band as usize);
            if address != UNDEFINED {
                return Ok(self.visit(alloc, band, values, address));
            }
            let (_, count) = self.touched(band);
            put_fill(
                &self.dataset.fill,
                &self.dataset.int_type,
                count,
                &mut values,
            )?;
            band += 1;
        }
        Ok(Progress::Done(Values::from_vec(values)))
    }

    /// Goes on at the chunk of a band, which stands at `address`. Where the range passes 2^64, the chunk is looked at.
    fn visit(
        self,
        alloc: Global,
        band: u64,
        values: Vec<i128>,
        address: u64,
    ) -> Progress<Values, Reads>
        requires low { self.from / self.dataset.layout.chunk.0 ≤ band }
        requires high { band ≤ (self.to - 1) / self.dataset.layout.chunk.0 }
        requires there { address ≢ undefined }
        ensures { (k : Known) → get_or k.table.items band undefined ≡ address → goes k result ≡ rows_rest (reading_with k self.dataset) self.from self.to band values.items }
    {
        let (start, len) = self.range(band);
        if u64::MAX - address < start + len - 1 {
            return Progress::Looks(Reads::Past {
                at: address,
                need: len,
            });
        }
        let place = address + start;
        let gather = Gather::new(place, Vec::new(alloc), place, len);
        Progress::Looks(Reads::Range(Ranged {
            span: self,
            band,
            values,
            gather,
        }))
    }

    /// Goes on with the range of a band's chunk, which begins at `place` and of which these bytes were found.
    fn enter(
        self,
        alloc: Global,
        known: &Known,
        band: u64,
        mut values: Vec<i128>,
        place: u64,
        bytes: &[u8],
    ) -> Result<Valued, OutOfMemory>
        requires low { self.from / self.dataset.layout.chunk.0 ≤ band }
        requires high { band ≤ (self.to - 1) / self.dataset.layout.chunk.0 }
        ensures { IfOk result (λ v. valued known.now v ≡ band_rest (reading_with known.now self.dataset) self.from self.to band values.items place bytes.now) }
    {
        let (_, len) = self.range(band);
        let got = bytes.len() as u64;
        if got < len {
            return Ok(Outcome::Refused(ReadError::Damaged {
                at: place,
                fault: BlockFault::Cut { need: len, got },
            }));
        }
        put_cells(&bytes[..len as usize], &self.dataset.int_type, &mut values)?;
        let goes = self.go_on(alloc, known, band + 1, values)?;
        Ok(Outcome::from(goes))
    }
}

impl Ranged {
    ghost use Rattle.h5w_model.specs.Programs.{next_look, fed};
    ghost use Rattle.h5w_lookup.specs.Looks.{IsWithinLook};
    ghost use Rattle.h5w_reader.specs.Values.{range_values, valued};

    /// Goes on with the piece that the look gave.
    fn feed(self, alloc: Global, known: &Known, piece: &Piece) -> Result<Valued, OutOfMemory>
        requires { IsWithinLook (next_look (range_values known.now self)) (length piece.now) }
        ensures { IfOk result (λ v. valued known.now v ≡ fed piece.now (range_values known.now self)) }
    {
        let Ranged {
            span,
            band,
            values,
            gather,
        } = self;
        let place = gather.start();
        match gather.feed(piece)? {
            Progress::Looks(gather) => Ok(Outcome::Looks(Reads::Range(Ranged {
                span,
                band,
                values,
                gather,
            }))),
            Progress::Done(bytes) => span.enter(alloc, known, band, values, place, &bytes),
        }
    }
}

impl Reads {
    ghost use Rattle.h5w_model.specs.Programs.{next_look, fed};
    ghost use Rattle.h5w_lookup.specs.Looks.{look_of, IsWithinLook};
    ghost use Rattle.h5w_model.specs.Calls.{values_call};
    ghost use Rattle.h5w_lookup.specs.Attempts.{reading_of};
    ghost use Rattle.h5w_reader.specs.Values.{goes, reading_values, valued};

    /// Begins a read of `count` rows from row `from` on. Chunks that are not there are not looked at.
    pub fn begin(
        alloc: Global,
        known: &Known,
        from: u64,
        count: u64,
    ) -> Result<Progress<Values, Reads>, OutOfMemory>
        requires some { 1 ≤ count }
        requires inside { from + count ≤ known.now.dataset.shape.rows }
        ensures { IfOk result (λ g. goes known.now g ≡ values_call (reading_of known.now) from count) }
    {
        // from + count is at most these
        let _rows = known.dataset.shape.rows;
        let dataset = known.dataset;
        let (to, band) = (from + count, from / dataset.layout.chunk.0);
        let mut values = Vec::new(alloc);
        values.reserve(count.saturating_mul(dataset.shape.cols).min(AHEAD) as usize)?;
        if dataset.shape.rank == 1 {
            return Span { dataset, from, to }.go_on(alloc, known, band, values);
        }
        if dataset.shape.cols == 0 {
            return Ok(Progress::Done(Values::from_vec(values)));
        }
        Grid { dataset, from, to }.go_on(alloc, known, band, values)
    }

    /// The next look.
    pub fn want(&self) -> Look
        ensures next { (k : Known) → next_look (reading_values k self.now) ≡ Some (look_of result) }
        ensures low { 1 ≤ result.len }
        ensures high { result.len ≤ 512 }
        ensures inside { result.at + result.len ≤ 2 ^ 64 }
    {
        match self {
            Reads::Range(ranged) => ranged.gather.want(),
            Reads::Beside(beside) => beside.gather.want(),
            Reads::Past { at, .. } => look_at(*at),
        }
    }

    /// Takes up a full piece where the range that is looked at goes on behind it; false where the piece may be its last.
    pub fn absorb(&mut self, piece: &Piece) -> Result<bool, OutOfMemory>
        ensures more { result ≡ Ok true → (k : Known) → reading_values k self.new ≡ fed piece.now (reading_values k self.old) }
        ensures same { result ≡ Ok false → (k : Known) → reading_values k self.new ≡ reading_values k self.old }
    {
        match self {
            Reads::Range(ranged) => ranged.gather.absorb(piece),
            Reads::Beside(beside) => beside.gather.absorb(piece),
            _ => Ok(false),
        }
    }

    /// Goes on with the piece that the look gave.
    pub fn feed(self, alloc: Global, known: &Known, piece: &Piece) -> Result<Valued, OutOfMemory>
        requires { IsWithinLook (next_look (reading_values known.now self)) (length piece.now) }
        ensures { IfOk result (λ v. valued known.now v ≡ fed piece.now (reading_values known.now self)) }
    {
        match self {
            Reads::Range(ranged) => ranged.feed(alloc, known, piece),
            Reads::Beside(beside) => beside.feed(alloc, known, piece),
            Reads::Past { at, need } => Ok(Outcome::Refused(ReadError::Damaged {
                at,
                fault: BlockFault::Cut { need, got: 0 },
            })),
        }
    }
}
