//! A half-done read of rows, band by band and chunk by chunk, of a dataset of two dimensions.
ghost use Rattle.std.specs.Prelude.{◌≡◌, ◌≢◌, ◌+◌, ◌-◌, ◌*◌, ◌/◌, ◌^◌, ◌<◌, ◌≤◌, ◌++◌, get_or, length, take, drop, ℕ, List, Option, Some, None, IfOk, OnOk};
ghost use Rattle.h5w_model.specs.Numbers.{undefined};
ghost use Rattle.h5w_model.specs.Calls.{first_in_band, last_in_band, last_column, touched_from};
ghost use Rattle.h5w_model.specs.Tables.{chunks_across, needed};
ghost use Rattle.h5w_dataset.specs.Described.{described_of};
ghost use Rattle.h5w_reader.specs.Grids.{AreWhole, touched_len};

use crate::cells::{put_cells, put_fill};
use crate::values::{Reads, Valued};
use h5w_bytes::UNDEFINED;
use h5w_dataset::Dataset;
use h5w_lookup::{Gather, Known, Outcome, Progress, address_at};
use h5w_model::{BlockFault, Bytes, OutOfMemory, Piece, ReadError, Values};
use std::alloc::Global;

/// Rows of a dataset that has columns.
#[derive(Clone, Copy)]
pub struct Grid {
    pub dataset: Dataset,
    /// The first row.
    pub from: u64,
    /// The row behind the last.
    pub to: u64,
    ghost some: { from < to },
    ghost inside: { to ≤ dataset.shape.rows },
    ghost few: { needed (described_of dataset) ≤ 1000000 },
    ghost cols: { 0 < dataset.shape.cols },
}

/// A read that waits for the range of a chunk beside others.
#[derive(Drop)]
pub struct Beside {
    grid: Grid,
    /// The number of the band of rows that the chunk holds.
    band: u64,
    /// The values of the rows of the bands before.
    values: Vec<i128>,
    /// The ranges of the chunks before it in its band, none where a chunk is not there.
    ranges: Vec<Option<Bytes>>,
    pub gather: Gather,
    ghost low: { grid.from / grid.dataset.layout.chunk.0 ≤ band },
    ghost high: { band ≤ (grid.to - 1) / grid.dataset.layout.chunk.0 },
    ghost next: { length ranges.items < chunks_across (described_of grid.dataset) },
    ghost whole: { AreWhole (described_of grid.dataset) band grid.from grid.to ranges.items },
}

/// What going through a band comes to: the values of its rows and of those before.
pub type Banded = Progress<Vec<i128>, Reads>;

/// The `len` bytes from byte `start` on.
fn part(bytes: &[u8], start: usize, len: usize) -> &[u8]
    requires { start + len ≤ length bytes.now }
    ensures { result.now ≡ take len (drop start bytes.now) }
{
    &bytes[start..start + len]
}

impl Grid {
    ghost use Rattle.h5w_reader.specs.Values.{goes, valued, reading_with, reading_values, end_band, rows_in_band};
    ghost use Rattle.h5w_reader.specs.Grids.{grid_values, grid_rest, grid_given, bands_rest, row_values, rows_values};
    ghost use Rattle.h5w_reader.specs.Banding.{banded};

    /// The number of the band behind the last.
    fn end(&self) -> u64
        ensures { result ≡ (self.now.to - 1) / self.now.dataset.layout.chunk.0 + 1 }
    {
        (self.to - 1) / self.dataset.layout.chunk.0 + 1
    }

    /// How many rows of a band's chunks stand before the first that is asked for, and how many are asked for.
    fn touched(&self, band: u64) -> (u64, u64)
        requires low { self.now.from / self.now.dataset.layout.chunk.0 ≤ band }
        requires high { band ≤ (self.now.to - 1) / self.now.dataset.layout.chunk.0 }
        ensures before { result.0 ≡ first_in_band (described_of self.now.dataset) band self.now.from - band * self.now.dataset.layout.chunk.0 }
        ensures count { result.1 ≡ last_in_band (described_of self.now.dataset) band self.now.to - first_in_band (described_of self.now.dataset) band self.now.from }
        ensures some { 0 < result.1 }
        ensures inside { result.0 + result.1 ≤ self.now.dataset.layout.chunk.0 }
    {
        let rows = self.dataset.layout.chunk.0;
        let start = band * rows;
        let first = self.from.max(start);
        let last = if self.to - start < rows {
            self.to
        } else {
            start + rows
        };
        (first - start, last - first)
    }

    /// How many columns of a chunk hold cells.
    #[tactic(auto, using(crate::proofs::SideLemmas::column_begins))]
    fn width(&self, column: u64) -> u64
        requires { column < chunks_across (described_of self.now.dataset) }
        ensures exact { result ≡ last_column (described_of self.now.dataset) column - column * self.now.dataset.layout.chunk.1 }
        ensures some { 0 < result }
        ensures inside { result ≤ self.now.dataset.layout.chunk.1 }
    {
        let wide = self.dataset.layout.chunk.1;
        wide.min(self.dataset.shape.cols - column * wide)
    }

    /// Where the range that is asked for begins in a chunk, and its length, in bytes.
    fn range(&self, band: u64, column: u64) -> (u64, u64)
        requires low { self.now.from / self.now.dataset.layout.chunk.0 ≤ band }
        requires high { band ≤ (self.now.to - 1) / self.now.dataset.layout.chunk.0 }
        requires beside { column < chunks_across (described_of self.now.dataset) }
        ensures start { result.0 ≡ touched_from (described_of self.now.dataset) band column self.now.from }
        ensures len { result.1 ≡ touched_len (described_of self.now.dataset) band column self.now.from self.now.to }
        ensures some { 0 < result.1 }
        ensures small { result.0 + result.1 < 2 ^ 32 }
    {
        let (wide, size) = (
            self.dataset.layout.chunk.1,
            u64::from(self.dataset.int_type.size),
        );
        let (before, count) = self.touched(band);
        let cells = (count - 1) * wide + self.width(column);
        (before * wide * size, cells * size)
    }

    /// Puts the values of a chunk's columns in a row behind those of `out`: row `row` of those that its range holds.
    fn put_columns(
        &self,
        band: u64,
        row: u64,
        column: u64,
        range: &Option<Bytes>,
        out: &mut Vec<i128>,
    ) -> Result<(), OutOfMemory>
        requires low { self.now.from / self.now.dataset.layout.chunk.0 ≤ band }
        requires high { band ≤ (self.now.to - 1) / self.now.dataset.layout.chunk.0 }
        requires inside { row < last_in_band (described_of self.now.dataset) band self.now.to - first_in_band (described_of self.now.dataset) band self.now.from }
        requires beside { column < chunks_across (described_of self.now.dataset) }
        requires enough { (b : List ℕ) → range.now ≡ Some b → touched_len (described_of self.now.dataset) band column self.now.from self.now.to ≤ length b }
        ensures { (k : Known) (os : List (Option (List ℕ))) → get_or os column None ≡ range.now → OnOk result (out.new.items ≡ out.old.items ++ row_values (reading_with k self.now.dataset) self.now.from os (first_in_band (described_of self.now.dataset) band self.now.from + row) (column * self.now.dataset.layout.chunk.1) (last_column (described_of self.now.dataset) column - column * self.now.dataset.layout.chunk.1)) }
    {
        let width = self.width(column);
        let bytes = match range {
            Some(bytes) => bytes.as_slice(),
            None => {
                put_fill(&self.dataset.fill, &self.dataset.int_type, width, out)?;
                return Ok(());
            }
        };
        let (wide, size) = (
            self.dataset.layout.chunk.1,
            usize::from(self.dataset.int_type.size),
        );
        let start = (row * wide) as usize * size;
        let cells = part(bytes, start, width as usize * size);
        put_cells(cells, &self.dataset.int_type, out)?;
        Ok(())
    }

    /// Puts the values of a row of a band behind those of `out`: row `row` of those that the ranges hold.
    fn put_row(
        &self,
        band: u64,
        row: u64,
        ranges: &[Option<Bytes>],
        out: &mut Vec<i128>,
    ) -> Result<(), OutOfMemory>
        requires low { self.now.from / self.now.dataset.layout.chunk.0 ≤ band }
        requires high { band ≤ (self.now.to - 1) / self.now.dataset.layout.chunk.0 }
        requires inside { row < last_in_band (described_of self.now.dataset) band self.now.to - first_in_band (described_of self.now.dataset) band self.now.from }
        requires all { length ranges.now ≡ chunks_across (described_of self.now.dataset) }
        requires whole { AreWhole (described_of self.now.dataset) band self.now.from self.now.to ranges.now }
        ensures { (k : Known) → OnOk result (out.new.items ≡ out.old.items ++ row_values (reading_with k self.now.dataset) self.now.from ranges.now (first_in_band (described_of self.now.dataset) band self.now.from + row) 0 self.now.dataset.shape.cols) }
    {
        for column in 0..ranges.len() {
            self.put_columns(band, row, column as u64, &ranges[column], out)?;
        }
        Ok(())
    }

    /// Puts the values of a band's rows behind those of `out`.
    fn put_rows(
        &self,
        band: u64,
        ranges: &[Option<Bytes>],
        out: &mut Vec<i128>,
    ) -> Result<(), OutOfMemory>
        requires low { self.now.from / self.now.dataset.layout.chunk.0 ≤ band }
        requires high { band ≤ (self.now.to - 1) / self.now.dataset.layout.chunk.0 }
        requires all { length ranges.now ≡ chunks_across (described_of self.now.dataset) }
        requires whole { AreWhole (described_of self.now.dataset) band self.now.from self.now.to ranges.now }
        ensures { (k : Known) → OnOk result (out.new.items ≡ out.old.items ++ grid_values (reading_with k self.now.dataset) band self.now.from self.now.to ranges.now) }
    {
        let (_, count) = self.touched(band);
        for row in 0..count {
            self.put_row(band, row, ranges, out)?;
        }
        Ok(())
    }

    /// Waits for the range of the next chunk of a band, which stands at `address`. Where the range passes 2^64, the chunk is
    /// looked at.
    fn visit(
        self,
        alloc: Global,
        band: u64,
        values: Vec<i128>,
        ranges: Vec<Option<Bytes>>,
        address: u64,
    ) -> Reads
        requires low { self.from / self.dataset.layout.chunk.0 ≤ band }
        requires high { band ≤ (self.to - 1) / self.dataset.layout.chunk.0 }
        requires beside { length ranges.items < chunks_across (described_of self.dataset) }
        requires whole { AreWhole (described_of self.dataset) band self.from self.to ranges.items }
        requires there { address ≢ undefined }
        ensures { (k : Known) → get_or k.table.items (band * chunks_across (described_of self.dataset) + length ranges.items) undefined ≡ address → reading_values k result ≡ grid_rest (reading_with k self.dataset) self.from self.to band (length ranges.items) values.items ranges.items }
    {
        let (start, len) = self.range(band, ranges.len() as u64);
        if u64::MAX - address < start + len - 1 {
            return Reads::Past {
                at: address,
                need: len,
            };
        }
        let place = address + start;
        let gather = Gather::new(place, Vec::new(alloc), place, len);
        Reads::Beside(Beside {
            grid: self,
            band,
            values,
            ranges,
            gather,
        })
    }

    /// Goes through the chunks of a band up to the next that is looked at, or to the values of its rows.
    fn go_through(
        self,
        alloc: Global,
        known: &Known,
        band: u64,
        mut values: Vec<i128>,
        mut ranges: Vec<Option<Bytes>>,
    ) -> Result<Banded, OutOfMemory>
        requires low { self.from / self.dataset.layout.chunk.0 ≤ band }
        requires high { band ≤ (self.to - 1) / self.dataset.layout.chunk.0 }
        requires few { length ranges.items ≤ chunks_across (described_of self.dataset) }
        requires whole { AreWhole (described_of self.dataset) band self.from self.to ranges.items }
        ensures { IfOk result (λ b. banded known.now self band b ≡ grid_rest (reading_with known.now self.dataset) self.from self.to band (length ranges.items) values.items ranges.items) }
    {
        let across = self.dataset.across() as usize;
        let first = band as usize * across;
        for column in ranges.len()..across {
            let address = address_at(&known.table, first + column);
            if address != UNDEFINED {
                return Ok(Progress::Looks(self.visit(alloc, band, values, ranges, address)));
            }
            ranges.push(None)?;
        }
        self.put_rows(band, &ranges, &mut values)?;
        Ok(Progress::Done(values))
    }

    /// Goes on from a band up to the next chunk that is looked at, or to the end.
    pub fn go_on(
        self,
        alloc: Global,
        known: &Known,
        band: u64,
        mut values: Vec<i128>,
    ) -> Result<Progress<Values, Reads>, OutOfMemory>
        requires { self.from / self.dataset.layout.chunk.0 ≤ band }
        ensures { IfOk result (λ g. goes known.now g ≡ bands_rest (reading_with known.now self.dataset) self.from self.to band values.items) }
    {
        let end = self.end();
        for i in band..end {
            match self.go_through(alloc, known, i, values, Vec::new(alloc))? {
                Progress::Done(more) => values = more,
                Progress::Looks(reads) => return Ok(Progress::Looks(reads)),
            }
        }
        Ok(Progress::Done(Values::from_vec(values)))
    }

    /// Goes on with the range of a chunk of a band, which begins at `place` and of which these bytes were found.
    fn enter(
        self,
        alloc: Global,
        known: &Known,
        band: u64,
        values: Vec<i128>,
        mut ranges: Vec<Option<Bytes>>,
        place: u64,
        bytes: Vec<u8>,
    ) -> Result<Valued, OutOfMemory>
        requires low { self.from / self.dataset.layout.chunk.0 ≤ band }
        requires high { band ≤ (self.to - 1) / self.dataset.layout.chunk.0 }
        requires beside { length ranges.items < chunks_across (described_of self.dataset) }
        requires whole { AreWhole (described_of self.dataset) band self.from self.to ranges.items }
        ensures { IfOk result (λ v. valued known.now v ≡ grid_given (reading_with known.now self.dataset) self.from self.to band (length ranges.items) values.items ranges.items place bytes.items) }
    {
        let (_, len) = self.range(band, ranges.len() as u64);
        let got = bytes.len() as u64;
        if got < len {
            return Ok(Outcome::Refused(ReadError::Damaged {
                at: place,
                fault: BlockFault::Cut { need: len, got },
            }));
        }
        let range = Bytes::from_vec(bytes);
        ranges.push(Some(range))?;
        let through = self.go_through(alloc, known, band, values, ranges)?;
        let values = match through {
            Progress::Done(values) => values,
            Progress::Looks(reads) => return Ok(Outcome::Looks(reads)),
        };
        let goes = self.go_on(alloc, known, band + 1, values)?;
        Ok(Outcome::from(goes))
    }
}

impl Beside {
    ghost use Rattle.h5w_model.specs.Programs.{next_look, fed};
    ghost use Rattle.h5w_lookup.specs.Looks.{IsWithinLook};
    ghost use Rattle.h5w_reader.specs.Gridding.{grid_left};
    ghost use Rattle.h5w_reader.specs.Values.{valued};

    /// Goes on with the piece that the look gave.
    pub fn feed(self, alloc: Global, known: &Known, piece: &Piece) -> Result<Valued, OutOfMemory>
        requires { IsWithinLook (next_look (grid_left known.now self)) (length piece.now) }
        ensures { IfOk result (λ v. valued known.now v ≡ fed piece.now (grid_left known.now self)) }
    {
        let Beside {
            grid,
            band,
            values,
            ranges,
            gather,
        } = self;
        let place = gather.start();
        match gather.feed(piece)? {
            Progress::Looks(gather) => {
                Ok(Outcome::Looks(Reads::Beside(Beside {
                    grid,
                    band,
                    values,
                    ranges,
                    gather,
                })))
            }
            Progress::Done(bytes) => {
                grid.enter(alloc, known, band, values, ranges, place, bytes)
            }
        }
    }
}
