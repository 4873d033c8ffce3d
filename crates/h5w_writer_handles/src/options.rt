//! How a file is created, as C says it.
ghost use Rattle.std.specs.Prelude.{◌≡◌, ◌*◌, ◌^◌, ◌≤◌, ◌↔◌, IfOk, IfSome, IsSome, IsTrue, length};
ghost use Rattle.h5w_model.specs.Messages.{IsIntType};
ghost use Rattle.h5w_types.specs.Fields.{int_type_of};
ghost use Rattle.h5w_options.specs.Options.{AreColumns, AreOptions, HasValue, columns_in, width_in};
ghost use Rattle.h5w_writer_handles.specs.CreatedBy.{columns_by, fill_by, is_set, options_of, type_by};

use h5w_model::{Bytes, OutOfMemory};
use h5w_options::{IntType, Options};
use h5w_types::bytes_of;
use std::alloc::Global;

/// The most bytes of the name of a dataset that is created.
const MOST_NAME: usize = 64;

/// The most rows of a chunk, and columns of a row and of a chunk.
const SIDE: u64 = 65_536;

/// The most bytes of a chunk.
const CHUNK: u64 = 16_777_216;

/// The fewest bytes that a file may have, or that may wait; and the most.
const LEAST: u64 = 1_024;

const MOST_BYTES: u64 = 1 << 40;

const MOST_WAITING: u64 = 1 << 30;

/// How a file with a dataset is created, as C has it. A flag is set if it is not 0.
#[repr(C)]
#[derive(Clone, Copy)]
pub struct H5wOptions {
    /// How many rows a chunk has, 1 to 65,536.
    pub chunk_rows: u64,
    /// How many columns a row has, 1 to 65,536; 0 for one dimension.
    pub columns: u64,
    /// How many columns a chunk has, 1 to 65,536; it does not count in one dimension.
    pub width: u64,
    /// The most bytes of the file, 1,024 to 2^40.
    pub limit: u64,
    /// The most bytes of chunks and headers that may wait unwritten after an append, 1,024 to 2^30.
    pub budget: u64,
    /// The fill, a value of the type, where there is one.
    pub fill: i64,
    /// The bytes of an integer: 1, 2, 4 or 8.
    pub size: u8,
    /// Its most significant byte is the first.
    pub big: u8,
    pub is_signed: u8,
    /// There is a fill.
    pub filled: u8,
    /// The columns stay as they are. Only where there are some, and a chunk is no wider.
    pub fixed: u8,
}

/// Whether so many rows, or columns, are within their bounds.
fn is_side(n: u64) -> bool
    ensures { IsTrue result ↔ (1 ≤ n) × (n ≤ 65536) }
{
    1 <= n && n <= SIDE
}

/// Whether so many bytes of a file are within their bounds.
pub fn is_limit(limit: u64) -> bool
    ensures { IsTrue result ↔ (1024 ≤ limit) × (limit ≤ 2 ^ 40) }
{
    LEAST <= limit && limit <= MOST_BYTES
}

/// Whether so many bytes that wait are within their bounds.
pub fn is_budget(budget: u64) -> bool
    ensures { IsTrue result ↔ (1024 ≤ budget) × (budget ≤ 2 ^ 30) }
{
    LEAST <= budget && budget <= MOST_WAITING
}

impl H5wOptions {
    /// The type of the dataset's integers.
    fn int_type(&self) -> IntType
        ensures { result ≡ type_by self.now }
    {
        IntType {
            size: self.size,
            big: self.big != 0,
            signed: self.is_signed != 0,
        }
    }

    /// The columns of a row and of a chunk, in two dimensions.
    fn sides(&self) -> Option<(u64, u64)>
        ensures { result ≡ columns_by self.now }
    {
        if self.columns == 0 {
            return None;
        }
        Some((self.columns, self.width))
    }

    /// The fill.
    fn fill(&self) -> Option<i128>
        ensures { result ≡ fill_by self.now }
    {
        if self.filled == 0 {
            return None;
        }
        Some(i128::from(self.fill))
    }

    /// Whether the fill, where there is one, is a value of the type.
    fn is_filled(&self) -> bool
        requires { IsIntType (int_type_of (type_by self.now)) }
        ensures { IsTrue result ↔ IfSome (fill_by self.now) (HasValue (int_type_of (type_by self.now))) }
    {
        match self.fill() {
            Some(value) => bytes_of(value, &self.int_type()).is_some(),
            None => true,
        }
    }

    /// Whether a chunk, of columns within their bounds, has few enough bytes.
    fn is_small(&self) -> bool
        requires rows { self.now.chunk_rows ≤ 65536 }
        requires columns { IfSome (columns_by self.now) AreColumns }
        ensures { IsTrue result ↔ self.now.chunk_rows * width_in (columns_by self.now) * self.now.size ≤ 16777216 }
    {
        let width = match self.sides() {
            Some((_, width)) => width,
            None => 1,
        };
        self.chunk_rows * width * u64::from(self.size) <= CHUNK
    }

    /// By what a file is created with a dataset of this name.
    pub fn options(&self, alloc: Global, name: &[u8]) -> Result<Options, OutOfMemory>
        ensures { IfOk result (λ options. options ≡ options_of name.now self.now) }
    {
        Ok(Options {
            name: Bytes::from_vec(Vec::from_slice(alloc, name)?),
            int_type: self.int_type(),
            chunk_rows: self.chunk_rows,
            columns: self.sides(),
            fixed: self.fixed != 0,
            fill: self.fill(),
            limit: self.limit,
            budget: self.budget,
        })
    }

    /// Whether the columns of a row and of a chunk are within their bounds.
    fn are_sides(&self) -> bool
        ensures { IsTrue result ↔ IfSome (columns_by self.now) AreColumns }
    {
        match self.sides() {
            Some((columns, width)) => is_side(columns) && is_side(width),
            None => true,
        }
    }

    /// Whether columns that are fixed are there, and no fewer than those of a chunk.
    fn is_fixable(&self) -> bool
        ensures { IsTrue result ↔ (IsTrue (is_set self.now.fixed) → IsSome (columns_by self.now) × (width_in (columns_by self.now) ≤ columns_in (columns_by self.now))) }
    {
        if self.fixed == 0 {
            return true;
        }
        match self.sides() {
            Some((columns, width)) => width <= columns,
            None => false,
        }
    }

    /// Whether a file can be created so with a dataset of this name.
    pub fn are_within(&self, name: &[u8]) -> bool
        ensures yes { IsTrue result → AreOptions (options_of name.now self.now) }
        ensures no { AreOptions (options_of name.now self.now) → IsTrue result }
    {
        if name.len() < 1 || MOST_NAME < name.len() || !matches!(self.size, 1 | 2 | 4 | 8) {
            return false;
        }
        if !is_side(self.chunk_rows) || !self.are_sides() || !self.is_fixable() {
            return false;
        }
        self.is_small() && self.is_filled() && is_limit(self.limit) && is_budget(self.budget)
    }
}
