ghost use Rattle.std.specs.Prelude.{◌≡◌, ◌+◌, ◌-◌, ◌*◌, ◌^◌, ◌++◌, ◌<◌, ◌≤◌, ◌⊎◌, nat_lt, length, take, drop, flat_map, List, ℕ, Ok, IfOk};
ghost use Rattle.h5w_model.specs.Checked.{checked, viewed};
ghost use Rattle.h5w_layout.specs.Messages.{byte, chunk_tests, chunk_size, chunk_sizes, chunk_cols_at, index_bytes, index_of, index_tests, index_place, layout_at, layout_width, IsIntType, IsLayout, IsShape};
ghost use Rattle.h5w_layout.specs.Numbers.{le};
ghost use Rattle.h5w_layout.specs.Fields.{int_type_of, shape_of};

use h5w_bytes::{byte, number, put, put_bytes, put_each, width_of};
use h5w_model::{IndexKind, Unsupported};
use h5w_types::{IntType, Shape};

/// How a dataset is cut into chunks, and where their index is.
#[derive(Clone, Copy, Debug, PartialEq, Eq)]
pub struct Layout {
    /// The size of a chunk in rows and columns; in rank 1 it has 1 column.
    pub chunk: (u64, u64),
    pub index: IndexKind,
    /// The address of the index, undefined where it is not there yet.
    pub address: u64,
    /// The place of the address in the message's data. Writing does not look at it.
    pub at: usize,
}

/// The index type and parameters of an extensible array: max bits, index elements, min pointers,
/// min elements, page bits.
const ARRAY: [u8; 6] = [4, 0x20, 4, 4, 0x10, 0x0a];

/// The index type and parameters of a version 2 B-tree: node size 2,048, split and merge percent.
const TREE: [u8; 7] = [5, 0, 8, 0, 0, 100, 40];

impl Layout {
    ghost use Rattle.h5w_layout.specs.Layouts.{layout_of, spelling_of};

    /// The layout that the data of a layout message say beside the dataset's shape and type, or the least
    /// number of what is unsupported in them.
    #[tactic(auto, unfolding(h5w_model::specs::Messages::layout_at, h5w_model::specs::Messages::layout_fields))]
    pub fn decode(b: &[u8], s: &Shape, t: &IntType) -> Result<Layout, Unsupported>
        requires shaped { IsShape (shape_of s.now) }
        requires typed { IsIntType (int_type_of t.now) }
        ensures exact { viewed layout_of result ≡ layout_at b.now (shape_of s.now) (int_type_of t.now) }
        ensures sound { IfOk result (λ l. IsLayout (layout_of l) (shape_of s.now) (int_type_of t.now)) }
    {
        if b.len() < 5 {
            return Err(Unsupported(10));
        }
        let index_at = 5 + usize::from(byte(b, 3)) * usize::from(byte(b, 4));
        if b.len() <= index_at || byte(b, 0) != 4 || byte(b, 1) != 2 {
            return Err(Unsupported(10));
        }
        let chunk = chunk(b, s, t)?;
        let index = index_of(s);
        let at = address_at(b, index_at, index)?;
        Ok(Layout {
            chunk,
            index,
            address: number(b, at, 8),
            at,
        })
    }

    /// Writes the one spelling of the layout at the front of `out`, and answers its length in bytes.
    pub fn encode(&self, s: &Shape, t: &IntType, out: &mut [u8]) -> usize
        requires shaped { IsShape (shape_of s.now) }
        requires typed { IsIntType (int_type_of t.now) }
        requires sound { IsLayout (layout_of self.now) (shape_of s.now) (int_type_of t.now) }
        requires room { length (spelling_of self.now s.now t.now) ≤ length out.old }
        ensures len { result ≡ length (spelling_of self.now s.now t.now) }
        ensures written { out.new ≡ spelling_of self.now s.now t.now ++ drop result out.old }
        ensures reads_back { (rest : List ℕ) → layout_at (spelling_of self.now s.now t.now ++ rest) (shape_of s.now) (int_type_of t.now) ≡ Ok (record (layout_of self.now) { place = result - 8 }) }
    {
        let (rows, cols) = self.chunk;
        let size = u64::from(t.size);
        let width = greatest_width(rows, cols, size);
        put_bytes(out, 0, &[4, 2, 0, s.rank + 1, width as u8]);
        let place = put_sizes(out, width, s.rank, rows, cols, size);
        put_index(out, place, self.index, self.address)
    }
}

/// The width of the greatest of these sizes.
fn greatest_width(rows: u64, cols: u64, size: u64) -> usize
    requires { 1 ≤ size }
    ensures exact { result ≡ layout_width rows cols size }
    ensures fits { (rows < 256 ^ result) × (cols < 256 ^ result) × (size < 256 ^ result) }
    ensures low { 1 ≤ result }
    ensures high { result ≤ 8 }
{
    width_of(rows.max(cols.max(size)))
}

/// Writes the sizes of a chunk behind the first five bytes, and answers where they end.
fn put_sizes(out: &mut [u8], width: usize, rank: u8, rows: u64, cols: u64, size: u64) -> usize
    requires ranked { (rank ≡ 1) ⊎ (rank ≡ 2) }
    requires low { 1 ≤ width }
    requires high { width ≤ 8 }
    requires fits { (rows < 256 ^ width) × (cols < 256 ^ width) × (size < 256 ^ width) }
    requires room { 5 + (rank + 1) * width ≤ length out.old }
    ensures len { result ≡ 5 + (rank + 1) * width }
    ensures written { out.new ≡ (take 5 out.old ++ flat_map (le width) (chunk_sizes rank rows cols size)) ++ drop result out.old }
{
    if rank == 1 {
        put_each(out, 5, width, &[rows, size]);
        5 + 2 * width
    } else {
        put_each(out, 5, width, &[rows, cols, size]);
        5 + 3 * width
    }
}

/// Writes index type, parameters and address from `place` on, and answers where they end.
fn put_index(out: &mut [u8], place: usize, index: IndexKind, address: u64) -> usize
    requires { place + length (index_bytes index) + 8 ≤ length out.old }
    ensures len { result ≡ place + length (index_bytes index) + 8 }
    ensures written { out.new ≡ (take place out.old ++ (index_bytes index ++ le 8 address)) ++ drop result out.old }
    ensures word { address < 2 ^ 64 }
{
    let parameters = parameters(index);
    put_bytes(out, place, parameters);
    let at = place + parameters.len();
    put(out, at, 8, address);
    at + 8
}

/// The index that belongs to a shape.
fn index_of(s: &Shape) -> IndexKind
    ensures { result ≡ index_of (shape_of s.now) }
{
    if s.growing {
        IndexKind::Tree
    } else {
        IndexKind::Array
    }
}

/// Size `k` of a chunk, in the width that the message states.
fn size_at(b: &[u8], k: usize) -> u64
    requires stated { k < byte b.now 3 }
    requires low { 1 ≤ byte b.now 4 }
    requires high { byte b.now 4 ≤ 8 }
    requires room { index_place b.now < length b.now }
    ensures { result ≡ chunk_size b.now k }
{
    let width = usize::from(byte(b, 4));
    number(b, 5 + k * width, width)
}

/// The sizes of a chunk in rows and columns.
fn chunk(b: &[u8], s: &Shape, t: &IntType) -> Result<(u64, u64), Unsupported>
    requires shaped { IsShape (shape_of s.now) }
    requires room { index_place b.now < length b.now }
    ensures exact { result ≡ checked (chunk_tests b.now (shape_of s.now) (int_type_of t.now)) (chunk_size b.now 0, chunk_cols_at b.now (shape_of s.now)) }
{
    let rank = usize::from(s.rank);
    if usize::from(byte(b, 3)) != rank + 1 || byte(b, 4) < 1 || 8 < byte(b, 4) {
        return Err(Unsupported(11));
    }
    let rows = size_at(b, 0);
    let cols = if rank == 1 { 1 } else { size_at(b, 1) };
    if rows == 0 || cols == 0 {
        return Err(Unsupported(11));
    }
    let size = size_at(b, rank);
    if size != u64::from(t.size) || !is_small(rows, cols, size) {
        return Err(Unsupported(11));
    }
    Ok((rows, cols))
}

/// Whether a chunk of this size has fewer than 2^32 bytes.
fn is_small(rows: u64, cols: u64, size: u64) -> bool
    ensures { result ≡ nat_lt (rows * cols * size) (2 ^ 32) }
{
    rows.saturating_mul(cols).saturating_mul(size) < 1 << 32
}

/// The index type and parameters of an index.
fn parameters(index: IndexKind) -> &'static [u8]
    ensures { result.now ≡ index_bytes index }
{
    match index {
        IndexKind::Array => &ARRAY,
        IndexKind::Tree => &TREE,
    }
}

/// The place of the address behind the index type at `place`.
fn address_at(b: &[u8], place: usize, index: IndexKind) -> Result<usize, Unsupported>
    requires { place ≤ length b.now }
    ensures exact { result ≡ checked (index_tests b.now place index) (place + length (index_bytes index)) }
{
    let parameters = parameters(index);
    if !b[place..].starts_with(parameters) {
        return Err(Unsupported(12));
    }
    let at = place + parameters.len();
    if b.len() - at < 8 {
        return Err(Unsupported(12));
    }
    Ok(at)
}
