ghost use Rattle.std.specs.Prelude.{◌≡◌, ◌+◌, ◌*◌, ◌++◌, ◌≤◌, ◌⊎◌, length, take, drop, flat_map, List, ℕ, Ok, IfOk};
ghost use Rattle.h5w_model.specs.Checked.{viewed};
ghost use Rattle.h5w_types.specs.Messages.{shape_at, shape_bytes, shape_numbers, IsShape};
ghost use Rattle.h5w_types.specs.Numbers.{le};

use h5w_bytes::{UNDEFINED, byte, number, put_each};
use h5w_model::Unsupported;

/// The maximum of a dimension that has none.
const UNLIMITED: u64 = UNDEFINED;

/// The sizes of a dataset of one or two dimensions, in cells.
#[derive(Clone, Copy, Debug, PartialEq, Eq)]
pub struct Shape {
    /// How many dimensions, 1 or 2.
    pub rank: u8,
    /// The size of dimension 0, which has no maximum.
    pub rows: u64,
    /// The size of dimension 1, and 1 in rank 1.
    pub cols: u64,
    /// Dimension 1 has no maximum. Without it its size is its maximum.
    pub growing: bool,
}

impl Shape {
    ghost use Rattle.h5w_types.specs.Fields.{shape_of};

    /// The shape that the data of a dataspace message say, or the least number of what is unsupported in them.
    #[tactic(auto, unfolding(h5w_model::specs::Messages::shape_at, h5w_model::specs::Messages::shape_tests, h5w_model::specs::Messages::shape_fields))]
    pub fn decode(b: &[u8]) -> Result<Shape, Unsupported>
        ensures exact { viewed shape_of result ≡ shape_at b.now }
        ensures shaped { IfOk result (λ s. IsShape (shape_of s)) }
    {
        if b.len() < 4 || byte(b, 0) != 2 {
            return Err(Unsupported(5));
        }
        let rank = byte(b, 1);
        if (rank != 1 && rank != 2) || byte(b, 2) & 1 == 0 || byte(b, 3) != 1 {
            return Err(Unsupported(5));
        }
        let maximums = 4 + 8 * usize::from(rank);
        if b.len() < maximums + 8 * usize::from(rank) {
            return Err(Unsupported(5));
        }
        let (cols, maximum) = if rank == 1 {
            (1, 1)
        } else {
            (number(b, 12, 8), number(b, 28, 8))
        };
        if number(b, maximums, 8) != UNLIMITED || (maximum != UNLIMITED && maximum != cols) {
            return Err(Unsupported(6));
        }
        Ok(Shape {
            rank,
            rows: number(b, 4, 8),
            cols,
            growing: maximum == UNLIMITED,
        })
    }

    /// Writes the one spelling of the shape at the front of `out`, and answers its length in bytes.
    pub fn encode(&self, out: &mut [u8]) -> usize
        requires shaped { IsShape (shape_of self.now) }
        requires room { 4 + 16 * self.now.rank ≤ length out.old }
        ensures len { (result ≡ 4 + 16 * self.now.rank) × (length (shape_bytes (shape_of self.now)) ≡ result) }
        ensures written { out.new ≡ shape_bytes (shape_of self.now) ++ drop result out.old }
        ensures reads_back { (rest : List ℕ) → shape_at (shape_bytes (shape_of self.now) ++ rest) ≡ Ok (shape_of self.now) }
    {
        out[..4].copy_from_slice(&[2, self.rank, 1, 1]);
        put_numbers(out, self.rank, self.rows, self.cols, self.growing)
    }
}

/// Writes sizes and maximums behind the first four bytes, and answers where they end.
fn put_numbers(out: &mut [u8], rank: u8, rows: u64, cols: u64, growing: bool) -> usize
    requires ranked { (rank ≡ 1) ⊎ (rank ≡ 2) }
    requires room { 4 + 16 * rank ≤ length out.old }
    ensures len { result ≡ 4 + 16 * rank }
    ensures written { out.new ≡ (take 4 out.old ++ flat_map (le 8) (shape_numbers rank rows cols growing)) ++ drop result out.old }
{
    if rank == 1 {
        put_each(out, 4, 8, &[rows, UNLIMITED]);
        20
    } else {
        let maximum = if growing { UNLIMITED } else { cols };
        put_each(out, 4, 8, &[rows, cols, UNLIMITED, maximum]);
        36
    }
}
