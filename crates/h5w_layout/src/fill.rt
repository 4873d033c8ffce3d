ghost use Rattle.std.specs.Prelude.{◌≡◌, ◌+◌, ◌++◌, ◌≤◌, length, drop, List, ℕ, true, Ok, Some, IfOk, IfSome};
ghost use Rattle.h5w_model.specs.Checked.{viewed};
ghost use Rattle.h5w_layout.specs.Messages.{fill_at, fill_bytes, fill_value_bytes, is_int_size, IntTypeFields, IsIntType};
ghost use Rattle.h5w_layout.specs.Integers.{cell_bytes, cell_of};
ghost use Rattle.h5w_layout.specs.Fields.{int_type_of};

use h5w_bytes::{byte, number, put_bytes};
use h5w_model::{Cell, Unsupported};
use h5w_types::IntType;

/// What cells are before they are written: a value, or 0 without one.
#[derive(Clone, Copy, Debug, PartialEq, Eq)]
pub struct Fill {
    /// Its bytes, as many as the type's size and in its order.
    pub value: Option<Cell>,
}

impl Fill {
    ghost use Rattle.h5w_layout.specs.Layouts.{fill_length, fill_of, fill_with};

    /// The fill that the data of a fill value message say, or that they are unsupported.
    #[tactic(auto, unfolding(h5w_model::specs::Messages::fill_at, h5w_model::specs::Messages::fill_tests, h5w_model::specs::Messages::fill_fields))]
    pub fn decode(b: &[u8], t: &IntType) -> Result<Fill, Unsupported>
        requires { IsIntType (int_type_of t.now) }
        ensures exact { viewed fill_of result ≡ fill_at b.now (int_type_of t.now) }
        ensures padded { IfOk result (λ f. f ≡ fill_with (fill_of f)) }
    {
        if b.len() < 2 || byte(b, 0) != 3 {
            return Err(Unsupported(9));
        }
        if byte(b, 1) & 0x20 == 0 {
            return Ok(Fill { value: None });
        }
        if b.len() < 6 {
            return Err(Unsupported(9));
        }
        let size = number(b, 2, 4);
        if size == 0 {
            return Ok(Fill { value: None });
        }
        let end = 6 + usize::from(t.size);
        if size != u64::from(t.size) || b.len() < end {
            return Err(Unsupported(9));
        }
        Ok(Fill {
            value: Some(cell(&b[6..end])),
        })
    }

    /// Writes the one spelling of the fill at the front of `out`, and answers its length in bytes.
    #[tactic(auto, using(h5w_model::proofs::MessageLemmas::fill_none_bytes))]
    pub fn encode(&self, out: &mut [u8]) -> usize
        requires sized { IfSome self.now.value (λ c. is_int_size c.size ≡ true) }
        requires room { fill_length self.now.value ≤ length out.old }
        ensures len { (result ≡ fill_length self.now.value) × (length (fill_bytes (fill_of self.now)) ≡ result) }
        ensures written { out.new ≡ fill_bytes (fill_of self.now) ++ drop result out.old }
        ensures reads_back { (t : IntTypeFields) (rest : List ℕ) → IfSome self.now.value (λ c. c.size ≡ t.size) → fill_at (fill_bytes (fill_of self.now) ++ rest) t ≡ Ok (fill_of self.now) }
    {
        match self.value {
            Some(cell) => put_value(cell, out),
            None => {
                put_bytes(out, 0, &[3, 0x0b]);
                2
            }
        }
    }
}

/// Writes a fill with a value.
#[tactic(auto, using(h5w_model::proofs::MessageLemmas::fill_value_length))]
fn put_value(cell: Cell, out: &mut [u8]) -> usize
    requires sized { is_int_size cell.size ≡ true }
    requires room { 6 + cell.size ≤ length out.old }
    ensures len { result ≡ 6 + cell.size }
    ensures size { length (cell_bytes cell) ≡ cell.size }
    ensures written { out.new ≡ fill_value_bytes (Some (cell_bytes cell)) ++ drop result out.old }
{
    let size = usize::from(cell.size);
    put_bytes(out, 0, &[3, 0x2b, cell.size, 0, 0, 0]);
    put_bytes(out, 6, &cell.bytes[..size]);
    6 + size
}

/// The cell of at most 8 bytes.
fn cell(bytes: &[u8]) -> Cell
    requires { length bytes.now ≤ 8 }
    ensures { result ≡ cell_of bytes.now }
{
    let mut padded = [0; 8];
    padded[..bytes.len()].copy_from_slice(bytes);
    Cell {
        bytes: padded,
        size: bytes.len() as u8,
    }
}
