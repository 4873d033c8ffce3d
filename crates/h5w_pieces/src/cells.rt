//! The cells of rows that wait.
ghost use Rattle.std.specs.Prelude.{◌≡◌, ◌≤◌, ◌++◌, [], length, take, drop, None, OnErr, OnOk};
ghost use Rattle.h5w_model.specs.Lawful.{first_outside};
ghost use Rattle.h5w_types.specs.Messages.{IsIntType};
ghost use Rattle.h5w_types.specs.Fields.{int_type_of};
ghost use Rattle.h5w_types.specs.Runs.{run_bytes};

use h5w_model::OutOfMemory;
use h5w_types::{IntType, put_cells};
use std::alloc::Global;
use std::marker::Model;

/// Cells that wait to be written: new ones come behind the others, and the first are let go once they are planned. A byte is moved
/// at most once for each byte that is let go, so that letting go costs in proportion to what is let go.
#[derive(Drop)]
pub struct Cells {
    bytes: Vec<u8>,
    /// How many bytes at the front were let go.
    gone: usize,
}

impl Model for Cells {
    ghost use Rattle.std.specs.Prelude.{◌≤◌, ℕ, List, drop, length};

    ghost Value = { List ℕ };

    ghost view = { λ c. drop c.gone c.bytes.items };

    ghost invariant = { λ c. c.gone ≤ length c.bytes.items };
}

impl Cells {
    /// No cells.
    pub fn new(alloc: Global) -> Cells
        ensures { result ≡ [] }
    {
        Cells {
            bytes: Vec::new(alloc),
            gone: 0,
        }
    }

    /// How many bytes wait.
    pub fn len(&self) -> usize
        ensures { result ≡ length self.now }
    {
        self.bytes.len() - self.gone
    }

    /// The bytes that wait.
    pub fn as_slice(&self) -> &[u8]
        ensures { result.now ≡ self.now }
    {
        &self.bytes[self.gone..]
    }

    /// Adds the cells of some values behind the others, or none of them where memory runs out.
    pub fn put(&mut self, values: &[i128], t: &IntType) -> Result<(), OutOfMemory>
        requires typed { IsIntType (int_type_of t.now) }
        requires fit { first_outside (int_type_of t.now) 0 values.now ≡ None }
        ensures added { OnOk result (self.new ≡ self.old ++ run_bytes (int_type_of t.now) values.now) }
        ensures kept { OnErr result (self.new ≡ self.old) }
    {
        put_cells(values, t, &mut self.bytes)
    }

    /// Keeps so many of the bytes that wait, the first.
    pub fn truncate(&mut self, len: usize)
        ensures { self.new ≡ take len self.old }
    {
        if len < self.len() {
            self.bytes.truncate(self.gone + len);
        }
    }

    /// Lets all cells go.
    pub fn clear(&mut self)
        ensures { self.new ≡ [] }
    {
        self.bytes.clear();
        self.gone = 0;
    }

    /// Lets so many of the bytes go, the first. The others move once they are no more than what was let go before them.
    pub fn let_go(&mut self, count: usize)
        requires { count ≤ length self.old }
        ensures { self.new ≡ drop count self.old }
    {
        self.gone += count;
        if self.bytes.len() - self.gone <= self.gone {
            self.move_up();
        }
    }

    /// Moves the bytes that wait into a list of their own, where there is memory for it.
    fn move_up(&mut self)
        ensures { self.new ≡ self.old }
    {
        let alloc = *self.bytes.allocator();
        if let Ok(rest) = Vec::from_slice(alloc, self.as_slice()) {
            self.bytes = rest;
            self.gone = 0;
        }
    }
}
