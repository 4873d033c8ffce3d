ghost use Rattle.std.specs.Prelude.{◌≡◌, IfOk, OnOk};
ghost use Rattle.h5w_batches.specs.Batches.{end_batch, no_batches, with_line};

use h5w_model::{OutOfMemory, Values};
use std::alloc::Global;
use std::marker::Model;
use std::mem;

/// The batches that were closed, and the values that wait for the end of theirs.
#[derive(Drop)]
pub struct Gathering {
    alloc: Global,
    closed: Vec<Values>,
    waiting: Vec<i128>,
}

impl Model for Gathering {
    ghost use Rattle.h5w_batches.specs.Batches.{Batches};

    ghost Value = { Batches };

    ghost view = { λ g. record { closed = g.closed.items; waiting = g.waiting.items } };
}

impl Gathering {
    /// No batch.
    pub fn new(alloc: Global) -> Gathering
        ensures { result ≡ no_batches }
    {
        Gathering {
            alloc,
            closed: Vec::new(alloc),
            waiting: Vec::new(alloc),
        }
    }

    /// Closes the batch of the values that wait; where none wait it is an empty one.
    fn close(&mut self) -> Result<(), OutOfMemory>
        ensures { OnOk result (self.new ≡ end_batch self.old) }
    {
        let waiting = mem::replace(&mut self.waiting, Vec::new(self.alloc));
        self.closed.push(Values::from_vec(waiting))?;
        Ok(())
    }

    /// Takes the values of one more line; an empty one has none, and closes a batch.
    pub fn take_line(&mut self, values: &[i128]) -> Result<(), OutOfMemory>
        ensures { OnOk result (self.new ≡ with_line self.old values.now) }
    {
        if values.is_empty() {
            return self.close();
        }
        self.waiting.extend_from_slice(values)?;
        Ok(())
    }

    /// The batches of an input that ends here.
    pub fn finish(mut self) -> Result<Vec<Values>, OutOfMemory>
        ensures { IfOk result (λ batches. batches.items ≡ (end_batch self).closed) }
    {
        self.close()?;
        Ok(self.closed)
    }
}
