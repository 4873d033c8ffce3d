//! A generator and its numbers.
ghost use Rattle.std.specs.Prelude.{◌≡◌, pos, OnOk};
ghost use Rattle.h5w_make.specs.Generators.{generated, next_state, number_of, state_after};

use h5w_model::OutOfMemory;

/// A linear congruential generator, by its state.
#[derive(Clone, Copy, Debug, PartialEq, Eq)]
pub struct Generator {
    /// The state, at first the seed.
    pub state: u64,
}

impl Generator {
    /// A step, and its number, from 0 to 2^31 - 1.
    #[tactic(auto, unfolding(crate::specs::Generators::number_of))]
    pub fn next(&mut self) -> i128
        ensures state { self.new.state ≡ next_state self.old.state }
        ensures number { result ≡ pos (number_of self.new.state) }
    {
        self.state = stepped(self.state);
        i128::from(self.state >> 33)
    }

    /// The numbers of so many steps, in place of what the list has.
    pub fn fill(&mut self, count: u64, values: &mut Vec<i128>) -> Result<(), OutOfMemory>
        ensures values { OnOk result (values.new.items ≡ generated self.old.state count) }
        ensures state { OnOk result (self.new.state ≡ state_after self.old.state count) }
    {
        values.clear();
        values.reserve(count as usize)?;
        for _ in 0..count {
            values.push(self.next())?;
        }
        Ok(())
    }
}

/// The state behind one: 6364136223846793005 times it, and 1442695040888963407 more, modulo 2^64.
#[tactic(auto, unfolding(crate::specs::Generators::next_state))]
fn stepped(state: u64) -> u64
    ensures { result ≡ next_state state }
{
    let product = state as u128 * 6_364_136_223_846_793_005;
    ((product + 1_442_695_040_888_963_407) % (1 << 64)) as u64
}
