//! The header piece of a flush as a safe step.

ghost use Rattle.h5w_step_laws.specs.HeaderSteps.{GrowingStep, StartingStep};

/// The rows rise, over cells that are there.
pub fn growing_step()
    ensures { GrowingStep }
{}

/// The rows rise, and the header names its index for the first time.
pub fn starting_step()
    ensures { StartingStep }
{}
