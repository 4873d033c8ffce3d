//! What the plan of an array's blocks does, in the words of a writer.

ghost use Rattle.h5w_array_laws.specs.ArrayPlans.{PlansArray, PlansNumbers};

/// A plan leaves the map, writes the blocks in place whole, takes for the copies what nothing else has, and misses what was live or
/// retired; what the array uses then it used before, or its copies took.
pub fn plans_array()
    ensures { PlansArray }
{}

/// The six numbers of the header stay true through a plan.
pub fn plans_numbers()
    ensures { PlansNumbers }
{}
