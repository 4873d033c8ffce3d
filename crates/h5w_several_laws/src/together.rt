//! All datasets of one file together.

ghost use Rattle.h5w_several_laws.specs.Together.{AllFound, FlushStaysValid};

/// Datasets of one image, none of which meets another, make it valid for all their names.
pub fn all_found()
    ensures { AllFound }
{}

/// So it is after each piece of a flush of one of them.
pub fn flush_stays_valid()
    ensures { FlushStaysValid }
{}
