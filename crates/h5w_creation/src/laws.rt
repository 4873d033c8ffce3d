//! A law of new files. Nothing here runs.
ghost use Rattle.h5w_creation.specs.Made.{CreatedRests};

/// Once all its pieces are shown, a session knows a new file by its new index, which rests.
pub fn created_rests()
    ensures { CreatedRests }
{}
