//! What a session that creates its file begins with.
ghost use Rattle.h5w_several_creating.specs.Laws.{CreatesEach, CreatesEmpty, CreatesOne, CreatesStanding};

/// With the pieces of the creation pending the session stands for the log of the new file, to which nothing happened
/// yet.
pub fn creates_standing()
    ensures { CreatesStanding }
{}

/// So it is after each of them.
pub fn creates_each()
    ensures { CreatesEach }
{}

/// Once these pieces are shown the file is valid for all names, and each dataset is without rows, of the type and shape
/// by which it was created.
pub fn creates_empty()
    ensures { CreatesEmpty }
{}

/// Of one dataset the log is that of a session of one dataset that creates its file.
pub fn creates_one()
    ensures { CreatesOne }
{}
