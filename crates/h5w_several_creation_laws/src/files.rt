//! A created file of several datasets once all its pieces are shown.

ghost use Rattle.h5w_several_creation_laws.specs.SeveralLaws.{OneDataset, SeveralSizes, SeveralStands};

/// Its blocks have the lengths by which their places are reckoned, and each piece is one.
pub fn several_sizes()
    ensures { SeveralSizes }
{}

/// The image of its pieces is each dataset without rows and chunks, and no finding applies to all of them.
pub fn several_stand()
    ensures { SeveralStands }
{}

/// Of one name it is the created file of one dataset.
pub fn one_dataset()
    ensures { OneDataset }
{}
