//! A created file once all its pieces are shown.

ghost use Rattle.h5w_creation_laws.specs.CreationLaws.{CreatedArray, CreatedKnown, CreatedPlaces, CreatedSizes, CreatedStands, FillGiven};

/// Its blocks have the lengths by which their places are reckoned, and each is one piece.
pub fn created_sizes()
    ensures { CreatedSizes }
{}

/// A fill by its value can be written, and is read as that value.
pub fn fill_given()
    ensures { FillGiven }
{}

/// The image of its pieces is the file without rows and chunks.
pub fn created_stands()
    ensures { CreatedStands }
{}

/// A session whose places begin at its end knows it.
pub fn created_known()
    ensures { CreatedKnown }
{}

/// An array's blocks stand in it as a store of an array keeps them.
pub fn created_array()
    ensures { CreatedArray }
{}

/// Those blocks are live in the session's places.
pub fn created_places()
    ensures { CreatedPlaces }
{}
