//! What a program finds on an image is what a plain relation says of it.

ghost use Rattle.h5w_laws.specs.Relations.{FindsArraySlots, FindsDataset, FindsMessages};
ghost use Rattle.h5w_laws.specs.Places.{OneIndexPlace, OneHeaderPlace};

/// The address of a chunk is found exactly where the blocks of the extensible array say it.
pub fn array_slots()
    ensures { FindsArraySlots }
{}

/// The messages of the root header are found exactly where a sealed header stands, with theirs and those of at most 32
/// continuation blocks in the place of the messages that name them.
pub fn header_messages()
    ensures { FindsMessages }
{}

/// A dataset is found exactly where the superblock, the root header, its link and the dataset's own header say it, and is
/// described as its messages say.
pub fn dataset_headers()
    ensures { FindsDataset }
{}

/// The place of the index address in a layout message is the same for who reads it and who writes it.
pub fn index_places()
    ensures { OneIndexPlace }
{}

/// In chunk 0 of a dataset's header the size of dimension 0 and the index address are written where they are read.
pub fn header_places()
    ensures { OneHeaderPlace }
{}
