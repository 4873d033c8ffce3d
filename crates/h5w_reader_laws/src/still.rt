//! What is answered over looks at one image, as where no writer is at work.

ghost use Rattle.h5w_reader_laws.specs.Partly.{PartlyReads};
ghost use Rattle.h5w_reader_laws.specs.Still.{StillCalls, StillReads, StillRefresh};

/// On a still image an open and a refresh answer what the image gives.
pub fn still_calls()
    ensures { StillCalls }
{}

/// A refresh of a reader that knows what the image shows answers this again.
pub fn still_refresh()
    ensures { StillRefresh }
{}

/// A read of rows in a still image gives the rows that it reads as.
pub fn still_reads()
    ensures { StillReads }
{}

/// A read in a still image that ends before some chunk does gives the cells if all that it touches is inside the image.
/// Else it tells the first range that is cut.
pub fn partly_reads()
    ensures { PartlyReads }
{}
