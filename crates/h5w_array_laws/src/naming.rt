//! A plan of an array's blocks as safe steps of a file.

ghost use Rattle.h5w_array_laws.specs.ArrayNaming.{CopiesSteps, FileTells, FreshApart, FreshUnseen, InPlaceSteps, MoreApart, TableStays};

/// Where the new blocks behind stand, a plan's pieces in place are safe, one after another, and lead to the file that says the new array.
pub fn in_place_steps()
    ensures { InPlaceSteps }
{}

/// Ranges behind that are among those of before and more, none more often, meet nothing where the others do not.
pub fn more_apart()
    ensures { MoreApart }
{}

/// A file of which an array stands, at the place that its dataset names, is one of that array: its ranges and its table are the array's.
pub fn file_tells()
    ensures { FileTells }
{}

/// Where the map gives each chunk that had an address the same, so does the table of needed chunks.
pub fn table_stays()
    ensures { TableStays }
{}

/// The copies of a plan change nothing for readers, where the ranges that they took are not reached.
pub fn copies_steps()
    ensures { CopiesSteps }
{}

/// What a plan's copies took meets no other range of a file whose ranges were live.
pub fn fresh_apart()
    ensures { FreshApart }
{}

/// No reader reaches it, where all that the file uses and all that may be held was live or retired.
pub fn fresh_unseen()
    ensures { FreshUnseen }
{}
