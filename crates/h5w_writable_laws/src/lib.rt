//! What a writer takes of a file's headers: no message asks it to be known, and the layout stands where its index address can be written.
//! Whatever keeps the headers for readers keeps this, whoever made the file. Each law is the clause of a function without parameters;
//! its statement is a definition in specs/. Nothing here runs.
#![tactic(auto)]

ghost use Rattle.h5w_writable_laws.specs.Writable.{CreatedWritable, SeveralWritable, WritableFound, WritableStays};

/// A file whose headers a writer takes is one behind each step that keeps what readers rest on: of chunk 0 of the dataset header such a step
/// leaves all bytes but the rows, an index address and the sum, and the continuation blocks as they are.
pub fn writable_stays()
    ensures { WritableStays }
{}

/// A writer takes the headers of a created file.
pub fn created_writable()
    ensures { CreatedWritable }
{}

/// And those of a created file of several datasets.
pub fn several_writable()
    ensures { SeveralWritable }
{}

/// Of a file whose headers a writer takes, of version 3 and without the flags of writers, all is found up to its index, and its dataset is not
/// refused.
pub fn writable_found()
    ensures { WritableFound }
{}
