//! What C calls of a reader and of a writer, of one dataset or of several. Each call is safe for every handle that is all zero or as a call left it, and for all other arguments
//! that C may pass. A call on a handle that holds no such thing answers Misuse, or none, and leaves the handle as it is. The codes are those of
//! [`h5w_handles::H5wCode`].
#![tactic(auto)]

mod reader;
mod several;
mod writer;
