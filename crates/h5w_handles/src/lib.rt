//! A handle that a caller owns who is not Rattle, with a reader or a writer of one dataset or of several behind one pointer; and the calls of a reader,
//! each with a code in place of its answer.
#![tactic(auto)]

mod code;
mod copying;
mod handle;
mod held;
mod owner;
mod parts;
mod reader;
mod reading;
mod several;
mod shape;
mod telling;
mod text;

pub use code::{H5wCode, H5wPlace, H5wTold};
pub use copying::Narrow;
pub use handle::Handle;
pub use held::Held;
pub use owner::Owner;
pub use reader::ReaderState;
pub use several::SeveralState;
pub use shape::H5wShape;
pub use telling::refusal_told;
pub use text::{put_line, put_text};
