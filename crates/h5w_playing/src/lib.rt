//! The lines of a script over the datasets of a file: a machine answers them, one after another, and the text of its replies is written.
#![tactic(auto)]

mod ending;
mod line;
mod machine;
mod one;
mod running;

pub use ending::Ending;
pub use h5w_input::{ScriptLine, TextError, TextLine};
pub use h5w_text::{OutOfMemory, Sink, Source, Status};
pub use line::{PlayLine, play_line};
pub use machine::{Machine, Refusal};
pub use one::{say_reply, say_using};
pub use running::{cannot_play, play};
