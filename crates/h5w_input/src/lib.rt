//! Text in: the lines of an input, the lines of a script, and lines of numbers.
#![tactic(auto)]

mod intake;
mod line;
mod lines;
mod number;
mod places;
mod script;
mod words;

pub use h5w_model::{Bytes, OutOfMemory, Values};
pub use h5w_text::{Failed, Source};
pub use intake::Intake;
pub use line::{LineError, Next, TextLine};
pub use lines::Lines;
pub use number::count;
pub use script::{LINE_LIMIT, ScriptLine, TextError, number_line, script_line};
