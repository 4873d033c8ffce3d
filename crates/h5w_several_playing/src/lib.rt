//! Scripts over the datasets of one file, or over its one dataset: machines answer their lines.
#![tactic(auto)]

mod alone;
mod playing;
mod script;

pub use alone::{AloneScript, play_alone};
pub use playing::play_several;
pub use script::SeveralScript;
