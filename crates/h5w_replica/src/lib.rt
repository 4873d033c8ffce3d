//! A mirror of a shared image: the pieces of the first go in order through a ring to a second.
#![tactic(auto)]

mod batch;
mod feed;
mod feeding;
mod follow;
mod laws;
mod mirror;
mod pieces;
mod putting;
mod refusal;

pub use feed::Feed;
pub use feeding::Feeding;
pub use follow::Follow;
pub use laws::mirrored_call;
pub use mirror::Mirror;
pub use refusal::FollowError;
