use h5w_model::OutOfMemory;
use thiserror::Error;

/// Why an address is not taken.
#[derive(Clone, Copy, Debug, PartialEq, Eq, Error)]
pub enum InsertError {
    /// The tree would need depth 4.
    #[error("the tree is full")]
    Deep,
    #[error("out of memory")]
    OutOfMemory,
}

impl From<OutOfMemory> for InsertError {
    ghost use Rattle.h5w_bt_index.specs.declared.error.InsertError.TheVariants.{OutOfMemory as no_memory};
    ghost use Rattle.std.specs.Prelude.{◌≡◌};

    ghost from_gives = { λ _ r. r ≡ no_memory };

    fn from(_e: OutOfMemory) -> InsertError {
        InsertError::OutOfMemory
    }
}
