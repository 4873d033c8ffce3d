//! The readers of a run, by their numbers.

/// How many readers look at the images of a run, and which calls each makes.
#[derive(Clone, Copy)]
pub struct Readers {
    /// How many look at the first image, 1 to 16.
    pub count: u32,
    /// How many calls each makes, 1 to 10,000.
    pub polls: u32,
    /// How many attempts a call makes at most, 1 to 1,000.
    pub attempts: u32,
    /// How many more look at a second image, 0 to 16. Without any there is none.
    pub mirrors: u32,
}
