/// What the threads of a run pass on their way, so that a test can hold them up.
pub trait Gate: Sync {
    /// Actor `actor` has come to its turn `number`.
    fn turn(&self, actor: u32, number: u64);
}

/// The gate that is always open.
#[derive(Clone, Copy)]
pub struct OpenGate;

impl Gate for OpenGate {
    fn turn(&self, _actor: u32, _number: u64) {}
}
