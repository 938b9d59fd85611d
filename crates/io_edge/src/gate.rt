/// Where pieces of work pass before they begin. It has no meaning in any clause.
pub trait Gate: Sync {
    /// The piece of this number, from 0, begins.
    fn enter(&self, piece: usize);
}

/// The gate that every piece passes at once.
#[derive(Clone, Copy, Debug)]
pub struct NoGate;

impl Gate for NoGate {
    fn enter(&self, _piece: usize) {}
}
