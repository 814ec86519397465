/// A gate at which workers wait ahead of a get and behind it. The gate answers nothing.
pub trait Gate {
    /// Called ahead of get `j`, counted from 0 in script order.
    fn before(&self, j: u32);

    /// Called once get `j` has its answer.
    fn after(&self, j: u32);
}

/// A gate that stands open.
#[derive(Clone, Copy, Debug, Default, PartialEq, Eq)]
pub struct OpenGate;

impl Gate for OpenGate {
    fn before(&self, _j: u32) {}

    fn after(&self, _j: u32) {}
}
