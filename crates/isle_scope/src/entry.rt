//! A local that was bound.

/// A local, and the place of the binding that it hides.
#[derive(Clone, Copy)]
pub struct Entry {
    pub local: usize,
    pub hidden: Option<usize>,
}
