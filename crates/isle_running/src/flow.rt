use isle_core::{Boxed, End};

/// How statements end: they go on, the function ends, it ends with the results given, the closure around them is left,
/// or what is read isn't there. The end stands in a box, so that statements within statements cost little stack.
#[derive(Drop)]
pub enum Flow {
    Goes,
    Ends(Boxed<End>),
    Full,
    Leaves,
    Stuck,
}
