//! How conflicts are resolved: by action cancellation, or by event cancellation (Definition 11 of Chomicki, Lobo and Naqvi, "Conflict
//! Resolution Using Logic Programming", TKDE 2003).

/// The first mode, and the second.
#[derive(Clone, Copy)]
pub enum Mode {
    /// Actions are cancelled, one by one.
    Actions,
    /// Events are dropped, with all that they cause.
    Events,
}
