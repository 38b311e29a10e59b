//! What a run has from the system.

/// What a run has from the system, beside its input and its output.
#[derive(Drop)]
pub struct System<'a, T, P, S, F> {
    /// Makes threads, and allocates.
    pub rt: &'a T,
    /// What threads wait with.
    pub wait: &'a P,
    /// Opens and makes the file of a store.
    pub stores: &'a S,
    /// Finds and opens the feeds of a folder.
    pub feeds: &'a F,
}
