//! A change of one kind.

/// What a change puts under an id.
#[derive(Drop)]
pub struct Put<T> {
    /// The id that it names.
    pub id: u64,
    /// The object that the id has from now on, or `None` where it is removed.
    pub object: Option<T>,
    /// How many bytes of the object count, or 0 where it is removed.
    pub size: u64,
}
