//! By whom a call was made, and when.

use spec_time::moment::Moment;

/// By whom a call was made, and when.
#[derive(Clone, Copy, Drop)]
pub struct Stamp {
    /// The number of the pass that made the call.
    pub author: u32,
    /// The number of the call among those of its author.
    pub turn: u64,
    /// The moment of the call.
    pub moment: Moment,
}
