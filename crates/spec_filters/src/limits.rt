//! The limits on filters.

/// The most operators and conditions of a filter.
pub const MAX_FILTER_PARTS: usize = 1000;
