//! How far a kept run came.

use jmapd_run::kept_status::KeptStatus;

/// How a kept run ended, and how far it came.
#[derive(Drop)]
pub struct KeptDone {
    /// How it ended.
    pub status: KeptStatus,
    /// How many lines were run, with all that they added kept.
    pub kept: u64,
    /// How many lines were answered, with the whole response written.
    pub written: u64,
}
