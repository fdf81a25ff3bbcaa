//! An event as it is kept.
ghost use Rattle.std.specs.Prelude.{◌≡◌};
ghost use Rattle.account_store.specs.Kept.{kept_event};

use spec_json::tree::Tree;
use spec_series::series::Series;

/// An event, with the series that was read of it when it came in (RFC 8984 section 4.3).
#[derive(Drop)]
pub struct KeptEvent {
    /// The event.
    pub object: Tree,
    /// Its series, or `None` where a property of it is bad.
    pub series: Option<Series>,
}

/// An event with its series, where there is one.
pub(crate) fn kept_event(object: Option<Tree>, series: Option<Series>) -> Option<KeptEvent>
    ensures { result ≡ kept_event object series }
{
    match object {
        Some(object) => Some(KeptEvent { object, series }),
        None => None,
    }
}
