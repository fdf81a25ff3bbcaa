//! What the operations of a set are judged by.
ghost use Rattle.std.specs.Prelude.{◌≡◌, None};
ghost use Rattle.cal_model.specs.declared.outcome.Outcome.TheVariants.{Refused};

use cal_model::outcome::Outcome;
use cal_model::set_error::SetError;
use spec_history::entry::Kind;
use spec_json::text::Text;
use spec_series::series::Series;
use spec_time::moment::Moment;
use zone_table::Zones;

/// What the operations of a set are judged against, beside the changes before them.
#[derive(Drop)]
pub struct Setting<'a> {
    pub kind: Kind,
    pub account: &'a Text,
    pub zones: &'a Zones,
    pub generation: u64,
    pub moment: Moment,
}

/// What comes of an operation.
#[derive(Drop)]
pub struct Judged {
    pub outcome: Outcome,
    /// The bytes of the compact text of the object that the accepted change puts, 0 where it puts none.
    pub size: usize,
    /// The series of the event that the accepted change puts, `None` where it puts none.
    pub series: Option<Series>,
}

impl Judged {
    /// An operation that is refused.
    pub fn refused(error: SetError) -> Judged
        ensures { result ≡ record { outcome = Refused error; size = 0; series = None } }
    {
        Judged {
            outcome: Outcome::Refused(error),
            size: 0,
            series: None,
        }
    }
}
