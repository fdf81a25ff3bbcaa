//! Where the accounts of a site come from, each at what its keeper has of it.
ghost use Rattle.std.specs.Prelude.{◌≡◌, ◌≤◌, IfErr, IfOk, map};
ghost use Rattle.jmapd_listen.specs.Offices.{AreKeptDesks, OpensNone, OfficeShown};

use jmapd_run::kept_status::KeptStatus;
use session_doc::Site;
use spec_batch::desk::Desk;
use std::alloc::Global;

/// Opens the accounts of a site, each with a keeper of its own, and gives desks over them.
///
/// Contracts see what the keeper of each account has, where it tells that, and the counts of faults and of damages.
pub trait Office {
    /// A desk over the accounts, which others share.
    type D: Desk + Send + Drop + 'static;

    ghost shown: { Self → OfficeShown };

    /// Opens the accounts of a site, one after the other, each at what its keeper has of it, and gives a desk over them for each of so many workers.
    ///
    /// The first account that doesn't open ends it, with the status that tells why. Takes memory for the entries, and for what accounts keep of them.
    fn desks(
        &mut self,
        alloc: Global,
        site: &Site,
        workers: u32,
    ) -> Result<Vec<Self::D>, KeptStatus>
        requires { (1 ≤ workers) × (workers ≤ 256) }
        ensures same { (shown self.new).told ≡ (shown self.old).told }
        ensures opened { IfOk result (λ desks. AreKeptDesks site.now (shown self.old).told workers (map Self.D.shown desks.items)) }
        ensures refused { IfErr result (OpensNone site.now (shown self.old) (shown self.new)) };
}
