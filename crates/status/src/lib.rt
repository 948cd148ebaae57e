// The status of a run: whether it has ended, goes on or is stuck, by what it offers, STOP's own step apart. Nothing is
// written. It relies on what a run offers, and on sets of events.
#![tactic(auto)]

ghost use Rattle.std.specs.Prelude.{◌≡◌};
ghost use Rattle.status.specs.code.Status as code;
ghost use Rattle.status.specs.words.Told.{TellsStatus};

use control::Nodes;
use offers::{ended, offers};
use plans::Show;
use rules::Status;
use sets::empty;

// The status of a run at a reference.
pub fn status_at(reference: usize, show: &Show, nodes: &Nodes) -> Status
    ensures value { result ≡ code.status
        show.now.plan show.now.table.payloads nodes.now reference }
    ensures tells_status { TellsStatus show.now.plan show.now.table.payloads nodes.now reference result }
{
    if ended(reference, nodes) {
        return Status::Ended;
    }
    let offered = offers(reference, show, nodes);
    if offered.plain || offered.tick || !empty(offered.events) {
        return Status::Live;
    }
    Status::Stuck
}
