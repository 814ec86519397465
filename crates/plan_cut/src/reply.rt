ghost use Rattle.std.specs.Prelude.{◌≡◌};
ghost use Rattle.plan_cut.specs.PlanCourse.{is_accepted};

use rib_store::Reply;

/// Whether the reply is that to an accepted change of the table: a flush is one where it took out
/// a route.
pub fn accepted(reply: &Reply) -> bool
    ensures { result ≡ is_accepted reply.now }
{
    match reply {
        Reply::Added | Reply::Joined | Reply::Changed | Reply::Deleted => true,
        Reply::Flushed(routes) => *routes > 0,
        Reply::Nothing | Reply::Refused(_) => false,
    }
}
