ghost use Rattle.std.specs.Prelude.{◌≡◌, ◌++◌, ◌+◌, IfSome, OnOk};
ghost use Rattle.rib_store.specs.Limits.{routes_max};
ghost use Rattle.replay_run.specs.Family.{FlushesAtMost};
ghost use Rattle.replay_run.specs.Output.{one_reply, replied};

use crate::OutOfMemory;
use crate::output::write_reply;
use rib_store::Reply;

/// The one reply to a line, by those of both families: that of its family or, for a flush of both,
/// the sum of both numbers of routes. `None` where the line has none. Each flush is of 262,144
/// routes at most.
pub fn one_reply(reply: Option<Reply>, reply6: Option<Reply>) -> Option<Reply>
    requires flushes { IfSome reply (FlushesAtMost routes_max) }
    requires flushes6 { IfSome reply6 (FlushesAtMost routes_max) }
    ensures { result ≡ one_reply reply reply6 }
{
    match (reply, reply6) {
        (reply, None) => reply,
        (None, reply6) => reply6,
        (Some(Reply::Flushed(routes)), Some(Reply::Flushed(routes6))) => Some(Reply::Flushed(
            routes + routes6,
        )),
        (Some(_), Some(_)) => None,
    }
}

/// Appends the line of the one reply to a line of the script, if there is one. Where memory is
/// wanting a part of it may be there.
pub fn write_one_reply(
    line: u32,
    reply: Option<Reply>,
    out: &mut Vec<u8>,
) -> Result<(), OutOfMemory>
    ensures { OnOk result (out.new.items ≡ out.old.items ++ replied line reply) }
{
    match reply {
        Some(reply) => write_reply(line, reply, out),
        None => Ok(()),
    }
}
