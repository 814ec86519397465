ghost use Rattle.std.specs.Prelude.{◌≡◌, OnOk};
ghost use Rattle.table_bench.specs.Phases.{map_from, put_or_drop};

use crate::OutOfMemory;
use prefix_width::{Path, Prefix};
use rib_store::Command;
use std::collections::BTreeMap;

/// Does on a bare map what the commands ask.
pub(crate) fn put_all(
    map: &mut BTreeMap<Prefix<32>, Path<32>>,
    commands: &[Command<32>],
) -> Result<(), OutOfMemory>
    ensures { OnOk result (map.new.entries ≡ map_from map.old.entries commands.now) }
{
    for command in commands {
        put_or_drop(map, command)?;
    }
    Ok(())
}

/// Puts the path in at its prefix, or drops what is there.
fn put_or_drop(
    map: &mut BTreeMap<Prefix<32>, Path<32>>,
    command: &Command<32>,
) -> Result<(), OutOfMemory>
    ensures { OnOk result (map.new.entries ≡ put_or_drop map.old.entries command.now) }
{
    match *command {
        Command::Add { prefix, path } | Command::Change { prefix, path } => {
            map.insert(prefix, path)?;
        }
        Command::Delete { prefix, .. } => {
            map.remove(&prefix);
        }
        _ => {}
    }
    Ok(())
}
