ghost use Rattle.std.specs.Prelude.{◌≡◌, IfOk};
ghost use Rattle.replay_run.specs.Text.{checked_text};
ghost use Rattle.route_lang.specs.Spelling.{spelled};

use crate::OutOfMemory;
use crate::output::push_number;
use route_lang::{Script, write_line, write_profile};
use std::alloc::Global;

/// What `check` tells of a script: how many lines its text has, and how many of them ask for
/// something.
pub fn check_text(alloc: Global, script: &Script, lines: u32) -> Result<Vec<u8>, OutOfMemory>
    ensures { IfOk result (λ text. text.items ≡ checked_text script.now lines) }
{
    let mut out = Vec::new(alloc);
    out.extend_from_slice(b"ok ")?;
    push_number(u64::from(lines), &mut out)?;
    out.extend_from_slice(b" lines ")?;
    push_number(script.lines().len() as u64, &mut out)?;
    out.extend_from_slice(b" commands\n")?;
    Ok(out)
}

/// What `show` writes: the profile, where it is 2, and each line of the script in its canonical
/// spelling.
pub fn show_text(alloc: Global, script: &Script) -> Result<Vec<u8>, OutOfMemory>
    ensures { IfOk result (λ text. text.items ≡ spelled script.now) }
{
    let mut out = Vec::new(alloc);
    write_profile(script.profile(), &mut out)?;
    for i in 0..script.lines().len() {
        write_line(alloc, script, i, &mut out)?;
    }
    Ok(out)
}
