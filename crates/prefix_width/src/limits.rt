ghost use Rattle.std.specs.Prelude.{◌≡◌, ◌≤◌};
ghost use Rattle.prefix_width.specs.Limits.{AreBanks, AreTargets, last_index};

/// The greatest index of a family whose readers may hold any of the last `banks` versions, each with
/// at most `targets` live targets. There are 2 to 8 banks and 1 to 4,095 targets, so it is at most
/// 32,767. Index 0 names nothing.
pub fn last_index(banks: u64, targets: u32) -> u16
    requires banks { AreBanks banks }
    requires targets { AreTargets targets }
    ensures { result ≡ last_index banks targets }
{
    (banks * (u64::from(targets) + 1) - 1) as u16
}
