ghost use Rattle.replay_run.specs.Packets.{CountsGiven};

/// Law: the packets that are written are those of the nexthops that the gets gave, each once, with
/// how often it was given.
pub fn law_packets()
    ensures { CountsGiven }
{}
