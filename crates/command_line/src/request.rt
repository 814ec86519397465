/// What the program does.
#[derive(Clone, Copy, Debug, PartialEq, Eq)]
pub enum Mode {
    /// Replays a script.
    Replay,
    /// Reads a script and counts its lines and commands.
    Check,
    /// Reads a script and writes it in its canonical spelling.
    Show,
    /// Makes a script from a seed and replays it.
    Gen,
}

/// What the words of a command line ask. Each option is read in every mode, also where the mode
/// doesn't use it.
#[derive(Clone, Copy, Debug, PartialEq, Eq)]
pub struct Request {
    pub mode: Mode,
    /// How many workers replay, 1 to 64; `None` where the option isn't given.
    pub workers: Option<u32>,
    /// Where the generator starts; 1 where the option isn't given.
    pub seed: u32,
    /// How many lines are generated, 1 to 1,048,576; 10,000 where the option isn't given.
    pub count: u32,
}
