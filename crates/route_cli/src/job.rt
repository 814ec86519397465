//! What a command line comes to.
ghost use Rattle.std.specs.Prelude.{◌≡◌, IfSome};
ghost use Rattle.command_line.specs.Words.{IsBetween};
ghost use Rattle.route_cli.specs.Result.{FitsTask};
ghost use Rattle.route_cli.specs.Words.{task_in};

use command_line::{Mode, Request};

/// What is made of a script without waiting for anybody.
#[derive(Clone, Copy, Debug, PartialEq, Eq)]
pub enum Job {
    /// Replays the script on one thread and writes its output.
    Replay,
    /// Counts the lines of the script and those that ask for something.
    Check,
    /// Writes the script in its canonical spelling.
    Show,
    /// Generates a script of `count` lines, 1 to 1,048,576, from a seed, replays it on one thread, and
    /// writes what it comes to. It reads no source.
    Gen { seed: u32, count: u32 },
}

/// What the words ask of the program.
#[derive(Clone, Copy, Debug, PartialEq, Eq)]
pub enum Task {
    /// Nothing: the words are not taken.
    NotTaken,
    /// A job.
    Does(Job),
    /// A replay whose gets so many workers make, 1 to 64.
    ReplaysBy { workers: u32 },
}

impl Task {
    /// What a request asks.
    pub(crate) fn of(request: &Request) -> Task
        requires workers { IfSome request.now.workers (IsBetween 1 64) }
        requires count { IsBetween 1 1048576 request.now.count }
        ensures task { result ≡ task_in request.now.mode request.now }
        ensures fits { FitsTask result }
    {
        match (request.mode, request.workers) {
            (Mode::Replay, None) => Task::Does(Job::Replay),
            (Mode::Replay, Some(workers)) => Task::ReplaysBy { workers },
            (Mode::Check, _) => Task::Does(Job::Check),
            (Mode::Show, _) => Task::Does(Job::Show),
            (Mode::Gen, _) => Task::Does(Job::Gen {
                seed: request.seed,
                count: request.count,
            }),
        }
    }
}

impl Job {
    ghost use Rattle.route_cli.specs.Result.{is_read};

    /// Whether it reads a source.
    pub(crate) fn is_read(&self) -> bool
        ensures { result ≡ is_read self.now }
    {
        match self {
            Job::Replay | Job::Check | Job::Show => true,
            Job::Gen { .. } => false,
        }
    }
}
