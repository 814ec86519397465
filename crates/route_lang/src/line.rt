//! The lines of a script that ask for something.
ghost use Rattle.std.specs.Prelude.{◌≡◌, ◌<◌, length, slice_get, Some};

use prefix_width::Addr;
use std::marker::Model;

/// A line of a script that asks for something. Blank lines and comments are none.
#[derive(Clone, Copy, Debug, PartialEq, Eq)]
pub enum Line {
    /// An `add`, `change`, `delete` or `flush`: its positions in the plans, counted from 0.
    Change {
        line: u32,
        inet: Option<u32>,
        inet6: Option<u32>,
    },
    /// A `tick`, `sync` or `algo`: its positions in the plans, counted from 0.
    Quiet {
        line: u32,
        inet: Option<u32>,
        inet6: Option<u32>,
    },
    /// A lookup of an IPv4 address. `at` is how many commands of its plan come before it.
    Get4 {
        line: u32,
        addr: Addr<32>,
        flow: u32,
        at: u32,
    },
    /// A lookup of an IPv6 address. `at` is how many commands of its plan come before it.
    Get6 {
        line: u32,
        addr: Addr<128>,
        flow: u32,
        at: u32,
    },
}

/// The lines of a script in their order.
#[derive(Debug, Drop)]
pub struct Lines {
    lines: Vec<Line>,
}

impl Model for Lines {
    ghost use Rattle.std.specs.Prelude.{List};
    ghost use Rattle.route_lang.specs.declared.line.Line.{Line};

    ghost Value = { List Line };

    ghost view = { λ l. l.lines.items };
}

impl Lines {
    /// These lines.
    pub fn new(lines: Vec<Line>) -> Lines
        ensures { result ≡ lines.items }
    {
        Lines { lines }
    }

    /// How many lines there are.
    pub fn len(&self) -> usize
        ensures { result ≡ length self.now }
    {
        self.lines.len()
    }

    /// The line of a number, counted from 0. The number is below theirs.
    pub fn get(&self, i: usize) -> &Line
        requires { i < length self.now }
        ensures { slice_get self.now i ≡ Some result.now }
    {
        &self.lines[i]
    }
}
