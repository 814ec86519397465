//! The first word of a line.
ghost use Rattle.std.specs.Prelude.{◌≡◌};
ghost use Rattle.route_lang.specs.Reader.Verb.{verb_of, flag_of, is_family, is_extent, is_flow, has_flag, takes_value, bare_words, is_option, flag_token, token_of, least_value, greatest_value};
ghost use Rattle.route_lang.specs.Grammar.{begins_with_dash};

/// The commands of a line, after route(8); `tick`, `sync`, `algo` and `profile` are
/// this project's own.
#[derive(Clone, Copy, Debug, PartialEq, Eq)]
pub(crate) enum Verb {
    Add,
    Change,
    Delete,
    Get,
    Flush,
    Tick,
    Sync,
    Algo,
    Profile,
}

/// The options of a line.
#[derive(Clone, Copy, Debug, PartialEq, Eq)]
pub(crate) enum Flag {
    Inet,
    Inet6,
    Net,
    Host,
    Iface,
    Mtu,
    Weight,
    Blackhole,
    Reject,
    Flow,
}

/// What a word behind the command is.
#[derive(Clone, Copy, Debug, PartialEq, Eq)]
pub(crate) enum Token {
    /// A word that is no option.
    Bare,
    /// An option without a value.
    Plain(Flag),
    /// An option that takes the next word as its value.
    Valued(Flag),
}

impl Verb {
    /// The command that a word names.
    pub(crate) fn of(word: &[u8]) -> Option<Verb>
        ensures { result ≡ verb_of word.now }
    {
        if word == b"add".as_slice() {
            return Some(Verb::Add);
        }
        if word == b"change".as_slice() {
            return Some(Verb::Change);
        }
        if word == b"delete".as_slice() {
            return Some(Verb::Delete);
        }
        if word == b"get".as_slice() {
            return Some(Verb::Get);
        }
        if word == b"flush".as_slice() {
            return Some(Verb::Flush);
        }
        if word == b"tick".as_slice() {
            return Some(Verb::Tick);
        }
        if word == b"sync".as_slice() {
            return Some(Verb::Sync);
        }
        if word == b"algo".as_slice() {
            return Some(Verb::Algo);
        }
        if word == b"profile".as_slice() {
            return Some(Verb::Profile);
        }
        None
    }

    /// How many bare words the command has.
    pub(crate) fn bare_words(self) -> u8
        ensures { result ≡ bare_words self }
    {
        match self {
            Verb::Add | Verb::Change | Verb::Delete => 2,
            Verb::Get | Verb::Tick | Verb::Algo | Verb::Profile => 1,
            Verb::Flush | Verb::Sync => 0,
        }
    }

    /// What a word behind the command is. `None` for an option that the command hasn't.
    pub(crate) fn token(self, word: &[u8]) -> Option<Token>
        ensures { result ≡ token_of self word.now }
    {
        if !self.is_option(word) {
            return Some(Token::Bare);
        }
        let flag = Flag::of(word)?;
        if self.has(flag) {
            Some(flag.token())
        } else {
            None
        }
    }

    fn is_option(self, word: &[u8]) -> bool
        ensures { result ≡ is_option self word.now }
    {
        match self {
            Verb::Get => begins_with_dash(word) || word == b"flow".as_slice(),
            _ => begins_with_dash(word),
        }
    }

    fn has(self, flag: Flag) -> bool
        ensures { result ≡ has_flag self flag }
    {
        match self {
            Verb::Add | Verb::Change => !flag.is_flow(),
            Verb::Delete => flag.is_family() || flag.is_extent(),
            Verb::Get => flag.is_family() || flag.is_flow(),
            Verb::Flush | Verb::Algo => flag.is_family(),
            Verb::Tick | Verb::Sync | Verb::Profile => false,
        }
    }
}

fn begins_with_dash(word: &[u8]) -> bool
    ensures { result ≡ begins_with_dash word.now }
{
    !word.is_empty() && word[0] == b'-'
}

impl Flag {
    /// The option that a word names, whatever the command.
    fn of(word: &[u8]) -> Option<Flag>
        ensures { result ≡ flag_of word.now }
    {
        if word == b"-inet".as_slice() {
            return Some(Flag::Inet);
        }
        if word == b"-inet6".as_slice() {
            return Some(Flag::Inet6);
        }
        if word == b"-net".as_slice() {
            return Some(Flag::Net);
        }
        if word == b"-host".as_slice() {
            return Some(Flag::Host);
        }
        if word == b"-if".as_slice() {
            return Some(Flag::Iface);
        }
        if word == b"-mtu".as_slice() {
            return Some(Flag::Mtu);
        }
        if word == b"-weight".as_slice() {
            return Some(Flag::Weight);
        }
        if word == b"-blackhole".as_slice() {
            return Some(Flag::Blackhole);
        }
        if word == b"-reject".as_slice() {
            return Some(Flag::Reject);
        }
        if word == b"flow".as_slice() {
            return Some(Flag::Flow);
        }
        None
    }

    fn token(self) -> Token
        ensures { result ≡ flag_token self }
    {
        if self.takes_value() {
            Token::Valued(self)
        } else {
            Token::Plain(self)
        }
    }

    fn takes_value(self) -> bool
        ensures { result ≡ takes_value self }
    {
        matches!(self, Flag::Iface | Flag::Mtu | Flag::Weight | Flag::Flow)
    }

    /// The least value of the option.
    pub(crate) fn least_value(self) -> u32
        ensures { result ≡ least_value self }
    {
        if self.is_flow() { 0 } else { 1 }
    }

    /// The greatest value of the option.
    pub(crate) fn greatest_value(self) -> u32
        ensures { result ≡ greatest_value self }
    {
        match self {
            Flag::Iface => 65_535,
            Flag::Weight => 16_777_215,
            _ => 4_294_967_295,
        }
    }

    fn is_family(self) -> bool
        ensures { result ≡ is_family self }
    {
        matches!(self, Flag::Inet | Flag::Inet6)
    }

    fn is_extent(self) -> bool
        ensures { result ≡ is_extent self }
    {
        matches!(self, Flag::Net | Flag::Host)
    }

    fn is_flow(self) -> bool
        ensures { result ≡ is_flow self }
    {
        matches!(self, Flag::Flow)
    }
}
