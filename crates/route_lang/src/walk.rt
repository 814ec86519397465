//! The walk through the words of a line.
ghost use Rattle.std.specs.Prelude.{◌≡◌, ◌≤◌, ◌∷◌, Err, length, IfOk, IfErr, IfSome};
ghost use Rattle.route_lang.specs.Text.{words_of};
ghost use Rattle.route_lang.specs.Reader.Asked.{is_inet6};
ghost use Rattle.route_lang.specs.Reader.Verb.{value_of, least_value, greatest_value};
ghost use Rattle.route_lang.specs.Reader.Walk.{met_by, InRange, nothing_met, is_given, set_flag, set_value, with_flag, with_value, with_bare, without_value, walk_from, GivesWalk, TakesWord};

use crate::fault::Reason;
use crate::text::next_word;
use crate::verb::{Flag, Token, Verb};
use addr_text::read_number;

/// What a walk over the words behind a command has met.
#[derive(Clone, Copy, Debug, PartialEq, Eq)]
pub(crate) struct Walk<'a> {
    /// The bare words.
    pub(crate) first: Option<&'a [u8]>,
    pub(crate) second: Option<&'a [u8]>,
    /// `-inet` or `-inet6`.
    pub(crate) family: Option<Flag>,
    /// `-net` or `-host`.
    pub(crate) extent: Option<Flag>,
    /// `-blackhole` or `-reject`.
    pub(crate) discard: Option<Flag>,
    /// The values of the other options.
    pub(crate) iface: Option<u32>,
    pub(crate) mtu: Option<u32>,
    pub(crate) weight: Option<u32>,
    pub(crate) flow: Option<u32>,
}

impl<'a> Walk<'a> {
    /// A walk that has met nothing.
    pub(crate) fn new() -> Self
        ensures nothing { met_by result ≡ nothing_met }
        ensures range { InRange result }
    {
        Walk {
            first: None,
            second: None,
            family: None,
            extent: None,
            discard: None,
            iface: None,
            mtu: None,
            weight: None,
            flow: None,
        }
    }

    /// Whether the family is IPv6. Without an option it is IPv4.
    pub(crate) fn is_inet6(&self) -> bool
        ensures { result ≡ is_inet6 self.now.family }
    {
        matches!(self.family, Some(Flag::Inet6))
    }

    fn is_given(&self, flag: Flag) -> bool
        ensures { result ≡ is_given (met_by self.now) flag }
    {
        match flag {
            Flag::Inet | Flag::Inet6 => self.family.is_some(),
            Flag::Net | Flag::Host => self.extent.is_some(),
            Flag::Blackhole | Flag::Reject => self.discard.is_some(),
            Flag::Iface => self.iface.is_some(),
            Flag::Mtu => self.mtu.is_some(),
            Flag::Weight => self.weight.is_some(),
            Flag::Flow => self.flow.is_some(),
        }
    }

    /// Takes a bare word.
    fn take_bare(&mut self, verb: Verb, word: &'a [u8]) -> Result<(), Reason>
        requires { InRange self.old }
        ensures value { TakesWord result (met_by self.new) (with_bare verb (met_by self.old) word.entry.now) }
        ensures range { InRange self.new }
    {
        if self.first.is_none() {
            if verb.bare_words() < 1 {
                return Err(Reason::ExtraWord);
            }
            self.first = Some(word);
            return Ok(());
        }
        if self.second.is_some() || verb.bare_words() < 2 {
            return Err(Reason::ExtraWord);
        }
        self.second = Some(word);
        Ok(())
    }

    /// Takes an option without a value.
    fn take_flag(&mut self, flag: Flag) -> Result<(), Reason>
        requires { InRange self.old }
        ensures value { TakesWord result (met_by self.new) (with_flag (met_by self.old) flag) }
        ensures range { InRange self.new }
    {
        if self.is_given(flag) {
            return Err(Reason::Repeated);
        }
        self.set_flag(flag);
        Ok(())
    }

    fn set_flag(&mut self, flag: Flag)
        requires { InRange self.old }
        ensures value { met_by self.new ≡ set_flag (met_by self.old) flag }
        ensures range { InRange self.new }
    {
        match flag {
            Flag::Inet | Flag::Inet6 => self.family = Some(flag),
            Flag::Net | Flag::Host => self.extent = Some(flag),
            Flag::Blackhole | Flag::Reject => self.discard = Some(flag),
            Flag::Iface | Flag::Mtu | Flag::Weight | Flag::Flow => {}
        }
    }

    /// Takes an option with its value.
    fn take_value(&mut self, flag: Flag, word: &[u8]) -> Result<(), Reason>
        requires { InRange self.old }
        ensures value { TakesWord result (met_by self.new) (with_value (met_by self.old) flag word.now) }
        ensures range { InRange self.new }
    {
        if self.is_given(flag) {
            return Err(Reason::Repeated);
        }
        match flag.value(word) {
            Some(n) => {
                self.set_value(flag, n);
                Ok(())
            }
            None => Err(Reason::BadNumber),
        }
    }

    fn set_value(&mut self, flag: Flag, n: u32)
        requires range { InRange self.old }
        requires least { least_value flag ≤ n }
        requires most { n ≤ greatest_value flag }
        ensures value { met_by self.new ≡ set_value (met_by self.old) flag n }
        ensures range { InRange self.new }
    {
        match flag {
            Flag::Iface => self.iface = Some(n),
            Flag::Mtu => self.mtu = Some(n),
            Flag::Weight => self.weight = Some(n),
            Flag::Flow => self.flow = Some(n),
            Flag::Inet | Flag::Inet6 | Flag::Net | Flag::Host | Flag::Blackhole | Flag::Reject => {}
        }
    }

    /// Takes a word and, where it is an option with a value, the next one; gives what is left.
    fn take_word(&mut self, verb: Verb, word: &'a [u8], rest: &'a [u8]) -> Result<&'a [u8], Reason>
        requires { InRange self.old }
        ensures goes { IfOk result (λ left. walk_from verb (met_by self.old) (word.entry.now ∷ words_of rest.entry.now) ≡ walk_from verb (met_by self.new) (words_of left.now)) }
        ensures fault { IfErr result (λ reason. walk_from verb (met_by self.old) (word.entry.now ∷ words_of rest.entry.now) ≡ Err reason) }
        ensures fewer { IfOk result (λ left. length (words_of left.now) ≤ length (words_of rest.entry.now)) }
        ensures range { InRange self.new }
    {
        match verb.token(word) {
            None => Err(Reason::UnknownOption),
            Some(Token::Bare) => {
                self.take_bare(verb, word)?;
                Ok(rest)
            }
            Some(Token::Plain(flag)) => {
                self.take_flag(flag)?;
                Ok(rest)
            }
            Some(Token::Valued(flag)) => {
                let Some((value, rest)) = next_word(rest) else {
                    return Err(self.fault_without_value(flag));
                };
                self.take_value(flag, value)?;
                Ok(rest)
            }
        }
    }

    /// Why an option that takes a value may not be the last word.
    fn fault_without_value(&self, flag: Flag) -> Reason
        ensures { without_value (met_by self.now) flag ≡ Err result }
    {
        if self.is_given(flag) {
            Reason::Repeated
        } else {
            Reason::MissingWord
        }
    }
}

impl Flag {
    /// The number of the option's range that a word writes.
    fn value(self, word: &[u8]) -> Option<u32>
        ensures value { result ≡ value_of self word.now }
        ensures least { IfSome result (λ n. least_value self ≤ n) }
        ensures most { IfSome result (λ n. n ≤ greatest_value self) }
    {
        let n = read_number(word)?;
        if self.least_value() <= n && n <= self.greatest_value() {
            Some(n)
        } else {
            None
        }
    }
}

/// Walks over the words behind a command from left to right.
pub(crate) fn walk_over<'a>(verb: Verb, words: &'a [u8]) -> Result<Walk<'a>, Reason>
    ensures value { GivesWalk result (walk_from verb nothing_met (words_of words.entry.now)) }
    ensures range { IfOk result InRange }
{
    let mut met = Walk::new();
    let mut left = words;
    'words: while let Some((word, rest)) = next_word(left) {
        left = met.take_word(verb, word, rest)?;
    }
    Ok(met)
}
