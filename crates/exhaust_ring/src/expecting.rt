//! Which tokens a server expects.

ghost use Rattle.std.specs.Prelude.{◌≡◌, ◌↔◌, IsTrue};
ghost use Rattle.exhaust_ring.specs.Expected.{IsRunning, are_away, are_inside, are_named, expects, has_come_back, is_before, is_each_once, is_named, is_running, is_to_judge, is_to_mark, is_to_test};

use crate::keeping::Ring;
use adlb_unit::{Config, Rank, Server, Token, Types};

impl Ring {
    /// The server expects this token from that server (`expects`, which tests `Expects`: `ring_laws`): it comes from the one
    /// before in ring order. In wave 1 it names ranks of the run, each once. At server 0 it is of the check that runs,
    /// elsewhere no mark of this check is there, and no rank that it names has its home there. In wave 2 it is at server 0
    /// of the check that runs, whose tests were passed there. Elsewhere the mark of this check is there, and its tests were
    /// not made.
    pub fn expects(&self, from: Server, token: &Token) -> bool
        ensures { result ≡ expects self.now from token.now }
    {
        self.is_before(from)
            && (self.is_to_mark(token)
                || self.has_come_back(token)
                || self.is_to_test(token)
                || self.is_to_judge(token))
    }

    /// Server 0 expects that this token failed: it is of the check that runs (`IsRunning`, and as a test `is_running`).
    pub fn expects_failed(&self, token: &Token) -> bool
        ensures row { IsTrue result ↔ IsRunning self.now token.now }
        ensures test { result ≡ is_running self.now token.now }
    {
        self.me.0 == 0 && self.runs && token.check == self.check
    }

    // It comes from the server before.
    fn is_before(&self, from: Server) -> bool
        ensures { result ≡ is_before self.now from }
    {
        from.0 < self.config.servers && (from.0 + 1) % self.config.servers == self.me.0
    }

    // In wave 1, at another server than server 0.
    pub(crate) fn is_to_mark(&self, token: &Token) -> bool
        ensures { result ≡ is_to_mark self.now token.now }
    {
        let asked = token.asked.pairs();
        self.me.0 != 0
            && token.wave == 1
            && are_named(&self.config, asked)
            && self.number != token.check
            && are_away(&self.config, self.me, asked)
    }

    // After wave 1, at server 0.
    pub(crate) fn has_come_back(&self, token: &Token) -> bool
        ensures { result ≡ has_come_back self.now token.now }
    {
        self.expects_failed(token)
            && token.wave == 1
            && are_named(&self.config, token.asked.pairs())
    }

    // In wave 2, at another server than server 0.
    pub(crate) fn is_to_test(&self, token: &Token) -> bool
        ensures { result ≡ is_to_test self.now token.now }
    {
        self.me.0 != 0 && token.wave == 2 && self.number == token.check && !self.tested
    }

    // After wave 2, at server 0.
    pub(crate) fn is_to_judge(&self, token: &Token) -> bool
        ensures { result ≡ is_to_judge self.now token.now }
    {
        self.expects_failed(token) && token.wave == 2 && self.tested
    }
}

// The ranks are of the run, and each is named once.
fn are_named(config: &Config, asked: &[(Rank, Types)]) -> bool
    ensures { result ≡ are_named config.now asked.now }
{
    are_inside(config, asked) && is_each_once(asked)
}

// The ranks are of the run.
fn are_inside(config: &Config, asked: &[(Rank, Types)]) -> bool
    ensures { result ≡ are_inside config.now asked.now }
{
    asked.iter().all(|pair| pair.0.0 < config.ranks)
}

// No rank is named again.
fn is_each_once(asked: &[(Rank, Types)]) -> bool
    ensures { result ≡ is_each_once asked.now }
{
    for place in 0..asked.len() {
        if is_named(&asked[place + 1..], asked[place].0) {
            return false;
        }
    }
    true
}

// The rank is among them.
fn is_named(asked: &[(Rank, Types)], rank: Rank) -> bool
    ensures { result ≡ is_named rank asked.now }
{
    asked.iter().any(|other| other.0.0 == rank.0)
}

// Their home is another server.
fn are_away(config: &Config, me: Server, asked: &[(Rank, Types)]) -> bool
    ensures { result ≡ are_away config.now me asked.now }
{
    asked.iter().all(|pair| config.home(pair.0).0 != me.0)
}
