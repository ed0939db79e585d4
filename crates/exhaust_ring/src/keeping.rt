//! What a server keeps of the checks that go round the ring.

ghost use Rattle.std.specs.Prelude.{◌≡◌, ◌<◌, ◌↔◌, IfOk, IsTrue, true};
ghost use Rattle.exhaust_ring.specs.Expected.{IsRunning};
ghost use Rattle.exhaust_ring.specs.Ring.{IsRing, MayStart, ended, may_start, new_ring, wanting, with_ring};

use adlb_unit::{AskedList, Config, NoMemory, Server, Token};
use std::alloc::Global;
use std::marker::Model;

/// One server of the ring. Contracts see it as a `RingModel` of `specs/Ring.antt`. No call but `new` takes memory.
#[derive(Drop)]
pub struct Ring {
    pub(crate) config: Config,
    pub(crate) me: Server,
    // The one list of all tokens, which server 0 has while none is under way.
    pub(crate) list: Option<AskedList>,
    pub(crate) check: u64,
    pub(crate) runs: bool,
    pub(crate) wanted: bool,
    pub(crate) number: u64,
    pub(crate) mark: u64,
    pub(crate) tested: bool,
    pub(crate) exhausted: bool,
    pub(crate) shut: bool,
}

impl Model for Ring {
    ghost use Rattle.exhaust_ring.specs.Ring.{RingModel};

    ghost Value = { RingModel };

    ghost use Rattle.exhaust_ring.specs.inside.{IsInside, ring_of};

    ghost view = { ring_of };

    ghost invariant = { IsInside };
}

impl Ring {
    /// This server of a run, at which no check was started and none is wanted. Its only error is `NoMemory`.
    pub fn new(alloc: Global, config: Config, me: Server) -> Result<Ring, NoMemory>
        requires { me.0 < config.servers }
        ensures { IfOk result (λ r. r ≡ new_ring config me) }
    {
        let list = if me.0 == 0 {
            Some(AskedList::new(alloc)?)
        } else {
            None
        };
        Ok(Ring {
            config,
            me,
            list,
            check: 0,
            runs: false,
            wanted: false,
            number: 0,
            mark: 0,
            tested: false,
            exhausted: false,
            shut: false,
        })
    }

    /// A check is wanted: server 0 starts it as soon as it may.
    pub fn notice(&mut self)
        ensures { self.new ≡ with_ring self.old (wanting self.old.ring) }
    {
        self.wanted = true;
    }

    /// A check may start, of a server that is quiet or not (`MayStart`, and as a test `may_start`). It may at server 0,
    /// if one is wanted and none runs, the server is quiet, and the end of the run was not found. Besides, it tells
    /// what is so of each ring (`IsRing`).
    pub fn may_start(&self, quiet: bool) -> bool
        ensures may { IsTrue result ↔ MayStart self.now quiet }
        ensures test { result ≡ may_start self.now quiet }
        ensures sound { IsRing self.now }
    {
        self.me.0 == 0 && self.wanted && !self.runs && quiet && !self.shut
    }

    /// All work was found used up, as far as this server knows.
    pub fn is_exhausted(&self) -> bool
        ensures { result ≡ self.now.exhausted }
    {
        self.exhausted
    }

    /// No rank waits or runs any more, as far as this server knows.
    pub fn is_shut(&self) -> bool
        ensures { result ≡ self.now.shut }
    {
        self.shut
    }

    /// Server 0 tells that all work is used up.
    pub fn hear_exhaust(&mut self)
        ensures { self.new ≡ record self.old { exhausted = true } }
    {
        self.exhausted = true;
    }

    /// Server 0 tells that no rank waits or runs any more.
    pub fn hear_shutdown(&mut self)
        ensures { self.new ≡ record self.old { shut = true } }
    {
        self.shut = true;
    }

    /// The token has failed elsewhere, at server 0 to which it has come (`IsRunning`): the check has ended.
    pub fn failed(&mut self, token: Token)
        requires { IsRunning self.old token }
        ensures { self.new ≡ with_ring self.old (ended self.old.ring) }
    {
        self.end(token);
    }

    // The check has ended, and the list comes back.
    pub(crate) fn end(&mut self, token: Token)
        ensures { self.new ≡ with_ring self.old (ended self.old.ring) }
    {
        let mut list = token.asked;
        list.clear();
        self.list = Some(list);
        self.runs = false;
    }
}
