//! The flow program of a rank.

ghost use Rattle.std.specs.Prelude.{◌≡◌, [], length, Some, None, IfOk};
ghost use Rattle.flow_units.specs.Bodies.{forms};
ghost use Rattle.flow_work.specs.Calls.{IsReady, Keeps};
ghost use Rattle.flow_work.specs.Follows.{Follows, IsUnderWay};
ghost use Rattle.flow_work.specs.Working.{AtHome, Brings, IsGoing, IsOnWay};

use crate::calls::Worker;
use crate::stock::{Home, append_all, list_of, own_values};
use adlb_rank::Rank;
use adlb_unit::{NoMemory, Rank as RankName, Trouble};
use flow_app::{Flow, FlowOutcome, Store};
use rank_client::{Adlb, RankProgram};
use std::alloc::Global;
use std::collections::VecDeque;

/// The program of a rank. The rank that has the flow puts each rule that becomes ready, with the values of its
/// inputs, and stores the answers. Each rank works the rules that it takes and puts their answers to rank 0. A rule
/// that no server takes is worked at once. An answer that no server takes is stored by the rank that has the flow.
/// Another rank keeps it, and puts the oldest that it keeps once more before each reserve.
#[derive(Drop)]
pub struct FlowProgram {
    alloc: Global,
    ranks: u32,
    flow: Option<Flow>,
}

impl FlowProgram {
    /// The program of a rank in a run of this many ranks. Rank 0 has the flow; no other rank has any.
    pub fn new(alloc: Global, ranks: u32, flow: Option<Flow>) -> FlowProgram
        ensures ranks { result.ranks ≡ ranks }
        ensures flow { result.flow ≡ flow }
    {
        FlowProgram { alloc, ranks, flow }
    }

    // The run of the rank that has the flow.
    fn run_home<R: Rank>(&self, link: &mut R, flow: &Flow) -> Result<FlowOutcome, Trouble>
        requires empty { (R.link link.old).said ≡ [] }
        requires ready { IsReady self.now.ranks (R.link link.old) }
        ensures follows { IfOk result (λ outcome. Follows (forms self.now.ranks) (Some flow.now) (R.link link.new).said outcome.values.items) }
        ensures so_far { IsOnWay (forms self.now.ranks) (Some flow.now) (R.link link.new) }
        ensures kept { Keeps (R.link link.old) (R.link link.new) result }
    {
        let Ok(mut home) = self.start(flow) else {
            return Err(Trouble::Memory);
        };
        self.worker().work_home(link, flow, &mut home)?;
        let Ok(outcome) = self.outcome(flow, &home) else {
            return Err(Trouble::Memory);
        };
        Ok(outcome)
    }

    // The run of a rank without the flow.
    fn run_away<R: Rank>(&self, link: &mut R) -> Result<FlowOutcome, Trouble>
        requires empty { (R.link link.old).said ≡ [] }
        requires ready { IsReady self.now.ranks (R.link link.old) }
        ensures follows { IfOk result (λ outcome. Follows (forms self.now.ranks) None (R.link link.new).said outcome.values.items) }
        ensures so_far { IsOnWay (forms self.now.ranks) None (R.link link.new) }
        ensures kept { Keeps (R.link link.old) (R.link link.new) result }
    {
        let mut kept = VecDeque::new(self.alloc);
        self.worker().work_away(link, &mut kept)?;
        let Ok(values) = list_of(self.alloc, kept) else {
            return Err(Trouble::Memory);
        };
        Ok(FlowOutcome { values })
    }

    // The rank, as it works.
    fn worker(&self) -> Worker
        ensures { result.ranks ≡ self.now.ranks }
    {
        Worker {
            alloc: self.alloc,
            ranks: self.ranks,
        }
    }

    // What the rank that has the flow has at its start. Its only error is `NoMemory`.
    fn start(&self, flow: &Flow) -> Result<Home, NoMemory>
        ensures { IfOk result (λ home. IsGoing (forms self.now.ranks) (Some flow.now) [] (AtHome flow.now home)) }
    {
        let store = Store::new(self.alloc, flow)?;
        Ok(Home {
            store,
            kept: Vec::new(self.alloc),
        })
    }

    // What the rank that has the flow brings. Its only error is `NoMemory`.
    fn outcome(&self, flow: &Flow, home: &Home) -> Result<FlowOutcome, NoMemory>
        requires long { length home.now.store.values.items ≡ length flow.now }
        ensures { IfOk result (λ outcome. Brings flow.now home.now outcome.values.items) }
    {
        let mut values = own_values(self.alloc, flow, &home.store)?;
        append_all(&mut values, home.kept.as_slice())?;
        Ok(FlowOutcome { values })
    }
}

impl RankProgram for FlowProgram {
    type Outcome = FlowOutcome;

    ghost fits = { λ p ranks. p.ranks ≡ ranks };

    ghost so_far = { λ p rank said begun. IsUnderWay (forms p.ranks) p.flow said begun };

    ghost follows = { λ p rank said outcome. Follows (forms p.ranks) p.flow said outcome.values.items };

    fn run<A: Adlb>(&self, rank: RankName, link: &mut A) -> Result<FlowOutcome, Trouble> {
        match &self.flow {
            Some(flow) => self.run_home(link, flow),
            None => self.run_away(link),
        }
    }
}
