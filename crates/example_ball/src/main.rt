//! A ball goes once round the ranks. When rank 0 has it back, it says that the game is done.
#![tactic(auto)]

ghost use Rattle.std.specs.Prelude.{◌≡◌, ◌<◌, ◌≤◌, IfOk, OnOk, false, length};
ghost use Rattle.adlb.specs.Calls.{Stays};
ghost use Rattle.adlb.specs.Ranks.{IsRunning};

use adlb::units::Rank as RankName;
use adlb::{Adlb, Payload, Rank, RankProgram, Reply, Taken, Target, Trouble, Types, WorkType};
use std::alloc::Global;

fn main(rt: HostRuntime) -> Result<(), adlb::Failure> {
    let alloc = rt.alloc();
    let throws = adlb::run_each(alloc, rt, adlb::Settings::default(), Player { alloc })?.outcomes;
    println!(rt; "throws of each rank: {throws:?}")?;
    Ok(())
}

const BALL: WorkType = WorkType(0);

/// A rank that plays. Its outcome is how often it threw the ball.
#[derive(Clone, Copy)]
pub struct Player {
    pub alloc: Global,
}

impl Player {
    // Throws the ball to this rank: it is put for that rank alone. It says whether a server took it.
    fn throw<R: Rank>(&self, link: &mut R, to: RankName) -> Result<bool, Trouble>
        requires running { IsRunning (R.link link.old) }
        requires rank { to.0 < (R.link link.old).seat.ranks }
        ensures longer { OnOk result (length (R.link link.old).said < length (R.link link.new).said) }
        ensures stays { Stays (R.link link.old) (R.link link.new) result }
    {
        let ball = Payload::from_vec(Vec::new(self.alloc));
        let reply = link.put(BALL, 0, Target::Only(to), None, ball)?;
        Ok(matches!(reply, Reply::Accepted))
    }

    // Puts a red ball for this rank itself, in a batch, and says how many balls lie at its home.
    fn bring<R: Rank>(&self, link: &mut R, me: RankName) -> Result<u64, Trouble>
        requires running { IsRunning (R.link link.old) }
        requires closed { (R.link link.old).batch ≡ false }
        requires rank { me.0 < (R.link link.old).seat.ranks }
        ensures stays { Stays (R.link link.old) (R.link link.new) result }
    {
        let Ok(paint) = Payload::copy(self.alloc, b"red") else {
            return Err(Trouble::Memory);
        };
        link.batch(
            paint,
            |rank: &mut R| -> Result<bool, Trouble>
                requires { IsRunning (R.link rank.old) × (me.0 < (R.link rank.old).seat.ranks) }
                ensures { Stays (R.link rank.old) (R.link rank.new) result }
            { self.throw(rank, me) },
        )?;
        Ok(link.count(BALL)?.free)
    }

    // Waits for the ball and throws it to the next rank. If it went round already, the game is done. It says whether it threw.
    fn turn<R: Rank>(&self, link: &mut R, next: RankName, is_back: bool) -> Result<bool, Trouble>
        requires running { IsRunning (R.link link.old) }
        requires next { next.0 < (R.link link.old).seat.ranks }
        ensures longer { OnOk result (length (R.link link.old).said < length (R.link link.new).said) }
        ensures stays { Stays (R.link link.old) (R.link link.new) result }
    {
        match link.take(&Types::any())? {
            Taken::Unit(..) => {}
            Taken::NoneNow | Taken::Ended(_) => return Ok(false),
        }
        if is_back {
            link.done()?;
            return Ok(false);
        }
        self.throw(link, next)
    }
}

impl RankProgram for Player {
    type Outcome = u64;

    fn run<A: Adlb>(&self, me: RankName, link: &mut A) -> Result<u64, Trouble> {
        let ranks = Rank::ranks(link);
        let next = RankName((me.0 + 1) % ranks);
        if me.0 == 0 {
            self.bring(link, me)?;
        }
        let mut throws = 0;
        'turns: while self.turn(link, next, me.0 == 0 && throws != 0)? {
            throws += 1;
        }
        Ok(throws)
    }
}
