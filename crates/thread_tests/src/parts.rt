//! What one actor does at its desk, while the others are played by hand.

ghost use Rattle.std.specs.Prelude.{◌≡◌, ◌≤◌, ◌<◌, ◌+◌, ℕ, length};
ghost use Rattle.actor_desk.specs.Desks.{IsNew};
ghost use Rattle.rank_mail.specs.Mailboxes.{places_of};

use crate::cast::{Mail, Others, cast};
use crate::heard::Heard;
use crate::says::Line;
use actor_desk::{Desk, Mailing};
use adlb_unit::{Config, NoMemory, STAMP_LIMIT};
use std::alloc::Global;
use std::marker::Brand;
use std::sync::Wait;
use std::test::Fail;
use thread_actors::ActorFault;

/// Why an actor failed, if it did, and whether it met that itself.
pub type Fault = (Option<ActorFault>, bool);

/// Its next event would have the first stamp that is not given.
pub const OWN: Fault = (Some(ActorFault::TooLong { stamp: STAMP_LIMIT }), true);

/// It was told that of another's.
pub const TOLD: Fault = (Some(ActorFault::TooLong { stamp: STAMP_LIMIT }), false);

/// It was told of memory.
pub const MEMORY: Fault = (Some(ActorFault::Memory), false);

/// Which actor is tried, by its number, and whether its run has server 0 alone. What is said to it beforehand, in three parts. What
/// the others hear of it, each by its number, before their last letters. How many entries there are then, if it leaves its desk.
#[derive(Clone, Copy)]
pub struct Script<'a> {
    pub number: u32,
    pub alone: bool,
    pub said: &'a [Line],
    pub then: &'a [Line],
    pub after: &'a [Line],
    pub heard: &'a [(u32, Heard)],
    pub entries: Option<u64>,
}

/// The part of an actor.
pub trait Part {
    // It is the part of the actor of this number.
    ghost at: { Self → ℕ → Type 0 };

    /// What the actor of this number hears last of the one that is tried.
    fn last(&self, number: u32) -> Option<Heard>;

    /// Whether the actor of this number is as wanted, in what it does and how it ends. If it ends, it leaves its desk with the others.
    fn play<R: Wait + Copy, M: Mailing>(
        &self,
        rt: R,
        alloc: Global,
        config: Config,
        number: u32,
        desk: Desk<M>,
        others: &mut Others<M>,
    ) -> Result<bool, NoMemory>
        requires at { at self.now number }
        requires ranks { config.ranks ≡ 3 }
        requires number { number < config.ranks + config.servers }
        requires desk { IsNew config number desk };
}

/// The actor plays its part, and all others hear what stands in the script, and nothing else.
pub fn is_played<R: Wait + Copy, P: Part>(
    rt: R,
    alloc: Global,
    script: &Script,
    part: &P,
) -> Result<bool, Fail>
    requires at { P.at part.now script.now.number }
{
    let config = Config::new(3, if script.alone { 1 } else { 2 }, 64)?;
    if script.number >= config.ranks + config.servers {
        return Err("no such actor".into());
    }
    Ok(is_played_over::<R, Brand, P>(rt, alloc, config, script, part, Mail::new(alloc)?)?)
}

// As `is_played`, over these mailboxes.
fn is_played_over<R: Wait + Copy, M: Mailing, P: Part>(
    rt: R,
    alloc: Global,
    config: Config,
    script: &Script,
    part: &P,
    mail: Mail,
) -> Result<bool, NoMemory>
    requires at { P.at part.now script.now.number }
    requires number { script.now.number < config.ranks + config.servers }
    requires ranks { config.ranks ≡ 3 }
    requires few { config.servers ≤ 2 }
    requires mail { M.places ≡ places_of mail.inboxes.items }
{
    let (desk, mut others) = cast::<M>(alloc, config, mail, script.number)?;
    let fits = plays(rt, alloc, config, script, part, desk, &mut others);
    drop(others);
    fits
}

// The actor plays its part at this desk, these hear what stands in the script, and so many entries are there then.
fn plays<R: Wait + Copy, M: Mailing, P: Part>(
    rt: R,
    alloc: Global,
    config: Config,
    script: &Script,
    part: &P,
    desk: Desk<M>,
    others: &mut Others<M>,
) -> Result<bool, NoMemory>
    requires at { P.at part.now script.now.number }
    requires number { script.now.number < config.ranks + config.servers }
    requires ranks { config.ranks ≡ 3 }
    requires few { config.servers ≤ 2 }
    requires seven { length M.places ≡ 7 }
    requires desk { IsNew config script.now.number desk }
{
    if say(&rt, alloc, script, others).is_err() {
        drop(desk);
        return Err(NoMemory);
    }
    let fits = part.play(rt, alloc, config, script.number, desk, others)?;
    let told = are_told(&rt, config, script, part, others);
    Ok(others.have_entered(alloc, script.entries)? && told && fits)
}

// All that the script says is put into the mailbox of the actor.
fn say<R: Wait, M: Mailing>(
    rt: &R,
    alloc: Global,
    script: &Script,
    others: &mut Others<M>,
) -> Result<(), NoMemory> {
    others.say_all(rt, alloc, script.said)?;
    others.say_all(rt, alloc, script.then)?;
    others.say_all(rt, alloc, script.after)
}

// Each other actor heard what stands in the script, then its last letter, if it gets one, and nothing else.
fn are_told<R: Wait, M: Mailing, P: Part>(
    rt: &R,
    config: Config,
    script: &Script,
    part: &P,
    others: &mut Others<M>,
) -> bool
    requires ranks { config.ranks ≡ 3 }
    requires few { config.servers ≤ 2 }
{
    for number in 0..config.ranks + config.servers {
        let last = part.last(number);
        if number != script.number && !others.heard(rt, number, script.heard, last) {
            return false;
        }
    }
    true
}
