//! What a desk enters and sends, and the end of all desks.

ghost use Rattle.std.specs.Prelude.{◌≡◌, ◌≤◌, ◌<◌, ◌+◌, ◌^◌, ℕ, length, map, Some, slice_get};
ghost use Rattle.core_run.specs.World.{actors};
ghost use Rattle.actor_desk.specs.Desks.{IsNew};
ghost use Rattle.rank_mail.specs.Mailboxes.{PostModel, fresh_inbox, fresh_post};

use crate::cast::{Others, POOL, enter};
use crate::heard::Heard;
use crate::parts::{Part, Script, is_played};
use crate::says::Says;
use actor_desk::{Desk, Mailing, clear, desks, got};
use adlb_unit::{Actor, Config, NoMemory, Rank};
use rank_mail::{Inbox, Post, mailboxes};
use std::alloc::Global;
use std::marker::Brand;
use std::sync::Wait;
use std::test::Fail;

// The part of server 0 that receives a letter and enters that.
#[derive(Clone, Copy)]
struct Hears {
    from: u32,
    stamp: u64,
}

impl Part for Hears {
    ghost at = { λ part number. Unit {0} };

    fn last(&self, _number: u32) -> Option<Heard> {
        None
    }

    fn play<R: Wait + Copy, M: Mailing>(
        &self,
        rt: R,
        alloc: Global,
        _config: Config,
        _number: u32,
        desk: Desk<M>,
        others: &mut Others<M>,
    ) -> Result<bool, NoMemory> {
        let mut server = desk;
        let heard = hear(&rt, alloc, &mut server);
        others.put_back(server)?;
        Ok(heard? == (self.from, self.stamp))
    }
}

// The next letter, which is entered: its sender and its stamp.
fn hear<R: Wait, M: Mailing>(
    rt: &R,
    alloc: Global,
    server: &mut Desk<M>,
) -> Result<(u32, u64), NoMemory> {
    server.make_room(0)?;
    let (number, letter) = server.receive(rt);
    let stamp = letter.stamp;
    let (cause, letter) = got(Actor::Rank(Rank(number)), letter);
    drop(letter);
    let mut sends = Vec::new(alloc);
    enter(rt, alloc, server, 8, cause, &mut sends);
    drop(sends);
    Ok((number, stamp))
}

#[test]
fn an_event_sends_its_letter(rt: HostRuntime) -> Result<(), Fail> {
    let script = Script {
        number: POOL,
        alone: false,
        said: &[(0, 7, Says::Finish), (0, 8, Says::Finish)],
        then: &[],
        after: &[],
        heard: &[],
        entries: Some(0),
    };
    assert!(rt; is_played(rt, rt.alloc(), &script, &Hears { from: 0, stamp: 7 })?);
    Ok(())
}

#[test]
fn three_desks_are_cleared(rt: HostRuntime) -> Result<(), Fail> {
    assert!(rt; left_of_three(rt.alloc())? == 3);
    Ok(())
}

// How many journals three desks leave.
fn left_of_three(alloc: Global) -> Result<usize, Fail> {
    let config = Config::new(1, 1, 64)?;
    let (posts, inboxes) = mailboxes(alloc, 3, 4)?;
    cleared::<Brand>(alloc, config, posts, inboxes)
}

// The desks are made and closed again. This number of journals is left.
fn cleared<M: Mailing>(
    alloc: Global,
    config: Config,
    posts: Vec<Post>,
    inboxes: Vec<Inbox>,
) -> Result<usize, Fail>
    requires reach { actors config ≤ length M.places }
    requires few { length M.places < 2 ^ 32 }
    requires len { length posts.items ≡ length M.places }
    requires inboxes { inboxes.items ≡ map (fresh_inbox (length M.places)) M.places }
    requires posts { (k : ℕ) (p : PostModel) → slice_get posts.items k ≡ Some p → p ≡ fresh_post k M.places }
{
    let all = desks::<M>(alloc, config, posts, inboxes)?;
    Ok(clear(alloc, all)?.len())
}
