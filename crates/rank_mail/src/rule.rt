//! The rule of a mailbox, and its five steps: each letter arrives once, and in the order of its sender.

ghost use Rattle.std.specs.Prelude.{◌≡◌, ◌<◌, ℕ, List, [], true, length, IfOk};
ghost use Rattle.crossbeam_channel.specs.Claims.{view, IsSeatAt};
ghost use Rattle.crossbeam_channel.specs.Ends.{receives_on, ruled_capacity, sends_on};
ghost use Rattle.rank_mail.specs.inside.{sender, receiver, spent, after_send, after_receive, after_split, after_join, Compares, Delivers};

use crate::posted::{Known, Posted};
use adlb_unit::Letter;
use crossbeam_channel::protocol::{Join, Lesson, Outcome, Protocol, Split};
use crossbeam_channel::{Pass, RuledReceiver, RuledSender, bounded_with};
use std::alloc::{AllocError, Global};
use std::hint::spin_loop;
use std::sync::Wait;
use std::thread::yield_now;

/// The rule itself.
pub struct InOrder;

impl Protocol<Posted, Known> for InOrder {
    ghost holds = { Delivers };

    ghost first = { receiver };
}

/// A sender is split off.
pub struct Another;

impl Split<Known> for Another {
    ghost left = { after_split };

    ghost right = { λ v. sender v.senders [] };
}

/// A sender's pass is joined to the receiver's.
pub struct Closes;

impl Join<Known> for Closes {
    ghost both = { after_join };

    ghost spent = { spent };
}

/// A letter is sent.
pub struct Sends;

impl Outcome<Posted, Known> for Sends {
    ghost then = { λ v x w. w ≡ after_send v x.letter };
}

impl Lesson<Posted, Known> for Sends {
    ghost fact = { λ v items. Unit {0} };
}

/// A letter is received, of one of the senders.
pub struct Receives;

impl Outcome<Posted, Known> for Receives {
    ghost then = { λ v x w. (w ≡ after_receive v x) × (x.from < v.senders) };
}

impl Lesson<Posted, Known> for Receives {
    ghost fact = { λ v items. Unit {0} };
}

/// What was got is compared with what was sent.
pub struct Total;

impl Lesson<Posted, Known> for Total {
    ghost fact = { Compares };
}

pub type MailSender = RuledSender<Posted, Known, InOrder>;

pub type MailReceiver = RuledReceiver<Posted, Known, InOrder>;

pub type MailPass = Pass<Posted, Known>;

/// A mailbox for `capacity` letters, without senders, and the receiver's pass.
pub fn mailbox(
    alloc: Global,
    capacity: usize,
) -> Result<(MailSender, MailReceiver, MailPass), AllocError>
    requires { 0 < capacity }
    ensures made { IfOk result (λ r. (receives_on r.1 ≡ sends_on r.0) × IsSeatAt (sends_on r.0) r.2 × (view r.2 ≡ receiver)) }
    ensures capacity { IfOk result (λ r. ruled_capacity (sends_on r.0) ≡ capacity) }
{
    bounded_with::<Posted, Known, InOrder, Global>(alloc, capacity)
}

/// The pass of a new sender, of the next number.
pub fn split_off(end: &MailSender, pass: &mut MailPass) -> MailPass
    requires seat { IsSeatAt (sends_on end.now) pass.old }
    requires gets { (view pass.old).gets ≡ true }
    ensures seat { IsSeatAt (sends_on end.now) pass.new × IsSeatAt (sends_on end.now) result }
    ensures view { (view pass.new ≡ after_split (view pass.old)) × (view result ≡ sender (view pass.old).senders []) }
{
    end.another::<Another>(pass)
}

/// Sends a letter, and waits for room. One that the channel hands back is sent again.
pub fn send<R: Wait>(rt: &R, end: &MailSender, pass: &mut MailPass, posted: Posted)
    requires seat { IsSeatAt (sends_on end.now) pass.old }
    requires sends { (view pass.old).sends ≡ true }
    requires from { posted.from ≡ (view pass.old).from }
    ensures seat { IsSeatAt (sends_on end.now) pass.new }
    ensures view { view pass.new ≡ after_send (view pass.old) posted.letter }
{
    let mut back = posted;
    for _ in rt.forever() {
        match end.send_as::<Sends, R>(rt, pass, back) {
            Ok(()) => return,
            Err(e) => back = e.into_inner(),
        }
    }
    unreachable!()
}

/// How often a receive looks for a letter before it lets other threads run. An answer comes mostly within that time, if its
/// sender runs.
const LOOKS: u32 = 32;

/// How often it looks in all before it sleeps. A thread that sleeps is slow to wake, and waking it takes its sender's time.
const TRIES: u32 = 96;

// Lets the processor rest after an early try, and other threads run after a later one.
fn pause(tries: u32) {
    if tries < LOOKS {
        spin_loop();
    } else {
        yield_now();
    }
}

/// Receives a letter. It looks for one several times, and then sleeps until one comes.
pub fn receive<R: Wait>(rt: &R, end: &MailReceiver, pass: &mut MailPass) -> Posted
    requires seat { IsSeatAt (receives_on end.now) pass.old }
    requires gets { (view pass.old).gets ≡ true }
    ensures seat { IsSeatAt (receives_on end.now) pass.new }
    ensures view { view pass.new ≡ after_receive (view pass.old) result }
    ensures from { result.from < (view pass.old).senders }
{
    for tries in 0..TRIES {
        if let Ok(posted) = end.try_recv_as::<Receives, R>(rt, pass) {
            return posted;
        }
        pause(tries);
    }
    wait_for(rt, end, pass)
}

// Receives a letter, and waits for one.
fn wait_for<R: Wait>(rt: &R, end: &MailReceiver, pass: &mut MailPass) -> Posted
    requires seat { IsSeatAt (receives_on end.now) pass.old }
    requires gets { (view pass.old).gets ≡ true }
    ensures seat { IsSeatAt (receives_on end.now) pass.new }
    ensures view { view pass.new ≡ after_receive (view pass.old) result }
    ensures from { result.from < (view pass.old).senders }
{
    for _ in rt.forever() {
        if let Ok(posted) = end.recv_as::<Receives, R>(rt, pass) {
            return posted;
        }
    }
    unreachable!()
}

/// Joins the pass of the sender whose number is the next to be closed.
pub fn join(end: &MailSender, pass: &mut MailPass, other: MailPass)
    requires seat { IsSeatAt (sends_on end.now) pass.old × IsSeatAt (sends_on end.now) other }
    requires gets { (view pass.old).gets ≡ true }
    requires sends { (view other).sends ≡ true }
    requires next { (view other).from ≡ length (view pass.old).closed }
    ensures seat { IsSeatAt (sends_on end.now) pass.new }
    ensures view { view pass.new ≡ after_join (view pass.old) (view other) }
{
    end.absorb::<Closes>(pass, other);
}

/// What each closed sender sent is what was got of it, and then what the mailbox holds of it.
pub fn compare(end: &MailSender, pass: &mut MailPass)
    requires seat { IsSeatAt (sends_on end.now) pass.old }
    requires gets { (view pass.old).gets ≡ true }
    ensures seat { IsSeatAt (sends_on end.now) pass.new }
    ensures view { view pass.new ≡ view pass.old }
    ensures total { (items : List Posted) × Compares (view pass.old) items }
{
    end.learn_as::<Total>(pass);
}
