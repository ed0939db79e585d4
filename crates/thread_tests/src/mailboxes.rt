//! Letters between actors.

use adlb_unit::{Letter, Message};
use rank_mail::{Inbox, Post, mailboxes};
use std::alloc::Global;
use std::sync::Wait;
use std::test::Fail;
use std::thread;
use std::thread::{JoinHandle, Threads};
use std::time::{Clock, Duration};

/// Actors that receive, and all actors: the others send.
const RECEIVERS: u32 = 4;

const ACTORS: u32 = 12;

/// How many letters each sender sends, and each receiver receives.
const SENT: u64 = 10_000;

const RECEIVED: u64 = 20_000;

fn letter(place: u64) -> Letter {
    Letter {
        stamp: 1,
        place,
        message: Message::Finish,
    }
}

// Sends a letter, if there is such an actor.
fn send_one<R: Wait>(rt: &R, post: &mut Post, to: u32, place: u64) -> bool {
    if !post.reaches(to) {
        return false;
    }
    post.send(rt, to, letter(place));
    true
}

// The places of the next letters, by their senders.
#[derive(Drop)]
struct Next {
    places: [u64; ACTORS as usize],
}

impl Next {
    fn new() -> Next {
        Next {
            places: [0; ACTORS as usize],
        }
    }

    // The letter is the next of its sender.
    fn is(&mut self, from: u32, letter: &Letter) -> bool {
        match self.places.get_mut(from as usize) {
            Some(place) if *place == letter.place => {
                *place = place.wrapping_add(1);
                true
            }
            _ => false,
        }
    }
}

// The next letter is the next of its sender.
fn is_next<R: Wait>(rt: &R, inbox: &mut Inbox, next: &mut Next) -> bool {
    let (from, letter) = inbox.receive(rt);
    let fits = next.is(from, &letter);
    drop(letter);
    fits
}

// Two letters that are sent to actor 1 arrive in order, from actor 0.
fn two_arrive<R: Wait>(rt: &R, post: &mut Post, inbox: &mut Inbox) -> bool {
    let mut next = Next::new();
    send_one(rt, post, 1, 0)
        && send_one(rt, post, 1, 1)
        && is_next(rt, inbox, &mut next)
        && is_next(rt, inbox, &mut next)
        && next.places[0] == 2
}

#[test]
fn two_letters_arrive_in_order(rt: HostRuntime) -> Result<(), Fail> {
    let (mut posts, mut inboxes) = mailboxes(rt.alloc(), 2, 4)?;
    assert!(rt; two_arrive(&rt, &mut posts[0], &mut inboxes[1]));
    Ok(())
}

// Sends letters to the receivers in turn; to each their places rise from 0.
fn send_all<R: Wait + Clock>(rt: &R, post: &mut Post, pauses: bool) -> bool {
    for number in 0..SENT {
        if !send_one(rt, post, (number % 4) as u32, number / 4) {
            return false;
        }
        if pauses && number % 500 == 0 {
            thread::sleep(rt, Duration::from_micros(200));
        }
    }
    true
}

// Receives all letters. Those of each sender come in order, each once.
fn receive_all<R: Wait>(rt: &R, inbox: &mut Inbox) -> bool {
    let mut next = Next::new();
    for _ in 0..RECEIVED {
        if !is_next(rt, inbox, &mut next) {
            return false;
        }
    }
    true
}

// What the thread of the actor of this number does: it receives, or it sends.
fn work<R: Wait + Clock>(rt: &R, number: usize, post: Post, inbox: Inbox, pauses: bool) -> bool {
    let (mut post, mut inbox) = (post, inbox);
    let fits = has_worked(rt, number, &mut post, &mut inbox, pauses);
    drop(post);
    drop(inbox);
    fits
}

// With these mailboxes, which it is lent: whether each letter is as it should be.
fn has_worked<R: Wait + Clock>(
    rt: &R,
    number: usize,
    post: &mut Post,
    inbox: &mut Inbox,
    pauses: bool,
) -> bool {
    if number < RECEIVERS as usize {
        receive_all(rt, inbox)
    } else {
        send_all(rt, post, pauses)
    }
}

// Starts a thread for each actor, the last first.
fn start_all<R: Threads + Wait + Clock + Copy + Send + 'static>(
    rt: R,
    threads: &mut Vec<JoinHandle<bool>>,
    posts: &mut Vec<Post>,
    inboxes: &mut Vec<Inbox>,
    pauses: bool,
) -> Result<(), Fail> {
    for _ in 0..ACTORS {
        threads.push(start_last(rt, posts, inboxes, pauses)?)?;
    }
    Ok(())
}

// Starts a thread for the last of these actors, which is then no longer among them.
fn start_last<R: Threads + Wait + Clock + Copy + Send + 'static>(
    rt: R,
    posts: &mut Vec<Post>,
    inboxes: &mut Vec<Inbox>,
    pauses: bool,
) -> Result<JoinHandle<bool>, Fail> {
    let post = posts.pop().ok_or("post")?;
    let Some(inbox) = inboxes.pop() else {
        drop(post);
        return Err("inbox".into());
    };
    start(rt, posts.len(), post, inbox, pauses)
}

// Starts a thread for the actor of this number.
fn start<R: Threads + Wait + Clock + Copy + Send + 'static>(
    rt: R,
    number: usize,
    post: Post,
    inbox: Inbox,
    pauses: bool,
) -> Result<JoinHandle<bool>, Fail> {
    match thread::spawn(&rt, move || work(&rt, number, post, inbox, pauses)) {
        Ok(started) => Ok(started),
        Err(refused) => {
            drop(refused);
            Err("thread".into())
        }
    }
}

// Each thread ends, and answers that it is so.
fn all_end_well<R: Threads>(rt: &R, threads: Vec<JoinHandle<bool>>) -> bool {
    let mut all = true;
    for thread in threads {
        all = thread.join(rt) && all;
    }
    all
}

// Eight threads send to the mailboxes of four others.
fn all_arrive<R: Threads + Wait + Clock + Copy + Send + 'static>(
    rt: R,
    alloc: Global,
    pauses: bool,
) -> Result<bool, Fail> {
    let (mut posts, mut inboxes) = mailboxes(alloc, ACTORS, 4)?;
    let mut threads = Vec::new(alloc);
    start_all(rt, &mut threads, &mut posts, &mut inboxes, pauses)?;
    Ok(all_end_well(&rt, threads))
}

/// What eight threads send, and whether they pause.
const EIGHT: &[(&str, bool)] = &[
    ("letters of eight threads", false),
    ("letters of eight threads that pause", true),
];

#[test]
fn letters_of_eight_threads_arrive_in_order(rt: HostRuntime) -> Result<(), Fail> {
    for (shows, pauses) in EIGHT {
        assert!(rt; all_arrive(rt, rt.alloc(), *pauses)?, "{shows}");
    }
    Ok(())
}
