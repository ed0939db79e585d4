//! All mailboxes of a run: how they are made, and what is known once they are closed.

ghost use Rattle.std.specs.Prelude.{◌≡◌, ◌<◌, ℕ, All, [], length, map, vec_len, IfOk, slice_get, Some};
ghost use mathlib.Core.List.{IsPrefix};
ghost use Rattle.rank_mail.specs.inside.{Agrees, all_closed};
ghost use Rattle.rank_mail.specs.Mailboxes.{ClosedModel, InboxModel, Place, PostModel, fresh_inbox, fresh_post, got_on, letters_of, places_of, sent_on, sent_to};

use crate::inboxes::Inbox;
use crate::posts::Post;
use adlb_unit::NoMemory;
use std::alloc::{AllocError, Global};
use std::marker::Model;

// A mailbox for each of `count` actors, without senders.
fn inboxes(alloc: Global, count: u32, capacity: usize) -> Result<Vec<Inbox>, AllocError>
    requires { 0 < capacity }
    ensures len { IfOk result (λ v. vec_len v ≡ count) }
    ensures fresh { IfOk result (λ v. v.items ≡ map (fresh_inbox 0) (places_of v.items)) }
    ensures capacity { IfOk result (λ v. All (λ (b : InboxModel). b.place.capacity ≡ capacity) v.items) }
{
    let mut all = Vec::new(alloc);
    for _ in 0..count {
        let inbox = Inbox::new(alloc, capacity)?;
        all.push(inbox)?;
    }
    Ok(all)
}

// As `mailboxes`.
fn make(alloc: Global, count: u32, capacity: usize) -> Result<(Vec<Post>, Vec<Inbox>), AllocError>
    requires { 0 < capacity }
    ensures len { IfOk result (λ r. (vec_len r.0 ≡ count) × (vec_len r.1 ≡ count)) }
    ensures inboxes { IfOk result (λ r. r.1.items ≡ map (fresh_inbox count) (places_of r.1.items)) }
    ensures capacity { IfOk result (λ r. All (λ (p : Place). p.capacity ≡ capacity) (places_of r.1.items)) }
    ensures posts { IfOk result (λ r. (k : ℕ) (p : PostModel) → slice_get r.0.items k ≡ Some p → p ≡ fresh_post k (places_of r.1.items)) }
{
    let mut inboxes = inboxes(alloc, count, capacity)?;
    let mut posts = Vec::new(alloc);
    for number in 0..count {
        let post = Post::new(alloc, &mut inboxes, number)?;
        posts.push(post)?;
    }
    Ok((posts, inboxes))
}

/// A mailbox for each of `count` actors, with room for `capacity` letters, and for each actor its post. Post `i` is the
/// sender `i` of every mailbox, inbox `i` the receiver of the mailbox `i`. Its only error is `NoMemory`.
pub fn mailboxes(
    alloc: Global,
    count: u32,
    capacity: u32,
) -> Result<(Vec<Post>, Vec<Inbox>), NoMemory>
    requires { 0 < capacity }
    ensures len { IfOk result (λ r. (vec_len r.0 ≡ count) × (vec_len r.1 ≡ count)) }
    ensures inboxes { IfOk result (λ r. r.1.items ≡ map (fresh_inbox count) (places_of r.1.items)) }
    ensures capacity { IfOk result (λ r. All (λ (p : Place). p.capacity ≡ capacity) (places_of r.1.items)) }
    ensures posts { IfOk result (λ r. (k : ℕ) (p : PostModel) → slice_get r.0.items k ≡ Some p → p ≡ fresh_post k (places_of r.1.items)) }
{
    match make(alloc, count, capacity as usize) {
        Ok(made) => Ok(made),
        Err(_) => Err(NoMemory),
    }
}

// Each inbox compares what it got with what was sent.
fn compare_all(inboxes: &mut Vec<Inbox>)
    ensures same { inboxes.new.items ≡ inboxes.old.items }
    ensures agree { (j : ℕ) (b : InboxModel) → slice_get inboxes.old.items j ≡ Some b → Agrees b }
{
    for k in 0..inboxes.len() {
        inboxes[k].compare();
    }
}

/// Mailboxes that are closed. Contracts see, for each link, what was sent and what was got (`sent_on`, `got_on`).
#[derive(Drop)]
pub struct Closed {
    inboxes: Vec<Inbox>,
}

impl Model for Closed {
    ghost Value = { ClosedModel };

    ghost view = { λ c. record { got = map (λ b. b.got) c.inboxes.items; sent = map (λ b. b.closed) c.inboxes.items } };
}

// All posts are closed, one after the other.
fn close_posts(posts: Vec<Post>, inboxes: Vec<Inbox>) -> Vec<Inbox>
    requires posts { (k : ℕ) (p : PostModel) → slice_get posts.items k ≡ Some p → (p.number ≡ k) × (p.places ≡ places_of inboxes.items) }
    requires fresh { (k : ℕ) (b : InboxModel) → slice_get inboxes.items k ≡ Some b → b.closed ≡ [] }
    ensures all { result.items ≡ all_closed inboxes.items posts.items }
    ensures agree { (j : ℕ) (b : InboxModel) → slice_get result.items j ≡ Some b → Agrees b }
{
    let mut all = inboxes;
    for post in posts {
        post.close(&mut all);
    }
    compare_all(&mut all);
    all
}

/// Closes all mailboxes of one making: the posts by number, and the inboxes in the same order. On each link what was got is
/// then a prefix of what was sent. It takes no memory.
pub fn close(posts: Vec<Post>, inboxes: Vec<Inbox>) -> Closed
    requires posts { (k : ℕ) (p : PostModel) → slice_get posts.items k ≡ Some p → (p.number ≡ k) × (p.places ≡ places_of inboxes.items) }
    requires fresh { (k : ℕ) (b : InboxModel) → slice_get inboxes.items k ≡ Some b → b.closed ≡ [] }
    ensures sent { (from to : ℕ) (p : PostModel) → slice_get posts.items from ≡ Some p → to < length inboxes.items → sent_on result from to ≡ sent_to p to }
    ensures got { (from to : ℕ) (b : InboxModel) → slice_get inboxes.items to ≡ Some b → got_on result from to ≡ letters_of from b.got }
    ensures prefix { (from to : ℕ) → from < length posts.items → to < length inboxes.items → IsPrefix (got_on result from to) (sent_on result from to) }
{
    Closed {
        inboxes: close_posts(posts, inboxes),
    }
}
