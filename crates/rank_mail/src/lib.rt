//! Mailboxes, one for each actor: from each sender letters arrive in the order in which they were sent, none twice, none
//! lost in between and none invented, whatever threads do.
//!
//! It stands on the letters of `adlb_unit` and on the channels under a rule of `crossbeam_channel`. A mailbox is a
//! bounded channel under a rule: the letters that one sender sent are those that were got from it, and then those
//! that the channel holds. `specs/Mailboxes.antt` says what contracts see of posts, inboxes and mailboxes that are
//! closed. `specs/inside.antt` states the rule.
#![tactic(auto)]

mod closing;
mod inboxes;
mod lines;
mod posted;
mod posts;
mod rule;

pub use closing::{Closed, close, mailboxes};
pub use inboxes::Inbox;
pub use posted::{Known, Posted};
pub use posts::Post;
