//! What is heard of the actor that is tried.

use crate::cast::CALLER;
use adlb_unit::{Message, Trouble};

/// What a letter says, as far as a test looks at it.
#[derive(Clone, Copy, PartialEq)]
pub enum Heard {
    Put,
    Keep,
    Close,
    Finish,
    Gone(Trouble),
    Accepted,
    Granted,
    Broken(Trouble),
    Ask,
    Query,
    Yes,
    Unit,
    Token,
    Abort { trouble: Trouble, absent: u32 },
    Other,
    /// No more letters come.
    End,
}

/// What the actor hears of the one that is tried by a letter of the actor `from`. All but the caller's come from the one that is tried.
pub fn heard_of(from: u32, tried: u32, message: &Message) -> Heard {
    match message {
        _ if from == CALLER => Heard::End,
        _ if from != tried => Heard::Other,
        Message::Put { .. } => Heard::Put,
        Message::KeepCommon { .. } => Heard::Keep,
        Message::CloseBatch { .. } => Heard::Close,
        Message::Finish => Heard::Finish,
        Message::Gone { trouble } => Heard::Gone(*trouble),
        Message::Accepted { .. } => Heard::Accepted,
        Message::Grant { .. } => Heard::Granted,
        Message::Broken { trouble } => Heard::Broken(*trouble),
        Message::Ask { .. } => Heard::Ask,
        Message::PushQuery { .. } => Heard::Query,
        Message::PushYes { .. } => Heard::Yes,
        Message::PushUnit { .. } => Heard::Unit,
        Message::Token { .. } => Heard::Token,
        Message::Abort { trouble, absent } => Heard::Abort {
            trouble: *trouble,
            absent: *absent,
        },
        _ => Heard::Other,
    }
}
