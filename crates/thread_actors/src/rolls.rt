//! Which ranks wait for a server, and which are over.

ghost use Rattle.std.specs.Prelude.{◌≡◌, ◌<◌, ◌-◌, ◌==◌, ◌||◌, ℕ, Bool, false, true, nat_lt, not, Some, slice_get};
ghost use Rattle.thread_actors.specs.inside.Serving.{GoesOn, IsRoll};
ghost use Rattle.thread_actors.specs.ServerJobs.{awaits_answer, ends_rank};

use adlb_unit::{Config, Letter, Message, RANK_LIMIT, Rank};
use server_core::ServerState;

// By rank, for a server that a letter breaks: it waits for the server; and no more letters come from it.
#[derive(Drop)]
pub(crate) struct Roll {
    pub(crate) waits: [bool; RANK_LIMIT as usize],
    pub(crate) over: [bool; RANK_LIMIT as usize],
}

impl Roll {
    // As it is when this letter of the actor of this number comes to the server.
    pub(crate) fn at(state: &ServerState, config: &Config, from: u32, letter: &Letter) -> Roll
        requires { state.now.config ≡ config.now }
        ensures { IsRoll config.now state.now (record { from = from; letter = letter.now }) result.waits result.over }
    {
        let asks = awaits_answer(&letter.message);
        let mut roll = Roll {
            waits: [false; RANK_LIMIT as usize],
            over: [false; RANK_LIMIT as usize],
        };
        for number in 0..config.ranks {
            let rank = Rank(number);
            roll.waits[number as usize] = state.is_waiting(rank) || from == number && asks;
            roll.over[number as usize] = state.has_finished(rank);
        }
        roll.note(config, from, &letter.message);
        roll
    }

    // Which ranks are over after this letter of the actor of this number.
    pub(crate) fn note(&mut self, config: &Config, from: u32, message: &Message)
        ensures over { (k : ℕ) (b : Bool) → k < config.now.ranks → slice_get self.old.over k ≡ Some b →
            slice_get self.new.over k ≡ Some (b || ends_rank config.now from message.now k) }
        ensures waits { self.new.waits ≡ self.old.waits }
    {
        match message {
            Message::Finish | Message::Gone { .. } => self.set_over(from),
            Message::Abort { absent, .. } => {
                if from >= config.ranks {
                    self.set_absent(config.ranks, *absent);
                }
            }
            _ => {}
        }
    }

    // No more letters come from the last ranks, so many: they were not started.
    fn set_absent(&mut self, ranks: u32, absent: u32)
        ensures over { (k : ℕ) (b : Bool) → k < ranks → slice_get self.old.over k ≡ Some b →
            slice_get self.new.over k ≡ Some (b || not (nat_lt k (ranks - absent))) }
        ensures waits { self.new.waits ≡ self.old.waits }
    {
        for number in ranks.saturating_sub(absent)..ranks {
            self.set_over(number);
        }
    }

    // No more letters come from the rank of this number, if it is one.
    fn set_over(&mut self, number: u32)
        ensures over { (k : ℕ) (b : Bool) → slice_get self.old.over k ≡ Some b →
            slice_get self.new.over k ≡ Some (b || (number == k)) }
        ensures waits { self.new.waits ≡ self.old.waits }
    {
        if number < RANK_LIMIT {
            self.over[number as usize] = true;
        }
    }

    // The rank of this number waits for the server.
    pub(crate) fn is_waiting(&self, number: u32) -> bool
        ensures { (b : Bool) → slice_get self.now.waits number ≡ Some b → result ≡ b }
    {
        self.waits.get(number as usize) == Some(&true)
    }

    // More letters may come from one of the ranks.
    pub(crate) fn goes_on(&self, ranks: u32) -> bool
        ensures going { result ≡ true → GoesOn ranks self.now.over }
        ensures through { result ≡ false → (k : ℕ) (b : Bool) → k < ranks → slice_get self.now.over k ≡ Some b → b ≡ true }
    {
        for number in 0..ranks {
            if self.over.get(number as usize) == Some(&false) {
                return true;
            }
        }
        false
    }
}

// A rank that sends this message waits for its answer.
pub(crate) fn awaits_answer(message: &Message) -> bool
    ensures { result ≡ awaits_answer message.now }
{
    matches!(
        message,
        Message::Put { .. }
            | Message::Reserve { .. }
            | Message::Try { .. }
            | Message::Fetch { .. }
            | Message::FetchCommon { .. }
            | Message::KeepCommon { .. }
            | Message::CloseBatch { .. }
            | Message::Count { .. }
            | Message::Done { .. }
    )
}
