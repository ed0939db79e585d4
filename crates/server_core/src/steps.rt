//! One step of a server.

ghost use Rattle.std.specs.Prelude.{◌≡◌, ◌≤◌, ◌<◌, ◌+◌, ℕ, ◌↔◌, length, None, Some, Err, IsSome, IfOk, IfErr, IfSome, OnOk, OnErr};
ghost use Rattle.std.specs.Option.{option_map};
ghost use Rattle.server_components.specs.Parked.{IsOther};
ghost use Rattle.adlb_unit.specs.Limits.{stamp_limit};
ghost use Rattle.server_core.specs.Failing.{finishing, with_finished};
ghost use Rattle.server_core.specs.Out.{HasRoom, IsWithin, Out, event_letters, going_on, made, planned};
ghost use Rattle.server_law.specs.Expected.{IsAwaited, IsAwaitedFrom};
ghost use Rattle.server_law.specs.Plan.{Plan};
ghost use Rattle.server_law.specs.State.{Kept, ServerModel};
ghost use Rattle.server_law.specs.Step.{acts, heard_finish, next_stamp, raises, rank_rule, rule, serve, server_rule};

use crate::outgoing::{Outgoing, Spare};
use crate::states::ServerState;
use adlb_unit::{Actor, Letter, Message, NoMemory, Rank, STAMP_LIMIT, Sending, Server, Trouble};
use bag_ledger::Entry;

/// What a step gave: its stamp, the letters that go out, and the entries for the ledger, each in order.
#[derive(Drop)]
pub struct Step {
    pub stamp: u64,
    pub sends: Vec<Sending>,
    pub entries: Vec<Entry>,
}

impl ServerState {
    /// Handles a letter, as `serve` says. The server is not broken, and the letter is expected. It fails with `TooLong`
    /// exactly when the event's stamp would reach `2^48`, which is tested first; its only other error is `Memory`. After a
    /// failure the server is broken, and a Finish letter counts as handled. What it gives lies in the lists that it is lent,
    /// emptied first: they take memory only if they have no room for it. A failure leaves all that the server kept as it was,
    /// but for that Finish letter: no rank was granted or answered, and each that waited still waits.
    pub fn step(&mut self, spare: Spare, from: Actor, letter: Letter) -> Result<Step, Trouble>
        requires whole { self.old.trouble ≡ None }
        requires expected { IsSome (serve self.old from letter) }

        ensures served { IfOk result (λ step. serve self.old from letter ≡
            Some (record { state = self.new; sends = step.sends.items; entries = step.entries.items })) }
        ensures stamp { IfOk result (λ step. step.stamp ≡ next_stamp self.old letter) }
        ensures too_long { (n : ℕ) → (result ≡ Err (Trouble.TooLong n)) ↔
            ((stamp_limit ≤ next_stamp self.old letter) × (n ≡ next_stamp self.old letter)) }

        // What is left after a failure.
        ensures broken { IfErr result (λ trouble. self.new.trouble ≡ Some trouble) }
        ensures kept { IfErr result (λ trouble. self.new.kept ≡
            record self.old.kept { finished = heard_finish self.old.kept.finished from letter.message }) }

        ensures config { OnErr result (self.new.config ≡ self.old.config) }
        ensures me { OnErr result (self.new.me ≡ self.old.me) }
    {
        let finishes = finishing(from, &letter.message);
        let stamp = self.clock.max(letter.stamp) + 1;
        if stamp >= STAMP_LIMIT {
            return Err(self.fail(finishes, Trouble::TooLong { stamp }));
        }
        // An event answers its letter, or enters that a unit has come. Or it asks a server, frees a part, or says
        // what a push needs. Or it enters a verdict and tells each of at most seven other servers. It answers each
        // rank that waits, or hints for each wish. Then it gives notice, or starts a check.
        let (waiting, wishes) = self.waiting_and_wishes();
        let Ok(mut out) = Outgoing::new(spare, waiting + wishes + 9) else {
            return Err(self.fail(finishes, Trouble::Memory));
        };
        self.tick(stamp, raises(&letter.message));
        if self.handle(from, letter.message, &mut out).is_err() {
            return Err(self.fail(finishes, Trouble::Memory));
        }
        let (sends, entries) = out.parts();
        Ok(Step {
            stamp,
            sends,
            entries,
        })
    }

    // How many ranks wait here, and how many wishes are kept: fewer than the letters of an event.
    fn waiting_and_wishes(&self) -> (usize, usize)
        ensures waiting { result.0 ≡ length self.now.kept.parked.waiting }
        ensures wishes { result.1 ≡ length self.now.kept.parked.wishes }
        ensures few { result.0 + result.1 + 9 ≤ event_letters }
    {
        self.parked.counts()
    }

    // Handles what a letter says, and then what follows the event.
    fn handle(&mut self, from: Actor, message: Message, out: &mut Outgoing) -> Result<(), NoMemory>
        requires actor { IsWithin self.old.config from }
        requires expected { IsSome (rule self.old from message) }
        requires fresh { self.old.kept.queue.arrivals < self.old.clock }
        requires young { self.old.kept.ring.check < self.old.clock }
        requires room { HasRoom self.old out.old 9 }

        ensures ok { OnOk result (option_map (λ list. going_on out.old list self.old) (acts self.old from message) ≡
            Some (made self.new out.new)) }
        ensures err { OnErr result (self.new ≡ self.old) }
    {
        self.follow_rule(from, message, out)?;
        self.end_event(out);
        Ok(())
    }

    // Does what the rule of the letter says.
    fn follow_rule(
        &mut self,
        from: Actor,
        message: Message,
        out: &mut Outgoing,
    ) -> Result<(), NoMemory>
        requires actor { IsWithin self.old.config from }
        requires expected { IsSome (rule self.old from message) }
        requires fresh { self.old.kept.queue.arrivals < self.old.clock }
        requires room { HasRoom self.old out.old 9 }

        ensures ok { OnOk result ((p : Plan) → rule self.old from message ≡ Some p →
            made self.new out.new ≡ planned out.old p self.old) }
        ensures room { OnOk result (HasRoom self.new out.new 1) }
        ensures err { OnErr result (self.new ≡ self.old) }
    {
        match from {
            Actor::Rank(from) => self.follow(from, message, out)?,
            Actor::Server(from) => self.follow_server(from, message, out)?,
        }
        Ok(())
    }

    // Does what the rule of a rank's letter says.
    fn follow(&mut self, from: Rank, message: Message, out: &mut Outgoing) -> Result<(), NoMemory>
        requires rank { from.0 < self.old.config.ranks }
        requires awaited { IsAwaited self.old from message }
        requires fresh { self.old.kept.queue.arrivals < self.old.clock }
        requires room { HasRoom self.old out.old 3 }

        ensures ok { OnOk result ((p : Plan) → rank_rule self.old from message ≡ Some p →
            made self.new out.new ≡ planned out.old p self.old) }
        ensures room { OnOk result (HasRoom self.new out.new 1) }
        ensures err { OnErr result (self.new ≡ self.old) }
    {
        match message {
            Message::Put { unit } => self.put(from, unit, out),
            Message::Reserve { request, types } => Ok(self.reserve(from, request, &types, out)),
            Message::Try { request, types } => Ok(self.look(from, request, &types, out)),
            Message::Fetch { request, id } => Ok(self.fetch(from, request, id, out)),
            Message::KeepCommon { request, common } => self.keep(from, request, common, out),
            Message::CloseBatch {
                request,
                batch,
                accepted,
            } => Ok(self.close(request, batch, accepted, out)),
            Message::FetchCommon { request, batch } => self.share(from, request, batch, out),
            Message::Count { request, kind } => Ok(self.count(from, request, kind, out)),
            Message::Done { request } => Ok(self.hear_done(from, request, out)),
            Message::Finish => Ok(self.finish(from)),
            _ => unreachable!(),
        }
    }

    // Does what the rule of another server's letter says. A verdict, which is told to each other server, needs the most room.
    fn follow_server(
        &mut self,
        from: Server,
        message: Message,
        out: &mut Outgoing,
    ) -> Result<(), NoMemory>
        requires other { IsOther self.old.config self.old.me from }
        requires awaited { IsAwaitedFrom self.old from message }
        requires fresh { self.old.kept.queue.arrivals < self.old.clock }
        requires room { HasRoom self.old out.old 3 }
        requires verdict { HasRoom self.old out.old 9 }

        ensures ok { OnOk result ((p : Plan) → server_rule self.old from message ≡ Some p →
            made self.new out.new ≡ planned out.old p self.old) }
        ensures room { OnOk result (HasRoom self.new out.new 1) }
        ensures err { OnErr result (self.new ≡ self.old) }
    {
        match message {
            Message::Ask {
                rank,
                request,
                types,
            } => Ok(self.ask_here(from, rank, request, &types, out)),
            Message::AskGrant {
                rank,
                request,
                note,
            } => Ok(self.pass_on(from, rank, request, note, out)),
            Message::AskNone { rank, request } => Ok(self.ask_again(from, rank, request, out)),
            Message::Hint { rank, request } => Ok(self.hear_hint(from, rank, request, out)),
            Message::PushQuery { id, length } => self.hear_query(from, id, length, out),
            Message::PushYes { id } => Ok(self.hear_yes(from, id, out)),
            Message::PushNo { .. } => Ok(self.hear_no()),
            Message::PushUnit { unit } => Ok(self.hear_unit(from, unit, out)),
            Message::PushCancel { id } => Ok(self.hear_cancel(from, id, out)),
            Message::PushAck { .. } => Ok(self.hear_ack()),
            Message::Notice => Ok(self.hear_notice()),
            Message::Token { token } => Ok(self.hear_token(token, out)),
            Message::Failed { token, .. } => Ok(self.hear_failed(token)),
            Message::Exhaust => Ok(self.hear_exhaust(out)),
            Message::Shutdown => Ok(self.hear_shutdown()),
            _ => unreachable!(),
        }
    }

    // The server is broken. A Finish letter counts as handled.
    fn fail(&mut self, finishes: Option<Rank>, trouble: Trouble) -> Trouble
        requires { IfSome finishes (λ rank. rank.0 < self.old.config.ranks) }
        ensures trouble { self.new.trouble ≡ Some trouble }
        ensures kept { self.new.kept ≡ record self.old.kept { finished = with_finished self.old.kept.finished finishes } }
        ensures config { self.new.config ≡ self.old.config }
        ensures me { self.new.me ≡ self.old.me }
        ensures result { result ≡ trouble }
    {
        if let Some(rank) = finishes {
            self.finished[rank.0 as usize] = true;
        }
        self.trouble = Some(trouble);
        trouble
    }
}

// The rank of which this is the Finish letter.
fn finishing(from: Actor, message: &Message) -> Option<Rank>
    ensures { result ≡ finishing from message.now }
{
    match (from, message) {
        (Actor::Rank(rank), Message::Finish) => Some(rank),
        _ => None,
    }
}

// The letter may change what is free or who waits.
fn raises(message: &Message) -> bool
    ensures { result ≡ raises message.now }
{
    !matches!(
        message,
        Message::Notice | Message::Token { .. } | Message::Failed { .. } | Message::Shutdown
    )
}
