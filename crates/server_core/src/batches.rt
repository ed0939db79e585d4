//! The letters about batches and their common parts: KeepCommon, CloseBatch and FetchCommon.

ghost use Rattle.std.specs.Prelude.{◌≡◌, ◌<◌, ◌∷◌, [], OnOk, OnErr, Some, if◌then◌else◌};
ghost use Rattle.server_components.specs.Store.{CanClose, CanFetch, Keeps, part_in};
ghost use Rattle.server_components.specs.declared.parts.Part.{Part};
ghost use Rattle.server_core.specs.Out.{HasRoom, Out, going_on, made, with_entry};
ghost use Rattle.server_law.specs.Acts.{Act, Closes, Fetches_part};
ghost use Rattle.server_law.specs.Batches.{keep_now};
ghost use Rattle.server_law.specs.Expected.{IsAwaited};
ghost use Rattle.server_law.specs.State.{Kept, ServerModel};

use crate::outgoing::Outgoing;
use crate::states::ServerState;
use adlb_unit::{Actor, BatchId, End, Message, NoMemory, Payload, Rank, UnitId};
use bag_ledger::Entry;
use work_queue::AddFault;

impl ServerState {
    // The common part of the batch that begins is kept, if there is room.
    pub(crate) fn keep(
        &mut self,
        from: Rank,
        request: u64,
        common: Payload,
        out: &mut Outgoing,
    ) -> Result<(), NoMemory>
        requires rank { from.0 < self.old.config.ranks }
        requires awaited { IsAwaited self.old from (Message.KeepCommon request common) }
        requires room { HasRoom self.old out.old 2 }

        ensures ok { OnOk result (made self.new out.new ≡
            going_on out.old (keep_now self.old.kept from request common ∷ []) self.old) }
        ensures room { OnOk result (HasRoom self.new out.new 1) }
        ensures err { OnErr result (self.new ≡ self.old) }
    {
        let number = request;
        let server = self.me;
        if self.done {
            self.end_call(from, request, End::NoMoreWork, out);
            return Ok(());
        }
        let batch = BatchId { rank: from, number };
        match self.parts.keep(&mut self.queue, batch, common) {
            Ok(()) => {
                let kept = Entry::Kept { server, batch };
                self.answer(Actor::Rank(from), Message::Accepted { request }, kept, out);
                Ok(())
            }
            Err(AddFault::Full { charge }) => {
                let refused = Entry::Refused {
                    server,
                    id: UnitId { rank: from, number },
                    used: charge,
                };
                self.answer(
                    Actor::Rank(from),
                    Message::Full { request, charge },
                    refused,
                    out,
                );
                Ok(())
            }
            Err(AddFault::Memory) => Err(NoMemory),
        }
    }

    // The batch is closed; its part is freed if it was fetched as often as units of the batch were accepted.
    pub(crate) fn close(&mut self, request: u64, batch: BatchId, accepted: u64, out: &mut Outgoing)
        requires rank { batch.rank.0 < self.old.config.ranks }
        requires kept { Keeps self.old.kept.parts batch self.old.kept.queue.common (CanClose accepted) }
        requires room { HasRoom self.old out.old 3 }

        ensures made { (p : Part) → part_in self.old.kept.parts batch ≡ Some p →
            made self.new out.new ≡ going_on out.old (Closes request batch accepted p ∷ []) self.old }
        ensures room { HasRoom self.new out.new 1 }
    {
        let freed = self.parts.close(&mut self.queue, batch, accepted);
        let closed = Entry::Closed {
            server: self.me,
            batch,
        };
        self.answer(
            Actor::Rank(batch.rank),
            Message::Closed { request },
            closed,
            out,
        );
        self.tell_freed(freed, batch, out);
    }

    // The bytes of the part are sent; it is freed if no fetch of it is due any more.
    pub(crate) fn share(
        &mut self,
        from: Rank,
        request: u64,
        batch: BatchId,
        out: &mut Outgoing,
    ) -> Result<(), NoMemory>
        requires rank { from.0 < self.old.config.ranks }
        requires kept { Keeps self.old.kept.parts batch self.old.kept.queue.common CanFetch }
        requires room { HasRoom self.old out.old 3 }

        ensures made { OnOk result ((p : Part) → part_in self.old.kept.parts batch ≡ Some p →
            made self.new out.new ≡ going_on out.old (Fetches_part from request batch p ∷ []) self.old) }
        ensures room { OnOk result (HasRoom self.new out.new 1) }
        ensures err { OnErr result (self.new ≡ self.old) }
    {
        let (body, freed) = self.parts.fetch(&mut self.queue, batch)?;
        let fetched = Entry::CommonFetched {
            server: self.me,
            rank: from,
            batch,
        };
        self.answer(
            Actor::Rank(from),
            Message::Bytes { request, body },
            fetched,
            out,
        );
        self.tell_freed(freed, batch, out);
        Ok(())
    }

    // That a part is freed is entered, and said in no letter.
    fn tell_freed(&self, freed: bool, batch: BatchId, out: &mut Outgoing)
        requires { 0 < out.old.room }
        ensures { out.new ≡ (if freed then with_entry out.old (Entry.Freed self.now.me batch) else out.old) }
    {
        if freed {
            out.enter(Entry::Freed {
                server: self.me,
                batch,
            });
        }
    }
}
