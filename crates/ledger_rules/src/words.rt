//! The words of a rule that is broken.

use crate::rules::Rule;
use adlb_unit::{BatchId, End, NoMemory, Rank, Server, UnitId, or_no_memory};
use itoa::Buffer;

/// What is in the words of a rule in place of a `#`.
#[derive(Clone, Copy)]
enum Subject {
    None,
    Number(u64),
    Id(Rank, u64),
}

fn number(n: u64) -> Subject {
    Subject::Number(n)
}

fn rank(rank: Rank) -> Subject {
    Subject::Number(rank.0 as u64)
}

fn server(server: Server) -> Subject {
    Subject::Number(server.0 as u64)
}

fn unit(id: UnitId) -> Subject {
    Subject::Id(id.rank, id.number)
}

fn batch(id: BatchId) -> Subject {
    Subject::Id(id.rank, id.number)
}

/// The words of a rule that is broken, with the subjects that they speak of, in order.
#[derive(Clone, Copy)]
struct Words {
    text: &'static [u8],
    subjects: [Subject; 3],
}

impl Words {
    fn plain(text: &'static [u8]) -> Words {
        Words {
            text,
            subjects: [Subject::None; 3],
        }
    }

    fn of(text: &'static [u8], first: Subject) -> Words {
        Words {
            text,
            subjects: [first, Subject::None, Subject::None],
        }
    }

    fn of_two(text: &'static [u8], first: Subject, second: Subject) -> Words {
        Words {
            text,
            subjects: [first, second, Subject::None],
        }
    }

    // What the entry does that breaks the rule.
    fn broken(rule: Rule) -> Words {
        match rule {
            Rule::InTurn => Words::plain(b"a common part is due to be freed first"),
            Rule::InRun(r) => Words::of(b"rank # is not in the run", rank(r)),
            Rule::Runs(r) => Words::of(b"rank # has a call pending or has finished", rank(r)),
            Rule::Next(r, call) => Words::of_two(
                b"the next call of rank # is not #",
                rank(r),
                number(call),
            ),
            Rule::Outside(r) => Words::of(b"rank # has a batch going on", rank(r)),
            Rule::Within(r) => Words::of(b"rank # has no batch going on", rank(r)),
            Rule::Brings(r, call) => Words::of_two(
                b"rank # brings nothing in call #",
                rank(r),
                number(call),
            ),
            Rule::IsServer(s) => Words::of(b"server # is not in the run", server(s)),
            Rule::Undeclined(r, s) => Words::of_two(
                b"server # has declined the call of rank # already",
                server(s),
                rank(r),
            ),
            Rule::Charged(s, used) => Words::of_two(
                b"server # is not charged with # bytes",
                server(s),
                number(used),
            ),
            Rule::TooMuch(r, used) => Words::of_two(
                b"what rank # brings fits beside # bytes",
                rank(r),
                number(used),
            ),
            Rule::Puts(id) => Words::of(b"unit # is not being put", unit(id)),
            Rule::TakesUnit(s, id) => Words::of_two(
                b"unit # does not fit at server #",
                unit(id),
                server(s),
            ),
            Rule::AllDeclined(r) => Words::of(
                b"not each server has declined the call of rank #",
                rank(r),
            ),
            Rule::Begins(id) => Words::of(b"batch # is not being begun", batch(id)),
            Rule::TakesCommon(s, id) => Words::of_two(
                b"the common part of batch # does not fit at server #",
                batch(id),
                server(s),
            ),
            Rule::Ends(id) => Words::of(b"batch # is not being ended", batch(id)),
            Rule::Keeps(s, id) => Words::of_two(
                b"server # does not keep the common part of batch #",
                server(s),
                batch(id),
            ),
            Rule::Due(id) => Words::of(
                b"the common part of batch # is not due to be freed",
                batch(id),
            ),
            Rule::Wants(r, call) => Words::of_two(
                b"rank # does not reserve or try to in call #",
                rank(r),
                number(call),
            ),
            Rule::FreeAt(id, s) => Words::of_two(
                b"unit # is not free at server #",
                unit(id),
                server(s),
            ),
            Rule::Permits(r, id) => Words::of_two(
                b"unit # is not for rank #, or of no type that it asks for",
                unit(id),
                rank(r),
            ),
            Rule::Tries(r, call) => Words::of_two(
                b"rank # does not try to reserve in call #",
                rank(r),
                number(call),
            ),
            Rule::NoneFits(s, r) => Words::of_two(
                b"a unit for rank # is free at server #",
                rank(r),
                server(s),
            ),
            Rule::PinnedTo(id, r) => Words::of_two(
                b"unit # is not pinned to rank #",
                unit(id),
                rank(r),
            ),
            Rule::AwaitsOwn(r, id) => Words::of_two(
                b"rank # does not await the own bytes of unit #",
                rank(r),
                unit(id),
            ),
            Rule::PinnedAt(id, s, r) => Words {
                text: b"unit # is not pinned at server # to rank #",
                subjects: [unit(id), server(s), rank(r)],
            },
            Rule::AwaitsCommon(r, id) => Words::of_two(
                b"rank # does not await the common bytes of batch #",
                rank(r),
                batch(id),
            ),
            Rule::HasLength(id, n) => Words::of_two(
                b"no unit # with # bytes was accepted",
                unit(id),
                number(n as u64),
            ),
            Rule::Stays(id) => Words::of(b"unit # travels, or was not accepted", unit(id)),
            Rule::Elsewhere(id, s) => Words::of_two(
                b"unit # is at server # already",
                unit(id),
                server(s),
            ),
            Rule::Unpromised(id) => Words::of(b"room for unit # is promised already", unit(id)),
            Rule::Fits(s, n) => Words::of_two(
                b"# bytes do not fit at server #",
                number(n as u64),
                server(s),
            ),
            Rule::PromisedAt(id, s) => Words::of_two(
                b"server # has promised no room for unit #",
                server(s),
                unit(id),
            ),
            Rule::TravelsTo(id, s) => Words::of_two(
                b"unit # does not travel to server #",
                unit(id),
                server(s),
            ),
            Rule::Counts(r, call) => Words::of_two(
                b"rank # does not count in call #",
                rank(r),
                number(call),
            ),
            Rule::IsHome(s, r) => Words::of_two(
                b"server # is not the home of rank #",
                server(s),
                rank(r),
            ),
            Rule::Tells(s, r, _) => Words::of_two(
                b"this is not what is free at server # of the type that rank # counts",
                server(s),
                rank(r),
            ),
            Rule::Settled => Words::plain(
                b"a rank works, room or a unit is under way, or a free unit is for a rank that waits",
            ),
            Rule::NotExhausted => Words::plain(b"that all work is used up was found already"),
            Rule::IsOpen(r, call) => Words::of_two(
                b"rank # has no call # pending that an end answers",
                rank(r),
                number(call),
            ),
            Rule::HasCause(End::NoMoreWork) => Words::plain(b"nobody has called the problem done"),
            Rule::HasCause(End::Exhausted) => Words::plain(
                b"that all work is used up was not found",
            ),
        }
    }

    // Appends the words, with the subjects in place of the `#`.
    fn append_to(&self, text: &mut Vec<u8>) -> Result<(), NoMemory> {
        let mut next = 0;
        for byte in self.text {
            if *byte == b'#' {
                if let Some(subject) = self.subjects.get(next) {
                    append_subject(text, *subject)?;
                }
                next = next.saturating_add(1);
            } else {
                or_no_memory(text.extend_from_slice(&[*byte]))?;
            }
        }
        Ok(())
    }
}

fn append_subject(text: &mut Vec<u8>, subject: Subject) -> Result<(), NoMemory> {
    match subject {
        Subject::None => Ok(()),
        Subject::Number(n) => append_number(text, n),
        Subject::Id(rank, n) => {
            append_number(text, rank.0 as u64)?;
            or_no_memory(text.extend_from_slice(b"."))?;
            append_number(text, n)
        }
    }
}

fn append_number(text: &mut Vec<u8>, n: u64) -> Result<(), NoMemory> {
    let mut digits = Buffer::new();
    or_no_memory(text.extend_from_slice(digits.format(n).as_bytes()))
}

/// Appends what is wrong where the rule is broken, in words. Its only error is `NoMemory`.
pub(crate) fn append_rule(text: &mut Vec<u8>, rule: Rule) -> Result<(), NoMemory> {
    Words::broken(rule).append_to(text)
}
