//! Letters and their twins.

use adlb_unit::{
    AskedList, Letter, Message, NoMemory, Payload, Rank, Target, Token, Types, Unit, UnitId, Why,
    WorkType,
};
use std::alloc::Global;
use std::test::Fail;

fn unit(alloc: Global) -> Result<Unit, NoMemory> {
    Ok(Unit {
        id: UnitId {
            rank: Rank(1),
            number: 7,
        },
        kind: WorkType(2),
        prio: -5,
        target: Target::Only(Rank(3)),
        answer: None,
        common: None,
        body: Payload::copy(alloc, b"ab")?,
    })
}

fn token(alloc: Global) -> Result<Token, NoMemory> {
    let mut asked = AskedList::new(alloc)?;
    asked.push(Rank(1), Types::any());
    Ok(Token {
        check: 4,
        wave: 2,
        asked,
    })
}

// The messages that carry a unit, bytes or a token.
#[derive(Clone, Copy)]
enum Heavy {
    Put,
    PushUnit,
    KeepCommon,
    Bytes,
    Token,
    Failed,
}

const ALL: &[Heavy] = &[
    Heavy::Put,
    Heavy::PushUnit,
    Heavy::KeepCommon,
    Heavy::Bytes,
    Heavy::Token,
    Heavy::Failed,
];

fn message(alloc: Global, heavy: Heavy) -> Result<Message, NoMemory> {
    Ok(match heavy {
        Heavy::Put => Message::Put { unit: unit(alloc)? },
        Heavy::PushUnit => Message::PushUnit { unit: unit(alloc)? },
        Heavy::KeepCommon => Message::KeepCommon {
            request: 9,
            common: Payload::copy(alloc, b"common")?,
        },
        Heavy::Bytes => Message::Bytes {
            request: 9,
            body: Payload::copy(alloc, b"body")?,
        },
        Heavy::Token => Message::Token {
            token: token(alloc)?,
        },
        Heavy::Failed => Message::Failed {
            token: token(alloc)?,
            why: Why::Changed { was: 3, now: 4 },
        },
    })
}

fn are_shown_alike(alloc: Global, one: &Letter, other: &Letter) -> Result<bool, Fail> {
    let shown = format!(in alloc; "{one:?}")?;
    Ok(shown == format!(in alloc; "{other:?}")?)
}

// The letter has a twin that is shown alike.
fn is_twinned(alloc: Global, letter: &Letter) -> Result<bool, Fail> {
    let twin = letter.twin(alloc)?;
    are_shown_alike(alloc, letter, &twin)
}

fn has_twin(alloc: Global, heavy: Heavy) -> Result<bool, Fail> {
    let message = message(alloc, heavy)?;
    let letter = Letter {
        stamp: 5,
        place: 6,
        message,
    };
    is_twinned(alloc, &letter)
}

#[test]
fn heavy_letters_have_twins(rt: HostRuntime) -> Result<(), Fail> {
    for heavy in ALL {
        assert!(rt; has_twin(rt.alloc(), *heavy)?);
    }
    Ok(())
}
