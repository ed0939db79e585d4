//! What there is before and after the letter at which a server breaks.

use crate::cast::{NEXT, POOL};
use crate::heard::Heard;
use crate::says::{Line, Says, TOO_LONG};
use crate::servers::Scene;
use adlb_unit::Trouble;

/// What there is before the letter at which a server breaks.
pub enum Before {
    Waits,
    OneLess,
    Puts,
    Holds,
    Keeps,
    Pressed,
    Sent,
    Promised,
    Quiet,
    Elsewhere,
}

impl Before {
    /// Its scene.
    pub fn scene(&self) -> &'static Scene<'static> {
        match self {
            Before::Waits => WAITS,
            Before::OneLess => ONE_LESS,
            Before::Puts => PUTS,
            Before::Holds => HOLDS,
            Before::Keeps => KEEPS,
            Before::Pressed => PRESSED,
            Before::Sent => SENT,
            Before::Promised => PROMISED,
            Before::Quiet => QUIET,
            Before::Elsewhere => ELSEWHERE,
        }
    }
}

/// What comes after this letter.
pub enum After {
    Later,
    LaterNext,
    Without2,
    Rank0,
    Finishes,
    Gone,
    Absent,
}

impl After {
    /// Its letters.
    pub fn lines(&self) -> &'static [Line] {
        match self {
            After::Later => AFTER,
            After::LaterNext => AFTER_1,
            After::Without2 => WITHOUT_2,
            After::Rank0 => RANK_0,
            After::Finishes => FINISHES,
            After::Gone => GONE,
            After::Absent => ABSENT,
        }
    }
}

// Rank 0 waits at server 0, its home, which asks server 1.
const WAITS: &Scene = &Scene {
    me: POOL,
    alone: false,
    said: &[(0, 1, Says::Wait)],
    heard: &[(4, Heard::Ask)],
    entries: 0,
};

// Besides, rank 1 has finished.
const ONE_LESS: &Scene = &Scene {
    me: POOL,
    alone: false,
    said: &[(0, 1, Says::Wait), (1, 1, Says::Finish)],
    heard: &[(4, Heard::Ask)],
    entries: 0,
};

// Or rank 2 has put a unit.
const PUTS: &Scene = &Scene {
    me: POOL,
    alone: false,
    said: &[(0, 1, Says::Wait), (2, 1, Says::Put)],
    heard: &[(4, Heard::Ask), (2, Heard::Accepted)],
    entries: 1,
};

// And it was granted that unit.
const HOLDS: &Scene = &Scene {
    me: POOL,
    alone: false,
    said: &[(0, 1, Says::Wait), (2, 1, Says::Put), (2, 1, Says::Reserve)],
    heard: &[(4, Heard::Ask), (2, Heard::Accepted), (2, Heard::Granted)],
    entries: 2,
};

// Or it has begun a batch.
const KEEPS: &Scene = &Scene {
    me: POOL,
    alone: false,
    said: &[(0, 1, Says::Wait), (2, 1, Says::Keep)],
    heard: &[(4, Heard::Ask), (2, Heard::Accepted)],
    entries: 1,
};

// Or it has put a unit by which the server is pressed.
const PRESSED: &Scene = &Scene {
    me: POOL,
    alone: false,
    said: &[(0, 1, Says::Wait), (2, 1, Says::PutLong)],
    heard: &[(4, Heard::Ask), (2, Heard::Accepted), (4, Heard::Query)],
    entries: 1,
};

// And the unit has gone to server 1.
const SENT: &Scene = &Scene {
    me: POOL,
    alone: false,
    said: &[
        (0, 1, Says::Wait),
        (2, 1, Says::PutLong),
        (4, 1, Says::PushYes),
    ],
    heard: &[
        (4, Heard::Ask),
        (2, Heard::Accepted),
        (4, Heard::Query),
        (4, Heard::Unit),
    ],
    entries: 2,
};

// Or room was promised to a unit of server 1.
const PROMISED: &Scene = &Scene {
    me: POOL,
    alone: false,
    said: &[(0, 1, Says::Wait), (4, 1, Says::PushQuery)],
    heard: &[(4, Heard::Ask), (4, Heard::Yes)],
    entries: 1,
};

// Ranks 0 and 2 wait, nothing is elsewhere, and a check has begun.
const QUIET: &Scene = &Scene {
    me: POOL,
    alone: false,
    said: &[
        (0, 1, Says::Wait),
        (2, 1, Says::Wait),
        (4, 1, Says::AskNone(0)),
        (4, 1, Says::AskNone(2)),
    ],
    heard: &[(4, Heard::Ask), (4, Heard::Ask), (4, Heard::Token)],
    entries: 0,
};

// Rank 1 waits at server 1, its home, which asks server 0.
const ELSEWHERE: &Scene = &Scene {
    me: NEXT,
    alone: false,
    said: &[(1, 1, Says::Wait)],
    heard: &[(3, Heard::Ask)],
    entries: 0,
};

// Ranks 0 and 2 are gone. Rank 1 asks meanwhile, and finishes last. What servers and the caller say then changes nothing.
const AFTER: &[Line] = &[
    (0, 0, Says::Gone(Trouble::Memory)),
    (4, 1, Says::Ask),
    (5, 0, Says::Abort(Trouble::Memory, 0)),
    (2, 0, Says::Gone(Trouble::Memory)),
    (1, 1, Says::Try),
    (1, 1, Says::Finish),
];

// As `AFTER`, at server 1: rank 0 asks.
const AFTER_1: &[Line] = &[
    (2, 0, Says::Gone(Trouble::Memory)),
    (3, 0, Says::Abort(Trouble::Memory, 0)),
    (1, 0, Says::Gone(Trouble::Memory)),
    (0, 1, Says::Put),
    (0, 1, Says::Finish),
];

// As `AFTER`, where rank 2 says no more.
const WITHOUT_2: &[Line] = &[
    (0, 0, Says::Gone(Trouble::Memory)),
    (4, 0, Says::Abort(Trouble::Memory, 0)),
    (1, 1, Says::Try),
    (1, 1, Says::Finish),
];

// No more comes of ranks 1 and 2.
const RANK_0: &[Line] = &[(0, 0, Says::Gone(Trouble::Memory))];

// No rank asks any more.
const FINISHES: &[Line] = &[
    (2, 1, Says::Finish),
    (1, 1, Says::Finish),
    (0, 0, Says::Gone(Trouble::Memory)),
];

// Rank 2 is gone, and then rank 1 asks, and each other rank is gone.
const GONE: &[Line] = &[
    (2, 0, Says::Gone(TOO_LONG)),
    (1, 1, Says::Try),
    (0, 0, Says::Gone(TOO_LONG)),
    (1, 0, Says::Gone(TOO_LONG)),
];

// Rank 2 was not started, as is told late.
const ABSENT: &[Line] = &[
    (0, 0, Says::Gone(Trouble::Memory)),
    (5, 0, Says::Abort(Trouble::Memory, 1)),
    (1, 1, Says::Finish),
];
