//! The names of entries.

ghost use Rattle.std.specs.Prelude.{◌≡◌};
ghost use Rattle.ledger_file.specs.inside.Names.{name_in, name_of, name_word};
ghost use Rattle.ledger_file.specs.Lines.{row};

use bag_ledger::Entry;

/// The name of an entry.
#[derive(Clone, Copy)]
pub enum Name {
    Putting,
    Refused,
    Accepted,
    Rejected,
    Keeping,
    Kept,
    Closing,
    Closed,
    Freed,
    Asked,
    Tried,
    Granted,
    Looked,
    NoCurrent,
    Fetching,
    Fetched,
    CommonFetched,
    Promised,
    Left,
    Arrived,
    Withdrawn,
    Counting,
    Counted,
    Done,
    Exhausted,
    Over,
    Finished,
}

impl Name {
    /// Each name once.
    const ALL: [Name; 27] = [
        Name::Putting,
        Name::Refused,
        Name::Accepted,
        Name::Rejected,
        Name::Keeping,
        Name::Kept,
        Name::Closing,
        Name::Closed,
        Name::Freed,
        Name::Asked,
        Name::Tried,
        Name::Granted,
        Name::Looked,
        Name::NoCurrent,
        Name::Fetching,
        Name::Fetched,
        Name::CommonFetched,
        Name::Promised,
        Name::Left,
        Name::Arrived,
        Name::Withdrawn,
        Name::Counting,
        Name::Counted,
        Name::Done,
        Name::Exhausted,
        Name::Over,
        Name::Finished,
    ];

    /// The word of the name: its letters in lower case (`name_word`).
    pub fn word(self) -> &'static [u8]
        ensures { result.now ≡ name_word self }
    {
        match self {
            Name::Putting => b"putting",
            Name::Refused => b"refused",
            Name::Accepted => b"accepted",
            Name::Rejected => b"rejected",
            Name::Keeping => b"keeping",
            Name::Kept => b"kept",
            Name::Closing => b"closing",
            Name::Closed => b"closed",
            Name::Freed => b"freed",
            Name::Asked => b"asked",
            Name::Tried => b"tried",
            Name::Granted => b"granted",
            Name::Looked => b"looked",
            Name::NoCurrent => b"nocurrent",
            Name::Fetching => b"fetching",
            Name::Fetched => b"fetched",
            Name::CommonFetched => b"commonfetched",
            Name::Promised => b"promised",
            Name::Left => b"left",
            Name::Arrived => b"arrived",
            Name::Withdrawn => b"withdrawn",
            Name::Counting => b"counting",
            Name::Counted => b"counted",
            Name::Done => b"done",
            Name::Exhausted => b"exhausted",
            Name::Over => b"over",
            Name::Finished => b"finished",
        }
    }

    /// The name of the entry, whose word comes first in its line (`row`).
    pub fn of_entry(entry: &Entry) -> Name
        ensures { name_word result ≡ (row entry.now).0 }
    {
        match entry {
            Entry::Putting { .. } => Name::Putting,
            Entry::Refused { .. } => Name::Refused,
            Entry::Accepted { .. } => Name::Accepted,
            Entry::Rejected { .. } => Name::Rejected,
            Entry::Keeping { .. } => Name::Keeping,
            Entry::Kept { .. } => Name::Kept,
            Entry::Closing { .. } => Name::Closing,
            Entry::Closed { .. } => Name::Closed,
            Entry::Freed { .. } => Name::Freed,
            Entry::Asked { .. } => Name::Asked,
            Entry::Tried { .. } => Name::Tried,
            Entry::Granted { .. } => Name::Granted,
            Entry::Looked { .. } => Name::Looked,
            Entry::NoCurrent { .. } => Name::NoCurrent,
            Entry::Fetching { .. } => Name::Fetching,
            Entry::Fetched { .. } => Name::Fetched,
            Entry::CommonFetched { .. } => Name::CommonFetched,
            Entry::Promised { .. } => Name::Promised,
            Entry::Left { .. } => Name::Left,
            Entry::Arrived { .. } => Name::Arrived,
            Entry::Withdrawn { .. } => Name::Withdrawn,
            Entry::Counting { .. } => Name::Counting,
            Entry::Counted { .. } => Name::Counted,
            Entry::Done { .. } => Name::Done,
            Entry::Exhausted => Name::Exhausted,
            Entry::Over { .. } => Name::Over,
            Entry::Finished { .. } => Name::Finished,
        }
    }

    /// The name with this word, if there is one (`name_of`).
    #[tactic(auto, unfolding(crate::specs::inside::Names::name_of))]
    pub fn of(word: &[u8]) -> Option<Name>
        ensures { result ≡ name_of word.now }
    {
        name_in(&Name::ALL, word)
    }
}

// The name among these with this word, if there is one.
fn name_in(names: &[Name], word: &[u8]) -> Option<Name>
    ensures { result ≡ name_in names.now word.now }
{
    for name in names {
        if name.word() == word {
            return Some(*name);
        }
    }
    None
}
