//! Why a line of an input is refused.

ghost use Rattle.std.specs.Prelude.{◌≡◌};

use flow_app::FlowWhy;
use std::error::Error;
use std::fmt;
use tour_search::CitiesWhy;

/// Why a line of an input is refused. Its text is what the user is told.
#[derive(Clone, Copy, Debug)]
pub enum LineWhy {
    /// It has more than 2^20 bytes.
    Long,
    /// It is a puzzle whose text has not 16, 81 or 256 bytes but `got`.
    Length { got: u64 },
    /// It is a puzzle with a byte that is no sign of a cell.
    Character,
    /// It is an item, and no batch is going on.
    Item,
    /// It is an item that is not of its form.
    Number,
    /// It does not begin with one of the words.
    Word,
    /// It is not what is due in the text of a ledger.
    Entry,
    /// It is the first line, and does not say how many cities there are; or there is no first line.
    Cities,
    /// It is not a row of costs, or that row is missing.
    Cost,
    /// It follows the rows of costs.
    Extra,
    /// It is no definition of a flow.
    Form,
    /// It defines a name that was defined before.
    Twice,
    /// It is definition 100,001 of a flow.
    Many,
}

impl LineWhy {
    // The word for it.
    fn word(&self) -> &'static str {
        match self {
            LineWhy::Long => "long",
            LineWhy::Length { .. } => "length",
            LineWhy::Character => "character",
            LineWhy::Item => "item",
            LineWhy::Number => "number",
            LineWhy::Word => "word",
            LineWhy::Entry => "entry",
            LineWhy::Cities => "cities",
            LineWhy::Cost => "cost",
            LineWhy::Extra => "extra",
            LineWhy::Form => "form",
            LineWhy::Twice => "twice",
            LineWhy::Many => "many",
        }
    }
}

impl fmt::Display for LineWhy {
    fn fmt<W: fmt::Write>(&self, f: &mut fmt::Formatter<W>) -> fmt::Result {
        write!(f, "{}", self.word())
    }
}

impl Error for LineWhy {}

/// Why a line of some kind of input is refused.
pub trait Reason {
    ghost use Rattle.command_ends.specs.declared.reasons.LineWhy.{LineWhy};

    // The reason among all that a command has.
    ghost means: { Self → LineWhy };

    /// The reason among all that a command has (`means`).
    fn why(self) -> LineWhy
        ensures { result ≡ means self };
}

impl Reason for job_text::LineWhy {
    ghost use Rattle.command_ends.specs.Ends.{why_of};

    ghost means = { why_of };

    fn why(self) -> LineWhy {
        match self {
            job_text::LineWhy::Long => LineWhy::Long,
            job_text::LineWhy::Length { got } => LineWhy::Length { got },
            job_text::LineWhy::Character => LineWhy::Character,
            job_text::LineWhy::Item => LineWhy::Item,
            job_text::LineWhy::Number => LineWhy::Number,
            job_text::LineWhy::Word => LineWhy::Word,
        }
    }
}

impl Reason for CitiesWhy {
    ghost use Rattle.command_ends.specs.Ends.{why_of_cities};

    ghost means = { why_of_cities };

    fn why(self) -> LineWhy {
        match self {
            CitiesWhy::Long => LineWhy::Long,
            CitiesWhy::Cities => LineWhy::Cities,
            CitiesWhy::Cost => LineWhy::Cost,
            CitiesWhy::Extra => LineWhy::Extra,
        }
    }
}

impl Reason for FlowWhy {
    ghost use Rattle.command_ends.specs.Ends.{why_of_flow};

    ghost means = { why_of_flow };

    fn why(self) -> LineWhy {
        match self {
            FlowWhy::Long => LineWhy::Long,
            FlowWhy::Form => LineWhy::Form,
            FlowWhy::Twice => LineWhy::Twice,
            FlowWhy::Many => LineWhy::Many,
        }
    }
}
