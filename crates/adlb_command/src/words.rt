//! What the words say of a run.

ghost use Rattle.std.specs.Prelude.{◌≡◌, true};
ghost use Rattle.command_words.specs.Said.{AreWithin};
ghost use Rattle.adlb_command.specs.Words.{IsConfigOf, extras_of, settings_of};

use adlb_unit::Config;
use command_words::{RunOptions, Sizes, SolveWords};
use puzzle_app::Settings;
use solve_command::Extras;

/// The settings of the puzzles.
pub(crate) fn settings(options: &RunOptions) -> Settings
    ensures { result ≡ settings_of options.now }
{
    Settings {
        budget: options.budget,
        grain: options.grain,
    }
}

/// What follows the report.
pub(crate) fn extras(words: &SolveWords) -> Extras
    ensures { result ≡ extras_of words.now }
{
    Extras {
        stats: words.stats,
        ledger: words.ledger,
    }
}

/// The numbers of a run (`IsConfigOf`): as its sizes say, but one rank and one server in line.
pub(crate) fn config(sizes: &Sizes, inline: bool) -> Config
    requires { AreWithin sizes.now }
    ensures numbers { IsConfigOf sizes.now inline result }
    ensures single { inline ≡ true → (result.ranks ≡ 1) × (result.servers ≡ 1) }
{
    if inline {
        Config {
            ranks: 1,
            servers: 1,
            limit: sizes.limit,
        }
    } else {
        Config {
            ranks: sizes.ranks,
            servers: sizes.servers,
            limit: sizes.limit,
        }
    }
}
