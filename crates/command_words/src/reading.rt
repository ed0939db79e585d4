//! From the words to what they say.

ghost use Rattle.std.specs.Prelude.{◌≡◌, ◌≢◌, IfErr, IfOk, None, Some, [], ℕ, codes, map, true};
ghost use Rattle.std.specs.String.{string_bytes};
ghost use Rattle.clap.specs.Words.{IsParsedFrom, app_of, fault_of, found_of, is_simple_and_free, rows_of};
ghost use Rattle.command_words.specs.inside.{HoldsIn, HoldsMade, HoldsRun, HoldsSizes, IsFound};
ghost use Rattle.command_words.specs.Options.{check_app, draw_app, drill_app, flow_app, make_app, solve_app, tour_app};
ghost use Rattle.command_words.specs.Ranges.{IsIn, counts, seeds};
ghost use Rattle.command_words.specs.Said.{AreWithin, IsRunWithin, IsWithin, check_of, command_of, draw_of, drill_of, flag_of};
ghost use Rattle.command_words.specs.Said.{flow_of, make_of, number_of, read_by, run_of, sizes_of, solve_of, tour_of, words_of};
ghost use Rattle.command_words.specs.declared.commands.WordsFault.TheVariants.{Usage};

use crate::commands::{Command, RunOptions, RunWords, Sizes, SolveWords, WordsFault};
use crate::options::{
    check_command, draw_command, drill_command, flow_command, make_command, solve_command,
    tour_command,
};
use clap::ArgMatches;
use clap::error::ErrorKind;
use std::alloc::Global;

// What `clap` finds in the words after the command.
fn matches_of<'a>(
    command: clap::Command<'a>,
    words: &'a [String],
) -> Result<ArgMatches<'a>, WordsFault>
    requires simple { is_simple_and_free (app_of command) ≡ true }
    ensures found { IfOk result (λ m.
        IsFound (app_of command.entry) (map string_bytes words.entry.now) (rows_of (found_of m))) }
    ensures parsed { IfOk result (λ m. IsParsedFrom command.entry m) }
    ensures refused { IfErr result (λ f. f ≡ Usage →
        fault_of (app_of command.entry) (map string_bytes words.entry.now) ≢ []) }
{
    match command.try_get_matches_from(words) {
        Ok(matches) => Ok(matches),
        Err(error) => Err(match error.kind() {
            ErrorKind::OutOfMemory => WordsFault::Memory,
            _ => WordsFault::Usage,
        }),
    }
}

fn number_of(matches: &ArgMatches<'_>, name: &str, default: u64) -> u64
    ensures { (low high : ℕ) → HoldsIn name.now low high (rows_of (found_of matches.now))
        → result ≡ number_of name.now default (rows_of (found_of matches.now)) }
{
    matches.get_one::<u64>(name).unwrap_or(default)
}

fn flag_of(matches: &ArgMatches<'_>, name: &str) -> bool
    ensures { result ≡ flag_of name.now (rows_of (found_of matches.now)) }
{
    matches.get_one::<bool>(name).unwrap_or(false)
}

// The sizes of a run.
fn sizes_of(matches: &ArgMatches<'_>) -> Sizes
    requires holds { HoldsSizes (rows_of (found_of matches.now)) }
    ensures said { result ≡ sizes_of (rows_of (found_of matches.now)) }
    ensures within { AreWithin result }
{
    Sizes {
        ranks: number_of(matches, "ranks", 4) as u32,
        servers: number_of(matches, "servers", 2) as u32,
        limit: number_of(matches, "limit", 1 << 26),
    }
}

fn run_of(matches: &ArgMatches<'_>) -> RunOptions
    requires holds { HoldsRun (rows_of (found_of matches.now)) }
    ensures said { result ≡ run_of (rows_of (found_of matches.now)) }
    ensures within { IsRunWithin result }
{
    RunOptions {
        sizes: sizes_of(matches),
        budget: number_of(matches, "budget", 1 << 24),
        grain: number_of(matches, "grain", 1 << 16),
        inline: flag_of(matches, "inline"),
        progress: flag_of(matches, "progress"),
    }
}

// The words of a run that has no other options.
fn words_of(matches: &ArgMatches<'_>) -> RunWords
    requires holds { HoldsSizes (rows_of (found_of matches.now)) }
    ensures said { result ≡ words_of (rows_of (found_of matches.now)) }
    ensures within { AreWithin result.sizes }
{
    let progress = flag_of(matches, "progress");
    RunWords {
        sizes: sizes_of(matches),
        progress,
    }
}

// How many puzzles are made, and from which seed.
fn made_of(matches: &ArgMatches<'_>) -> (u32, u64)
    requires holds { HoldsMade (rows_of (found_of matches.now)) }
    ensures count { result.0 ≡ number_of (codes "count") counts.default (rows_of (found_of matches.now)) }
    ensures seed { result.1 ≡ number_of (codes "seed") seeds.default (rows_of (found_of matches.now)) }
    ensures within { IsIn counts result.0 }
{
    (
        number_of(matches, "count", 0) as u32,
        number_of(matches, "seed", 0),
    )
}

fn read_solve(alloc: Global, words: &[String]) -> Result<Command, WordsFault>
    ensures said { IfOk result (λ c. read_by solve_app solve_of (map string_bytes words.now) ≡ Some c) }
    ensures within { IfOk result IsWithin }
    ensures refused { IfErr result (λ f. f ≡ Usage →
        read_by solve_app solve_of (map string_bytes words.now) ≡ None) }
{
    let matches = matches_of(solve_command(alloc)?, words)?;
    Ok(Command::Solve(SolveWords {
        options: run_of(&matches),
        stats: flag_of(&matches, "stats"),
        ledger: flag_of(&matches, "ledger"),
    }))
}

fn read_check(alloc: Global, words: &[String]) -> Result<Command, WordsFault>
    ensures said { IfOk result (λ c. read_by check_app check_of (map string_bytes words.now) ≡ Some c) }
    ensures within { IfOk result IsWithin }
    ensures refused { IfErr result (λ f. f ≡ Usage →
        read_by check_app check_of (map string_bytes words.now) ≡ None) }
{
    matches_of(check_command(alloc), words)?;
    Ok(Command::Check)
}

fn read_make(alloc: Global, words: &[String]) -> Result<Command, WordsFault>
    ensures said { IfOk result (λ c. read_by make_app make_of (map string_bytes words.now) ≡ Some c) }
    ensures within { IfOk result IsWithin }
    ensures refused { IfErr result (λ f. f ≡ Usage →
        read_by make_app make_of (map string_bytes words.now) ≡ None) }
{
    let matches = matches_of(make_command(alloc)?, words)?;
    let (count, seed) = made_of(&matches);
    Ok(Command::Make { count, seed })
}

fn read_drill(alloc: Global, words: &[String]) -> Result<Command, WordsFault>
    ensures said { IfOk result (λ c. read_by drill_app drill_of (map string_bytes words.now) ≡ Some c) }
    ensures within { IfOk result IsWithin }
    ensures refused { IfErr result (λ f. f ≡ Usage →
        read_by drill_app drill_of (map string_bytes words.now) ≡ None) }
{
    let matches = matches_of(drill_command(alloc)?, words)?;
    let (count, seed) = made_of(&matches);
    Ok(Command::Drill {
        count,
        seed,
        options: run_of(&matches),
    })
}

fn read_tour(alloc: Global, words: &[String]) -> Result<Command, WordsFault>
    ensures said { IfOk result (λ c. read_by tour_app tour_of (map string_bytes words.now) ≡ Some c) }
    ensures within { IfOk result IsWithin }
    ensures refused { IfErr result (λ f. f ≡ Usage →
        read_by tour_app tour_of (map string_bytes words.now) ≡ None) }
{
    let matches = matches_of(tour_command(alloc)?, words)?;
    Ok(Command::Tour(words_of(&matches)))
}

fn read_flow(alloc: Global, words: &[String]) -> Result<Command, WordsFault>
    ensures said { IfOk result (λ c. read_by flow_app flow_of (map string_bytes words.now) ≡ Some c) }
    ensures within { IfOk result IsWithin }
    ensures refused { IfErr result (λ f. f ≡ Usage →
        read_by flow_app flow_of (map string_bytes words.now) ≡ None) }
{
    let matches = matches_of(flow_command(alloc)?, words)?;
    Ok(Command::Flow(words_of(&matches)))
}

fn read_draw(alloc: Global, words: &[String]) -> Result<Command, WordsFault>
    ensures said { IfOk result (λ c. read_by draw_app draw_of (map string_bytes words.now) ≡ Some c) }
    ensures within { IfOk result IsWithin }
    ensures refused { IfErr result (λ f. f ≡ Usage →
        read_by draw_app draw_of (map string_bytes words.now) ≡ None) }
{
    matches_of(draw_command(alloc), words)?;
    Ok(Command::Draw)
}

/// The command that the words say (`command_of`), with its numbers within their limits (`IsWithin`). `Usage` comes
/// only where they say none, and `Memory` if an allocation failed.
pub fn read_words(alloc: Global, words: &[String]) -> Result<Command, WordsFault>
    ensures said { IfOk result (λ c. command_of (map string_bytes words.now) ≡ Some c) }
    ensures within { IfOk result IsWithin }
    ensures refused { IfErr result (λ f. f ≡ Usage → command_of (map string_bytes words.now) ≡ None) }
{
    match words {
        [] => Err(WordsFault::Usage),
        [word, rest @ ..] => match word.as_str() {
            "solve" => read_solve(alloc, rest),
            "check" => read_check(alloc, rest),
            "make" => read_make(alloc, rest),
            "drill" => read_drill(alloc, rest),
            "tour" => read_tour(alloc, rest),
            "flow" => read_flow(alloc, rest),
            "draw" => read_draw(alloc, rest),
            _ => Err(WordsFault::Usage),
        },
    }
}
