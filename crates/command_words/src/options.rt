//! What `clap` is told about each command.

ghost use Rattle.std.specs.Prelude.{◌≡◌, IfOk, false};
ghost use Rattle.clap.specs.Words.{app_of, rule_of, with_rule};
ghost use Rattle.command_words.specs.Options.{bare, check_app, draw_app, drill_app, flag_rule, flow_app, make_app, number_rule};
ghost use Rattle.command_words.specs.Options.{option_rule, solve_app, tour_app, with_made, with_manner, with_run, with_sizes};
ghost use Rattle.command_words.specs.Options.{with_told_sizes, with_work};

use clap::builder::ValueParser;
use clap::{Arg, ArgAction, Command};
use std::alloc::{AllocError, Global};

// A number by itself.
fn number<'a>(alloc: Global, name: &'a str, low: u64, high: u64) -> Arg<'a>
    ensures rule { rule_of result ≡ number_rule name.entry.now low high }
    ensures own { result.global ≡ false }
{
    Arg::new(alloc, name)
        .action(ArgAction::Set)
        .value_parser(ValueParser::Unsigned(low, high))
        .required(true)
}

// An option with a number.
fn option<'a>(alloc: Global, name: &'a str, low: u64, high: u64) -> Arg<'a>
    ensures rule { rule_of result ≡ option_rule name.entry.now low high }
    ensures own { result.global ≡ false }
{
    Arg::new(alloc, name)
        .long(name)
        .action(ArgAction::Set)
        .value_parser(ValueParser::Unsigned(low, high))
}

fn flag<'a>(alloc: Global, name: &'a str) -> Arg<'a>
    ensures rule { rule_of result ≡ flag_rule name.entry.now }
    ensures own { result.global ≡ false }
{
    Arg::new(alloc, name)
        .long(name)
        .action(ArgAction::SetTrue)
        .value_parser(ValueParser::Bool)
}

fn command<'a>(alloc: Global, name: &'a str) -> Command<'a>
    ensures { app_of result ≡ bare name.entry.now }
{
    Command::new(alloc, name)
        .no_binary_name(true)
        .disable_help_flag(true)
        .disable_version_flag(true)
}

// The command, which takes a number as well.
fn with_number<'a>(
    alloc: Global,
    command: Command<'a>,
    name: &'a str,
    low: u64,
    high: u64,
) -> Result<Command<'a>, AllocError>
    ensures { IfOk result (λ c. app_of c ≡ with_rule (app_of command.entry) (number_rule name.entry.now low high)) }
{
    command.arg(number(alloc, name, low, high))
}

// The command, which takes an option as well.
fn with_option<'a>(
    alloc: Global,
    command: Command<'a>,
    name: &'a str,
    low: u64,
    high: u64,
) -> Result<Command<'a>, AllocError>
    ensures { IfOk result (λ c. app_of c ≡ with_rule (app_of command.entry) (option_rule name.entry.now low high)) }
{
    command.arg(option(alloc, name, low, high))
}

// The command, which takes a flag as well.
fn with_flag<'a>(
    alloc: Global,
    command: Command<'a>,
    name: &'a str,
) -> Result<Command<'a>, AllocError>
    ensures { IfOk result (λ c. app_of c ≡ with_rule (app_of command.entry) (flag_rule name.entry.now)) }
{
    command.arg(flag(alloc, name))
}

fn with_made<'a>(alloc: Global, command: Command<'a>) -> Result<Command<'a>, AllocError>
    ensures { IfOk result (λ c. app_of c ≡ with_made (app_of command.entry)) }
{
    let command = with_number(alloc, command, "count", 0, 100_000)?;
    with_number(alloc, command, "seed", 0, u64::MAX)
}

fn with_sizes<'a>(alloc: Global, command: Command<'a>) -> Result<Command<'a>, AllocError>
    ensures { IfOk result (λ c. app_of c ≡ with_sizes (app_of command.entry)) }
{
    let command = with_option(alloc, command, "ranks", 1, 32)?;
    let command = with_option(alloc, command, "servers", 1, 8)?;
    with_option(alloc, command, "limit", 64, 1 << 30)
}

fn with_told_sizes<'a>(alloc: Global, command: Command<'a>) -> Result<Command<'a>, AllocError>
    ensures { IfOk result (λ c. app_of c ≡ with_told_sizes (app_of command.entry)) }
{
    let command = with_sizes(alloc, command)?;
    with_flag(alloc, command, "progress")
}

fn with_work<'a>(alloc: Global, command: Command<'a>) -> Result<Command<'a>, AllocError>
    ensures { IfOk result (λ c. app_of c ≡ with_work (app_of command.entry)) }
{
    let command = with_option(alloc, command, "budget", 1, 1 << 32)?;
    with_option(alloc, command, "grain", 1, 1 << 32)
}

fn with_manner<'a>(alloc: Global, command: Command<'a>) -> Result<Command<'a>, AllocError>
    ensures { IfOk result (λ c. app_of c ≡ with_manner (app_of command.entry)) }
{
    let command = with_flag(alloc, command, "inline")?;
    with_flag(alloc, command, "progress")
}

fn with_run<'a>(alloc: Global, command: Command<'a>) -> Result<Command<'a>, AllocError>
    ensures { IfOk result (λ c. app_of c ≡ with_run (app_of command.entry)) }
{
    let command = with_work(alloc, with_sizes(alloc, command)?)?;
    with_manner(alloc, command)
}

/// `solve` (`solve_app`).
pub(crate) fn solve_command<'a>(alloc: Global) -> Result<Command<'a>, AllocError>
    ensures { IfOk result (λ c. app_of c ≡ solve_app) }
{
    let command = with_run(alloc, command(alloc, "solve"))?;
    with_flag(alloc, with_flag(alloc, command, "stats")?, "ledger")
}

/// `check` (`check_app`).
pub(crate) fn check_command<'a>(alloc: Global) -> Command<'a>
    ensures { app_of result ≡ check_app }
{
    command(alloc, "check")
}

/// `make` (`make_app`).
pub(crate) fn make_command<'a>(alloc: Global) -> Result<Command<'a>, AllocError>
    ensures { IfOk result (λ c. app_of c ≡ make_app) }
{
    with_made(alloc, command(alloc, "make"))
}

/// `drill` (`drill_app`).
pub(crate) fn drill_command<'a>(alloc: Global) -> Result<Command<'a>, AllocError>
    ensures { IfOk result (λ c. app_of c ≡ drill_app) }
{
    with_run(alloc, with_made(alloc, command(alloc, "drill"))?)
}

/// `tour` (`tour_app`).
pub(crate) fn tour_command<'a>(alloc: Global) -> Result<Command<'a>, AllocError>
    ensures { IfOk result (λ c. app_of c ≡ tour_app) }
{
    with_told_sizes(alloc, command(alloc, "tour"))
}

/// `flow` (`flow_app`).
pub(crate) fn flow_command<'a>(alloc: Global) -> Result<Command<'a>, AllocError>
    ensures { IfOk result (λ c. app_of c ≡ flow_app) }
{
    with_told_sizes(alloc, command(alloc, "flow"))
}

/// `draw` (`draw_app`).
pub(crate) fn draw_command<'a>(alloc: Global) -> Command<'a>
    ensures { app_of result ≡ draw_app }
{
    command(alloc, "draw")
}
