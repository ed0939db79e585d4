//! Which word is refused, and why, for whoever typed it.

use crate::options::{
    check_command, draw_command, drill_command, flow_command, make_command, solve_command,
    tour_command,
};
use clap::error::ErrorKind;
use std::alloc::{AllocError, Global};

/// Which of these words is refused and why, in a line; `None` if they say a command. It is for the user's eyes: that words which say no
/// command are refused is what `read_words` says, and no clause says anything of this line.
pub fn refusal(alloc: Global, words: &[String]) -> Result<Option<String>, AllocError> {
    match words {
        [] => told(alloc, "no command is given"),
        [word, rest @ ..] => match word.as_str() {
            "solve" => refused_by(alloc, solve_command(alloc)?, rest),
            "check" => refused_by(alloc, check_command(alloc), rest),
            "make" => refused_by(alloc, make_command(alloc)?, rest),
            "drill" => refused_by(alloc, drill_command(alloc)?, rest),
            "tour" => refused_by(alloc, tour_command(alloc)?, rest),
            "flow" => refused_by(alloc, flow_command(alloc)?, rest),
            "draw" => refused_by(alloc, draw_command(alloc), rest),
            other => Ok(Some(format!(in alloc; "there is no command '{other}'")?)),
        },
    }
}

// Why `clap` refuses the words after the command: the first line of its text, without `error: `. Which numbers are missing it would tell
// on further lines.
fn refused_by<'a>(
    alloc: Global,
    command: clap::Command<'a>,
    words: &'a [String],
) -> Result<Option<String>, AllocError> {
    let Err(error) = command.try_get_matches_from(words) else {
        return Ok(None);
    };
    match error.kind() {
        ErrorKind::OutOfMemory => Err(AllocError),
        ErrorKind::MissingRequiredArgument => told(alloc, "N or SEED is not given"),
        _ => {
            let text = error.to_string(alloc)?;
            let line = text.as_str().lines().next().unwrap_or("");
            told(alloc, line.strip_prefix("error: ").unwrap_or(line))
        }
    }
}

fn told(alloc: Global, text: &str) -> Result<Option<String>, AllocError> {
    Ok(Some(String::from_str(alloc, text)?))
}
