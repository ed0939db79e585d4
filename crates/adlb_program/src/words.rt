//! The words of the command line.

ghost use Rattle.std.specs.Prelude.{◌≡◌};

use adlb_command::RunFault;
use std::env;
use std::env::Env;
use std::io::ErrorKind;

/// The words of the command line, without the program's name. A word that is not UTF-8 is refused.
pub(crate) fn words_of<R: Env + AllocGlobal>(rt: &R) -> Result<Vec<String>, RunFault> {
    let mut given = match env::args(rt) {
        Ok(given) => given,
        Err(error) => return Err(unread(error.kind())),
    };
    let _ = given.next();
    let mut words = Vec::new(rt.alloc());
    for word in given {
        if words.push(word).is_err() {
            return Err(RunFault::Memory);
        }
    }
    Ok(words)
}

// Why the words were not read: an allocation failed, or one of them is not UTF-8, and so is no word of the command line.
fn unread(kind: ErrorKind) -> RunFault
    ensures memory { kind ≡ ErrorKind.OutOfMemory → result ≡ RunFault.Memory }
    ensures usage { (kind ≡ ErrorKind.OutOfMemory → ⊥) → result ≡ RunFault.Usage }
{
    match kind {
        ErrorKind::OutOfMemory => RunFault::Memory,
        _ => RunFault::Usage,
    }
}
