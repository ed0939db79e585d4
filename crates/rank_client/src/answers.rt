//! What a call of a link tells, by what it came to.

ghost use Rattle.std.specs.Prelude.{◌≡◌, IfErr, IfOk, true};
ghost use Rattle.rank_client.specs.Answers.{answers_count, answers_done, answers_fetch, answers_put, answers_reserve, answers_try};
ghost use Rattle.rank_client.specs.Link.{count_came, done_came, fetch_came, put_came, reserve_came, try_came};

use crate::faults::{EndFault, PutFault, TryFault};
use adlb_unit::{End, Handle, Info, Trouble};
use bag_ledger::{Answer, Body};

// What a put tells, or the beginning of a batch, if it came to this answer or trouble.
pub(crate) fn put_result(came: Result<Answer, Trouble>) -> Result<(), PutFault>
    requires { IfOk came (λ a. answers_put a ≡ true) }
    ensures { put_came result ≡ came }
{
    match came {
        Ok(Answer::Fine) => Ok(()),
        Ok(Answer::Rejected) => Err(PutFault::Rejected),
        Ok(Answer::Ended(End::NoMoreWork)) => Err(PutFault::NoMoreWork),
        Ok(Answer::Ended(End::Exhausted)) => Err(PutFault::Exhausted),
        Ok(_) => unreachable!(),
        Err(Trouble::Memory) => Err(PutFault::Memory),
        Err(Trouble::TooLong { stamp }) => Err(PutFault::TooLong { stamp }),
    }
}

// What a reserve tells, if it came to this answer or trouble.
pub(crate) fn reserve_result(came: Result<Answer, Trouble>) -> Result<Handle, EndFault>
    requires { IfOk came (λ a. answers_reserve a ≡ true) }
    ensures { reserve_came result ≡ came }
{
    match came {
        Ok(Answer::Granted(note)) => Ok(Handle::of(note)),
        Ok(Answer::Ended(End::NoMoreWork)) => Err(EndFault::NoMoreWork),
        Ok(Answer::Ended(End::Exhausted)) => Err(EndFault::Exhausted),
        Ok(_) => unreachable!(),
        Err(Trouble::Memory) => Err(EndFault::Memory),
        Err(Trouble::TooLong { stamp }) => Err(EndFault::TooLong { stamp }),
    }
}

// What a try tells, if it came to this answer or trouble.
pub(crate) fn try_result(came: Result<Answer, Trouble>) -> Result<Handle, TryFault>
    requires { IfOk came (λ a. answers_try a ≡ true) }
    ensures { try_came result ≡ came }
{
    match came {
        Ok(Answer::Granted(note)) => Ok(Handle::of(note)),
        Ok(Answer::NoCurrent) => Err(TryFault::NoCurrentWork),
        Ok(Answer::Ended(End::NoMoreWork)) => Err(TryFault::NoMoreWork),
        Ok(Answer::Ended(End::Exhausted)) => Err(TryFault::Exhausted),
        Ok(_) => unreachable!(),
        Err(Trouble::Memory) => Err(TryFault::Memory),
        Err(Trouble::TooLong { stamp }) => Err(TryFault::TooLong { stamp }),
    }
}

// What a fetch tells, if it came to this answer, or to trouble, which hands the handle back.
pub(crate) fn fetch_result(
    handle: Handle,
    came: Result<Answer, Trouble>,
) -> Result<Body, (Handle, Trouble)>
    requires { IfOk came (λ a. answers_fetch a ≡ true) }
    ensures came { fetch_came result ≡ came }
    ensures back { IfErr result (λ e. e.0 ≡ handle) }
{
    match came {
        Ok(Answer::Body(body)) => {
            let _ = handle.spend();
            Ok(body)
        }
        Ok(_) => unreachable!(),
        Err(trouble) => Err((handle, trouble)),
    }
}

// What the end of a batch, of the problem or of the rank tells, if it came to this answer or trouble.
pub(crate) fn done_result(came: Result<Answer, Trouble>) -> Result<(), Trouble>
    requires { IfOk came (λ a. answers_done a ≡ true) }
    ensures { done_came result ≡ came }
{
    match came {
        Ok(Answer::Fine) => Ok(()),
        Ok(_) => unreachable!(),
        Err(trouble) => Err(trouble),
    }
}

// What a count tells, if it came to this answer or trouble.
pub(crate) fn count_result(came: Result<Answer, Trouble>) -> Result<Info, Trouble>
    requires { IfOk came (λ a. answers_count a ≡ true) }
    ensures { count_came result ≡ came }
{
    match came {
        Ok(Answer::Info(info)) => Ok(info),
        Ok(_) => unreachable!(),
        Err(trouble) => Err(trouble),
    }
}
