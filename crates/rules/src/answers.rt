// The number and the detail that the paper gives to each answer. Functions and no From: an answer has both, and each is a number.
ghost use Rattle.std.specs.Prelude.{◌≡◌};
ghost use Rattle.rules.specs.Answers.{refusal_number, refusal_detail, number, detail};

use crate::{Answer, Refusal};

// A refusal's number in the table of refusals.
pub fn refusal_number(refusal: Refusal) -> usize
    ensures { result ≡ refusal_number refusal }
{
    match refusal {
        Refusal::ShapeNotAllowed => 1,
        Refusal::WrongLength => 2,
        Refusal::NotValid => 3,
        Refusal::NoThread => 4,
        Refusal::NotRunning => 5,
        Refusal::IsBlocked => 6,
        Refusal::CallOpen => 7,
        Refusal::NoCall => 8,
        Refusal::SizeAboveTop => 9,
        Refusal::WaitOutside => 10,
        Refusal::IdOutside => 11,
        Refusal::NotAllocated => 12,
        Refusal::NotOwner => 13,
        Refusal::NoRoom => 14,
        Refusal::TimedOut => 15,
        Refusal::ClockAtEnd => 16,
        Refusal::BadRecord(_) => 17,
        Refusal::OffsetOutside => 18,
        Refusal::RowTooShort => 19,
    }
}

// A refusal's detail: the offset of a bad record, else 0.
pub fn refusal_detail(refusal: Refusal) -> usize
    ensures { result ≡ refusal_detail refusal }
{
    match refusal {
        Refusal::BadRecord(at) => at,
        _ => 0,
    }
}

// An answer's number in the listing: that of the answer, or of the refusal.
pub fn number(answered: Result<Answer, Refusal>) -> usize
    ensures { result ≡ number answered }
{
    match answered {
        Err(refusal) => refusal_number(refusal),
        Ok(Answer::Opened) => 40,
        Ok(Answer::Found(_)) => 41,
        Ok(Answer::Again) => 42,
        Ok(Answer::Taken(_)) => 43,
        Ok(Answer::Split(_)) => 44,
        Ok(Answer::Granted(_)) => 45,
        Ok(Answer::Waiting) => 46,
        Ok(Answer::Merged(_)) => 47,
        Ok(Answer::Settled(_)) => 48,
        Ok(Answer::Switched) => 49,
        Ok(Answer::Ticked(_)) => 50,
        Ok(Answer::Whole) => 51,
        Ok(Answer::NotWhole) => 52,
        Ok(Answer::Built) => 53,
    }
}

// An answer's detail in the listing: a level, an id, a number of threads woken or an offset, else 0.
pub fn detail(answered: Result<Answer, Refusal>) -> usize
    ensures { result ≡ detail answered }
{
    match answered {
        Err(refusal) => refusal_detail(refusal),
        Ok(Answer::Found(level)) => level,
        Ok(Answer::Taken(id) | Answer::Split(id) | Answer::Granted(id) | Answer::Merged(id)) => id,
        Ok(Answer::Settled(woken) | Answer::Ticked(woken)) => woken,
        Ok(_) => 0,
    }
}
