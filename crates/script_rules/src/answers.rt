// What a call answered, as an answer of the script; and an answer put into the output.
ghost use Rattle.std.specs.Prelude.{◌≡◌};
ghost use Rattle.texts.specs.Answer.{text_of};
ghost use Rattle.script_rules.specs.Answers.{created, granted, replied};
ghost use Rattle.script_rules.specs.Step.{Said};

use crate::Stepped;
use numbers::refusal::Refusal;
use rows::header::Header;
use rows::live::Live;
use texts::answer::{Answer, put_answer};

pub fn of_creation(c: Result<u16, Refusal>) -> Answer
    ensures { result ≡ created c }
{
    match c {
        Ok(columns) => Answer::Made(columns),
        Err(refusal) => Answer::No(refusal),
    }
}

pub fn of_grant(g: Result<Live, Refusal>) -> Answer
    ensures { result ≡ granted g }
{
    match g {
        Ok(live) => Answer::Item(live),
        Err(refusal) => Answer::No(refusal),
    }
}

pub fn of_reply(reply: Result<(), Refusal>) -> Answer
    ensures { result ≡ replied reply }
{
    match reply {
        Ok(()) => Answer::Done,
        Err(refusal) => Answer::No(refusal),
    }
}

// Puts the answer, beside the header that now stands.
pub fn say(h: Header, out: &mut [u8], at: usize, answer: Answer) -> Stepped
    ensures { Said h out.old at (text_of answer) result out.new }
{
    Stepped {
        header: h,
        at: put_answer(out, at, answer),
    }
}
