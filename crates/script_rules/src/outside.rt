// An id outside 0 to 65535, as a line can give it.
ghost use Rattle.rules.specs.Step as call;
ghost use Rattle.texts.specs.Answer.{text_of};
ghost use Rattle.script_rules.specs.Step.{Calling};

use numbers::refusal::Refusal;
use rows::header::Header;
use texts::answer::Answer;

// An id that no item can have: 8, but 3 comes first.
pub fn outside(h: Header, shelves: &[u16], items: &[u16]) -> Answer
    ensures { Calling h shelves.now items.now call.NoSuchId h shelves.now items.now (text_of result) }
{
    if !audit::passes(h, shelves, items) {
        return Answer::No(Refusal::Audit);
    }
    Answer::No(Refusal::NoSuchItem)
}
