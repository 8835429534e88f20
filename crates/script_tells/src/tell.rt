// The commands that change nothing: g and s here, and l in its own file.
ghost use Rattle.lines.specs.declared.command.Tell.TheVariants as tell;
ghost use Rattle.rules.specs.Step as call;
ghost use Rattle.texts.specs.Answer.{text_of};
ghost use Rattle.script_rules.specs.Answers.{tell_of};
ghost use Rattle.script_rules.specs.Step.{Steps, Calling};

use crate::list::on_list;
use lines::command::Tell;
use numbers::refusal::Refusal;
use rows::header::Header;
use script_rules::Stepped;
use script_rules::answers::{of_grant, say};
use script_rules::ids::{Id, id_of};
use script_rules::outside::outside;
use texts::answer::Answer;

fn look_id(h: Header, shelves: &[u16], items: &[u16], id: Id) -> Answer
    ensures { Calling h shelves.now items.now (call.LookUp id.row id.generation) h shelves.now items.now (text_of result) }
{
    of_grant(queries::tell::look_up(h, shelves, items, id.row, id.generation))
}

fn on_look(h: Header, shelves: &[u16], items: &[u16], row: i32, generation: i32) -> Answer
    ensures { Calling h shelves.now items.now (tell_of (tell.Look row generation)) h shelves.now items.now (text_of result) }
{
    match id_of(row, generation) {
        Some(id) => look_id(h, shelves, items, id),
        None => outside(h, shelves, items),
    }
}

// Occupied, then free. The header has the occupied total, which the audit has found right.
fn on_space(h: Header, shelves: &[u16], items: &[u16]) -> Answer
    ensures { Calling h shelves.now items.now (tell_of tell.Space) h shelves.now items.now (text_of result) }
{
    if !audit::passes(h, shelves, items) {
        return Answer::No(Refusal::Audit);
    }
    Answer::Space(h.occupied, queries::tell::space_left(h))
}

pub fn tell(
    h: Header,
    shelves: &[u16],
    items: &[u16],
    asked: Tell,
    out: &mut [u8],
    at: usize,
) -> Stepped
    ensures { Steps (Calling h shelves.now items.now (tell_of asked)) out.old at result shelves.now items.now out.new }
{
    match asked {
        Tell::Look(row, generation) => say(h, out, at, on_look(h, shelves, items, row, generation)),
        Tell::Space => say(h, out, at, on_space(h, shelves, items)),
        Tell::List => on_list(h, shelves, items, out, at),
    }
}
