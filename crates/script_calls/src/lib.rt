// The commands that may change the tables: n, a, r and c, each as a call of the rules.
#![tactic(auto)]

ghost use Rattle.lines.specs.declared.command.Change.TheVariants as change;
ghost use Rattle.rules.specs.Step as call;
ghost use Rattle.texts.specs.Answer.{text_of};
ghost use Rattle.script_rules.specs.Answers.{change_of};
ghost use Rattle.script_rules.specs.Step.{Calling};

use lines::command::CreateArgs;
use rows::header::Header;
use script_rules::Answered;
use script_rules::answers::{of_creation, of_grant, of_reply};
use script_rules::ids::{Id, id_of};
use script_rules::outside::outside;

pub fn on_create(h: Header, shelves: &mut [u16], items: &mut [u16], args: CreateArgs) -> Answered
    ensures { Calling h shelves.old items.old (change_of (change.Create args)) result.header shelves.new items.new (text_of result.answer) }
{
    let made = create::create(
        shelves,
        items,
        args.w,
        args.h,
        args.align_w,
        args.align_h,
        args.vertical,
        args.columns,
    );
    Answered {
        header: made.header,
        answer: of_creation(made.answer),
    }
}

pub fn on_ask(h: Header, shelves: &mut [u16], items: &mut [u16], w: i32, height: i32) -> Answered
    ensures { Calling h shelves.old items.old (change_of (change.Ask w height)) result.header shelves.new items.new (text_of result.answer) }
{
    let allocated = allocate::allocate(h, shelves, items, w, height);
    Answered {
        header: allocated.header,
        answer: of_grant(allocated.answer),
    }
}

fn release_id(h: Header, shelves: &mut [u16], items: &mut [u16], id: Id) -> Answered
    ensures { Calling h shelves.old items.old (call.Release id.row id.generation) result.header shelves.new items.new (text_of result.answer) }
{
    let released = release::release(h, shelves, items, id.row, id.generation);
    Answered {
        header: released.header,
        answer: of_reply(released.answer),
    }
}

pub fn on_release(
    h: Header,
    shelves: &mut [u16],
    items: &mut [u16],
    row: i32,
    generation: i32,
) -> Answered
    ensures { Calling h shelves.old items.old (change_of (change.Release row generation)) result.header shelves.new items.new (text_of result.answer) }
{
    match id_of(row, generation) {
        Some(id) => release_id(h, shelves, items, id),
        None => Answered {
            header: h,
            answer: outside(h, shelves, items),
        },
    }
}

pub fn on_clear(h: Header, shelves: &mut [u16], items: &mut [u16]) -> Answered
    ensures { Calling h shelves.old items.old (change_of change.Clear) result.header shelves.new items.new (text_of result.answer) }
{
    let cleared = create::clear(h, shelves, items);
    Answered {
        header: cleared.header,
        answer: of_reply(cleared.answer),
    }
}
