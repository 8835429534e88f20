// One step of the script program: a line in, the text of its answer out, and the state after it.
#![tactic(auto)]

ghost use Rattle.lines.specs.Line.{command_of};
ghost use Rattle.texts.specs.Answer.{text_of};
ghost use Rattle.script_rules.specs.Answers.{change_of};
ghost use Rattle.script_rules.specs.Step.{Calling, Steps, Doing};

use lines::command::{Change, Command};
use lines::read::read_line;
use numbers::refusal::Refusal;
use rows::header::Header;
use script_calls::{on_ask, on_clear, on_create, on_release};
use script_rules::answers::say;
use script_rules::{Answered, Stepped};
use script_tells::tell::tell;
use texts::answer::Answer;

// What a command that may change the tables is answered, before it is told.
fn change(h: Header, shelves: &mut [u16], items: &mut [u16], asked: Change) -> Answered
    ensures { Calling h shelves.old items.old (change_of asked) result.header shelves.new items.new (text_of result.answer) }
{
    match asked {
        Change::Create(args) => on_create(h, shelves, items, args),
        Change::Ask(w, height) => on_ask(h, shelves, items, w, height),
        Change::Release(row, generation) => on_release(h, shelves, items, row, generation),
        Change::Clear => on_clear(h, shelves, items),
    }
}

// Answers one line, without its newline. The text goes into `out` from `at` on; of an answer that has no room there, the end is missing.
pub fn step(
    h: Header,
    shelves: &mut [u16],
    items: &mut [u16],
    line: &[u8],
    out: &mut [u8],
    at: usize,
) -> Stepped
    ensures { Steps (Doing h shelves.old items.old (command_of line.now)) out.old at result shelves.new items.new out.new }
{
    let Some(command) = read_line(line) else {
        return say(h, out, at, Answer::No(Refusal::NotReadable));
    };
    match command {
        Command::Tell(asked) => tell(h, shelves, items, asked, out, at),
        Command::Change(asked) => {
            let answered = change(h, shelves, items, asked);
            say(answered.header, out, at, answered.answer)
        }
    }
}
