// One line of the script, without its newline, into a command.
ghost use Rattle.std.specs.Prelude.{◌≡◌, ◌+◌, ◌≤◌, ◌==◌, length, drop, position};
ghost use Rattle.lines.specs.Line.{first_word, of_six, of_two, of_none, of_letter, said_by, command_of};

use crate::command::{Change, Command, CreateArgs, Tell};
use numerals::read_number;

const LONGEST_LINE: usize = 80;

fn of_none(letter: u8) -> Option<Command>
    ensures { result ≡ of_none letter }
{
    match letter {
        b's' => Some(Command::Tell(Tell::Space)),
        b'l' => Some(Command::Tell(Tell::List)),
        b'c' => Some(Command::Change(Change::Clear)),
        _ => None,
    }
}

fn of_two(letter: u8, x: i32, y: i32) -> Option<Command>
    ensures { result ≡ of_two letter x y }
{
    match letter {
        b'a' => Some(Command::Change(Change::Ask(x, y))),
        b'r' => Some(Command::Change(Change::Release(x, y))),
        b'g' => Some(Command::Tell(Tell::Look(x, y))),
        _ => None,
    }
}

fn of_six(letter: u8, args: CreateArgs) -> Option<Command>
    ensures { result ≡ of_six letter args }
{
    match letter {
        b'n' => Some(Command::Change(Change::Create(args))),
        _ => None,
    }
}

// The command of a letter and its numbers.
fn of_letter(letter: u8, numbers: &[i32]) -> Option<Command>
    ensures { result ≡ of_letter letter numbers.now }
{
    match *numbers {
        [] => of_none(letter),
        [x, y] => of_two(letter, x, y),
        [w, h, align_w, align_h, vertical, columns] => of_six(
            letter,
            CreateArgs {
                w,
                h,
                align_w,
                align_h,
                vertical,
                columns,
            },
        ),
        _ => None,
    }
}

fn first_space(rest: &[u8]) -> Option<usize>
    ensures { result ≡ position (λ byte. byte == 32) rest.now }
{
    rest.iter().position(|byte| *byte == b' ')
}

// Where the word that starts at `from` ends.
fn word_end(line: &[u8], from: usize) -> usize
    requires { from ≤ length line.now }
    ensures value { result ≡ from + length (first_word (drop from line.now)) }
    ensures upper_bound { result ≤ length line.now }
{
    match first_space(&line[from..]) {
        Some(before) => from + before,
        None => line.len(),
    }
}

// What a line says, however long it is.
fn read_words(line: &[u8]) -> Option<Command>
    ensures { result ≡ said_by line.now }
{
    let first = word_end(line, 0);
    if first != 1 {
        return None;
    }
    let mut numbers = [0i32; 6];
    let mut count: usize = 0;
    let mut at: usize = 1;
    while at < line.len() {
        if count == 6 {
            return None;
        }
        let from = at + 1;
        let end = word_end(line, from);
        let z = read_number(&line[from..end])?;
        numbers[count] = z;
        count += 1;
        at = end;
    }
    of_letter(line[0], &numbers[..count])
}

// The command that a line is; a line that is none has answer 11.
pub fn read_line(line: &[u8]) -> Option<Command>
    ensures { result ≡ command_of line.now }
{
    if line.len() > LONGEST_LINE {
        return None;
    }
    read_words(line)
}
