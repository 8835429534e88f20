// Reads a table of lines from standard input, and writes the command of each in a short form: its letter and its numbers, or "bad".
// Then it writes a table of answers, each kind with small numbers and with the largest.
#![tactic(auto)]

use lines::command::{Change, Command, CreateArgs, Tell};
use lines::read::read_line;
use numbers::refusal::Refusal;
use rows::live::Live;
use std::io;
use std::io::Read;
use texts::answer::{Answer, put_answer};
use texts::text::{put_byte, put_number, put_text};

// An answer's kind, and three numbers of which it takes as many as it has.
const ANSWERS: [[u32; 4]; 12] = [
    [0, 0, 0, 0],
    [1, 2, 0, 0],
    [1, 65535, 0, 0],
    [2, 0, 1, 32],
    [2, 65535, 65535, 65535],
    [3, 2176, 4192128, 0],
    [3, 4294967295, 0, 0],
    [4, 2, 1, 9],
    [5, 2, 0, 0],
    [5, 4294967295, 0, 0],
    [6, 0, 0, 0],
    [7, 0, 0, 0],
];

fn put_signed(out: &mut [u8], at: usize, z: i32) -> usize {
    let mut end = put_byte(out, at, b' ');
    if z < 0 {
        end = put_byte(out, end, b'-');
    }
    put_number(out, end, z.unsigned_abs())
}

fn put_words(out: &mut [u8], letter: u8, numbers: &[i32]) -> usize {
    let mut end = put_byte(out, 0, letter);
    for &number in numbers {
        end = put_signed(out, end, number);
    }
    put_byte(out, end, b'\n')
}

fn put_letter(out: &mut [u8], letter: u8) -> usize {
    let end = put_byte(out, 0, letter);
    put_byte(out, end, b'\n')
}

fn put_pair(out: &mut [u8], letter: u8, x: i32, y: i32) -> usize {
    put_words(out, letter, &[x, y])
}

fn put_create(out: &mut [u8], args: CreateArgs) -> usize {
    put_words(
        out,
        b'n',
        &[
            args.w,
            args.h,
            args.align_w,
            args.align_h,
            args.vertical,
            args.columns,
        ],
    )
}

fn put_tell(out: &mut [u8], tell: Tell) -> usize {
    match tell {
        Tell::Look(x, y) => put_pair(out, b'g', x, y),
        Tell::Space => put_letter(out, b's'),
        Tell::List => put_letter(out, b'l'),
    }
}

fn put_change(out: &mut [u8], change: Change) -> usize {
    match change {
        Change::Create(args) => put_create(out, args),
        Change::Ask(x, y) => put_pair(out, b'a', x, y),
        Change::Release(x, y) => put_pair(out, b'r', x, y),
        Change::Clear => put_letter(out, b'c'),
    }
}

fn put_command(out: &mut [u8], command: Option<Command>) -> usize {
    match command {
        None => put_text(out, 0, b"bad\n"),
        Some(Command::Tell(tell)) => put_tell(out, tell),
        Some(Command::Change(change)) => put_change(out, change),
    }
}

fn show(rt: HostRuntime, line: &[u8]) -> io::Result<()> {
    let mut out = [0u8; 128];
    let n = put_command(&mut out, read_line(line));
    if n <= 128 {
        rt.write_all(&out[0..n])?;
    }
    Ok(())
}

fn show_lines(rt: HostRuntime, text: &[u8]) -> io::Result<()> {
    for line in text.split_inclusive(|byte| *byte == b'\n') {
        show(rt, line.strip_suffix(b"\n").unwrap_or(line))?;
    }
    Ok(())
}

fn narrow(n: u32) -> u16 {
    (n % 65536) as u16
}

fn live(row: u32, generation: u32, far: u32) -> Live {
    Live {
        row: narrow(row),
        generation: narrow(generation),
        x0: 0,
        y0: narrow(far),
        x1: 10,
        y1: narrow(far),
    }
}

fn answer_of(numbers: [u32; 4]) -> Answer {
    let a = numbers[1];
    let b = numbers[2];
    let c = numbers[3];
    match numbers[0] {
        0 => Answer::Done,
        1 => Answer::Made(narrow(a)),
        2 => Answer::Item(live(a, b, c)),
        3 => Answer::Space(a, b),
        4 => Answer::Listed(live(a, b, c)),
        5 => Answer::End(a),
        6 => Answer::No(Refusal::NotReadable),
        _ => Answer::No(Refusal::NoSuchItem),
    }
}

fn show_answer(rt: HostRuntime, answer: Answer) -> io::Result<()> {
    let mut out = [0u8; 64];
    let n = put_answer(&mut out, 0, answer);
    if n <= 64 {
        rt.write_all(&out[0..n])?;
    }
    Ok(())
}

fn show_answers(rt: HostRuntime) -> io::Result<()> {
    for numbers in ANSWERS {
        show_answer(rt, answer_of(numbers))?;
    }
    Ok(())
}

fn main(rt: HostRuntime) -> io::Result<()> {
    let mut table = [0u8; 4096];
    let n = rt.stdin().read(&mut table)?;
    if n > 0 {
        show_lines(rt, &table[0..n])?;
    }
    show_answers(rt)
}
