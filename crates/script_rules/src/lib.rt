// What the script's commands and answers mean in the rules: the call that a command is, the text that an outcome has, and an answer put into the output.
#![tactic(auto)]

pub mod answers;
pub mod ids;
pub mod outside;

use rows::header::Header;
use texts::answer::Answer;

// The header after a command, and what is answered.
#[derive(Clone, Copy)]
pub struct Answered {
    pub header: Header,
    pub answer: Answer,
}

// The header after a line, and the place after the text of its answer.
#[derive(Clone, Copy)]
pub struct Stepped {
    pub header: Header,
    pub at: usize,
}
