// A request and its answer as numbers: rows of two lent lists.
ghost use Rattle.numbers.specs.Library.{lit<};
ghost use Rattle.batch_rules.specs.Asked.{askings, tolds, three_numbers, seven_numbers};

use rows::header::Header;
use rows::row::Row;

// What is asked (1 allocate, 2 release, 3 look-up), and its two numbers: the sides, or row and generation.
#[derive(Clone, Copy)]
pub struct Asking {
    pub kind: u16,
    pub first: u16,
    pub second: u16,
}

// An answer of document 01, and what is told beside it: zeros where nothing is.
#[derive(Clone, Copy, Default)]
pub struct Told {
    pub answer: u16,
    pub row: u16,
    pub generation: u16,
    pub x0: u16,
    pub y0: u16,
    pub x1: u16,
    pub y1: u16,
}

// A request's answer, and the header after it.
#[derive(Clone, Copy)]
pub struct Served {
    pub told: Told,
    pub header: Header,
}

impl Row for Asking {
    // The place in the list.
    type Index = u16;

    const NUMBERS: usize = 3;

    ghost NUMBERS = { 3 };

    ghost shape = { askings };

    ghost number = { λ at. at };

    fn number(at: u16) -> u16 {
        at
    }

    #[tactic(auto, unfolding(crate::specs::Asked::askings))]
    fn zero() -> Asking {
        Asking {
            kind: 0,
            first: 0,
            second: 0,
        }
    }

    #[tactic(auto, unfolding(crate::specs::Asked::askings))]
    fn read(numbers: &[u16]) -> Asking {
        Asking {
            kind: numbers[0],
            first: numbers[1],
            second: numbers[2],
        }
    }

    #[tactic(auto, unfolding(crate::specs::Asked::askings))]
    fn write(self, numbers: &mut [u16]) {
        numbers.copy_from_slice(&[self.kind, self.first, self.second]);
    }

    ghost wide = { three_numbers };

    ghost few = { lit< tt };
}

impl Row for Told {
    // The place in the list.
    type Index = u16;

    const NUMBERS: usize = 7;

    ghost NUMBERS = { 7 };

    ghost shape = { tolds };

    ghost number = { λ at. at };

    fn number(at: u16) -> u16 {
        at
    }

    #[tactic(auto, unfolding(crate::specs::Asked::tolds))]
    fn zero() -> Told {
        Told {
            answer: 0,
            row: 0,
            generation: 0,
            x0: 0,
            y0: 0,
            x1: 0,
            y1: 0,
        }
    }

    #[tactic(auto, unfolding(crate::specs::Asked::tolds))]
    fn read(numbers: &[u16]) -> Told {
        Told {
            answer: numbers[0],
            row: numbers[1],
            generation: numbers[2],
            x0: numbers[3],
            y0: numbers[4],
            x1: numbers[5],
            y1: numbers[6],
        }
    }

    #[tactic(auto, unfolding(crate::specs::Asked::tolds))]
    fn write(self, numbers: &mut [u16]) {
        numbers.copy_from_slice(&[
            self.answer,
            self.row,
            self.generation,
            self.x0,
            self.y0,
            self.x1,
            self.y1,
        ]);
    }

    ghost wide = { seven_numbers };

    ghost few = { lit< tt };
}
