// What an answer tells of a live item: its id, and the corners of its rectangle in x and y. In a lent list it is a record of six numbers.
ghost use Rattle.numbers.specs.Library.{lit<};
ghost use Rattle.rows.specs.Live.{records, six_numbers};

use crate::row::Row;

#[derive(Clone, Copy, Debug, PartialEq, Eq)]
pub struct Live {
    pub row: u16,
    pub generation: u16,
    pub x0: u16,
    pub y0: u16,
    pub x1: u16,
    pub y1: u16,
}

impl Row for Live {
    // The place in the list.
    type Index = u16;

    const NUMBERS: usize = 6;

    ghost NUMBERS = { 6 };

    ghost shape = { records };

    ghost number = { λ at. at };

    fn number(at: u16) -> u16 {
        at
    }

    #[tactic(auto, unfolding(crate::specs::Live::records, crate::specs::Live::live_numbers))]
    fn zero() -> Live {
        Live {
            row: 0,
            generation: 0,
            x0: 0,
            y0: 0,
            x1: 0,
            y1: 0,
        }
    }

    #[tactic(auto, unfolding(crate::specs::Live::records, crate::specs::Live::live_numbers))]
    fn read(numbers: &[u16]) -> Live {
        Live {
            row: numbers[0],
            generation: numbers[1],
            x0: numbers[2],
            y0: numbers[3],
            x1: numbers[4],
            y1: numbers[5],
        }
    }

    #[tactic(auto, unfolding(crate::specs::Live::records, crate::specs::Live::live_numbers))]
    fn write(self, numbers: &mut [u16]) {
        numbers.copy_from_slice(&[
            self.row,
            self.generation,
            self.x0,
            self.y0,
            self.x1,
            self.y1,
        ]);
    }

    ghost wide = { six_numbers };

    ghost few = { lit< tt };
}
