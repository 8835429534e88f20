// A row of a lent table of 16-bit numbers, and tables of such rows: how many rows there are, and the row at an index read and written. How a kind of row
// stands in its table, its shape, is said by the kind.
ghost use Rattle.std.specs.Prelude.{◌≡◌, ℕ, ◌<◌, ◌≤◌, [], length};
ghost use Rattle.numbers.specs.Decides.{Decides};
ghost use Rattle.rows.specs.Row.{Shape, rows, get, put};

use numbers::index::{MOST_ROWS, NO_ROW};

pub trait Row: Copy {
    // What names a row of this kind.
    type Index: Copy;

    // How many numbers a row has.
    const NUMBERS: usize;

    ghost NUMBERS: { ℕ };

    // How a row stands in a table.
    ghost shape: { Shape Self };

    // The index as a number.
    ghost number: { Self.Index → ℕ };

    fn number(at: Self::Index) -> u16
        ensures { result ≡ number at };

    // The row that these numbers are.
    fn read(numbers: &[u16]) -> Self
        requires { length numbers.now ≡ shape.width }
        ensures { result ≡ shape.value numbers.now };

    // These numbers, all replaced by the row's.
    fn write(self, numbers: &mut [u16])
        requires { length numbers.old ≡ shape.width }
        ensures { numbers.new ≡ shape.numbers self };

    // The row that the numbers of a table without it are: zeros.
    fn zero() -> Self
        ensures { result ≡ shape.value [] };

    ghost wide: { shape.width ≡ NUMBERS };

    ghost few: { NUMBERS < 256 };

    // How many rows a table has: the whole ones, at most 65535.
    final fn capacity(table: &[u16]) -> u16
        ensures { result ≡ rows shape table.now }
    {
        let n = table.len() / Self::NUMBERS;
        if n > MOST_ROWS as usize {
            return MOST_ROWS;
        }
        n as u16
    }

    // Whether a table has n rows. Nothing is divided, as it is for the capacity.
    final fn has(table: &[u16], n: u16) -> bool
        ensures { Decides result (n ≤ rows shape table.now) }
    {
        n as usize * Self::NUMBERS <= table.len()
    }

    // The row at an index that the table has: its length is not tested.
    final fn there(table: &[u16], at: Self::Index) -> Self
        requires { number at < rows shape table.now }
        ensures { result ≡ get shape table.now (number at) }
    {
        let width = Self::NUMBERS;
        let start = Self::number(at) as usize * width;
        Self::read(&table[start..start + width])
    }

    // The row at an index; zeros where the table has no such row.
    final fn get(table: &[u16], at: Self::Index) -> Self
        ensures { result ≡ get shape table.now (number at) }
    {
        let row = Self::number(at);
        if row == NO_ROW {
            return Self::zero();
        }
        let width = Self::NUMBERS;
        let start = row as usize * width;
        let end = start + width;
        if table.len() < end {
            return Self::zero();
        }
        Self::read(&table[start..end])
    }

    // The row goes to an index that the table has: its length is not tested.
    final fn put_there(self, table: &mut [u16], at: Self::Index)
        requires { number at < rows shape table.old }
        ensures { table.new ≡ put shape table.old (number at) self }
    {
        let width = Self::NUMBERS;
        let start = Self::number(at) as usize * width;
        self.write(&mut table[start..start + width]);
    }

    // The row goes to its index; nothing changes where the table has no such row.
    final fn put(self, table: &mut [u16], at: Self::Index)
        ensures { table.new ≡ put shape table.old (number at) self }
    {
        let row = Self::number(at);
        if row == NO_ROW {
            return;
        }
        let width = Self::NUMBERS;
        let start = row as usize * width;
        let end = start + width;
        if table.len() < end {
            return;
        }
        self.write(&mut table[start..end]);
    }
}
