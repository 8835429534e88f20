// The row of a shelf or of an item, as a type of its own, so that one is never taken for the other.
ghost use Rattle.std.specs.Prelude.{◌≡◌, eqb};
ghost use Rattle.numbers.specs.Index.{no_row, no_shelf, no_item};

// No row, in a walk that holds rows as plain numbers.
pub const NO_ROW: u16 = 65535;

// The most rows that a table has: so none has the index that names no row.
pub const MOST_ROWS: u16 = NO_ROW;

// A row of the shelf table, or none.
#[derive(Clone, Copy, Debug, PartialEq, Eq)]
pub struct ShelfIndex(pub u16);

impl ShelfIndex {
    pub const NONE: ShelfIndex = ShelfIndex(NO_ROW);

    pub fn new(row: u16) -> ShelfIndex
        ensures { result ≡ record { 0 = row } }
    {
        ShelfIndex(row)
    }

    pub fn none() -> ShelfIndex
        ensures { result ≡ no_shelf }
    {
        ShelfIndex::NONE
    }

    pub fn is_none(self) -> bool
        ensures { result ≡ eqb self.0 no_row }
    {
        self == ShelfIndex::NONE
    }
}

// A row of the item table, or none.
#[derive(Clone, Copy, Debug, PartialEq, Eq)]
pub struct ItemIndex(pub u16);

impl ItemIndex {
    pub const NONE: ItemIndex = ItemIndex(NO_ROW);

    pub fn new(row: u16) -> ItemIndex
        ensures { result ≡ record { 0 = row } }
    {
        ItemIndex(row)
    }

    pub fn none() -> ItemIndex
        ensures { result ≡ no_item }
    {
        ItemIndex::NONE
    }

    pub fn is_none(self) -> bool
        ensures { result ≡ eqb self.0 no_row }
    {
        self == ItemIndex::NONE
    }
}
