// The row and generation of a line, together.
ghost use Rattle.std.specs.Prelude.{◌≡◌};
ghost use Rattle.script_rules.specs.Ids.{id_of};

use lines::ids::row_of;

#[derive(Clone, Copy)]
pub struct Id {
    pub row: u16,
    pub generation: u16,
}

// None where either is below 0 or over 65535.
pub fn id_of(row: i32, generation: i32) -> Option<Id>
    ensures { result ≡ id_of row generation }
{
    let row = row_of(row)?;
    let generation = row_of(generation)?;
    Some(Id { row, generation })
}
