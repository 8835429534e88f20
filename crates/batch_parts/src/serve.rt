// One request served, on tables that pass: its call without the audit, and its answer in numbers.
ghost use Rattle.std.specs.Prelude.{◌≡◌};
ghost use Rattle.rules.specs.Prelude.{Passes};
ghost use Rattle.batch_rules.specs.Batch.{ServesOne};

use allocate::allocate_unaudited;
use batch_rules::values::{Asking, Served, Told};
use numbers::refusal::Refusal;
use queries::tell::look_up_unaudited;
use release::release_unaudited;
use rows::header::Header;

const ALLOCATE: u16 = 1;

const RELEASE: u16 = 2;

const LOOK_UP: u16 = 3;

fn serve_allocate(h: Header, shelves: &mut [u16], items: &mut [u16], w: u16, height: u16) -> Served
    requires { Passes h shelves.old items.old }
    ensures { ServesOne h shelves.old items.old (record { kind = 1; first = w; second = height }) result shelves.new items.new }
{
    let said = allocate_unaudited(h, shelves, items, w as i32, height as i32);
    Served {
        told: Told::from(said.answer),
        header: said.header,
    }
}

fn serve_release(
    h: Header,
    shelves: &mut [u16],
    items: &mut [u16],
    row: u16,
    generation: u16,
) -> Served
    requires { Passes h shelves.old items.old }
    ensures { ServesOne h shelves.old items.old (record { kind = 2; first = row; second = generation }) result shelves.new items.new }
{
    let said = release_unaudited(h, shelves, items, row, generation);
    Served {
        told: Told::from(said.answer),
        header: said.header,
    }
}

// An unknown kind is answered with 11, and nothing changes.
fn serve_other(h: Header, shelves: &[u16], items: &[u16], q: Asking) -> Told
    requires { Passes h shelves.now items.now × (q.kind ≡ 1 → ⊥) × (q.kind ≡ 2 → ⊥) }
    ensures { ServesOne h shelves.now items.now q (record { told = result; header = h }) shelves.now items.now }
{
    if q.kind == LOOK_UP {
        return Told::from(look_up_unaudited(h, shelves, items, q.first, q.second));
    }
    Told::from(Refusal::NotReadable)
}

// The request's own call. A release is told first, since that takes two instructions less a request (measured).
pub fn serve(h: Header, shelves: &mut [u16], items: &mut [u16], q: Asking) -> Served
    requires { Passes h shelves.old items.old }
    ensures { ServesOne h shelves.old items.old q result shelves.new items.new }
{
    if q.kind == RELEASE {
        return serve_release(h, shelves, items, q.first, q.second);
    }
    if q.kind == ALLOCATE {
        return serve_allocate(h, shelves, items, q.first, q.second);
    }
    Served {
        told: serve_other(h, shelves, items, q),
        header: h,
    }
}
