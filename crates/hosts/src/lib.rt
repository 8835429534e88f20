// What a host in C or Rust holds and is told: plain structs of numbers. And the three calls that change an atlas, on a host's header by value, from which
// the exported calls that change it in place are made.
#![tactic(auto)]

ghost use Rattle.hosts.specs.Told.{AllocatesHere, ReleasesHere, ClearsHere};

use crate::told::reply_told;
use crate::values::{AtlasHeader, HostGrant};
use rows::header::Header;

pub mod told;
pub mod values;

// What a host is told of a call, and the header after it.
#[derive(Clone, Copy)]
pub struct HostAnswered<T> {
    pub answer: T,
    pub header: AtlasHeader,
}

pub fn allocate(
    h: AtlasHeader,
    shelves: &mut [u16],
    items: &mut [u16],
    w: i32,
    height: i32,
) -> HostAnswered<HostGrant>
    ensures { AllocatesHere h shelves.old items.old w height result.answer result.header shelves.new items.new }
{
    let said = allocate::allocate(Header::from(h), shelves, items, w, height);
    HostAnswered {
        answer: HostGrant::from(said.answer),
        header: AtlasHeader::from(said.header),
    }
}

pub fn release(
    h: AtlasHeader,
    shelves: &mut [u16],
    items: &mut [u16],
    row: u16,
    generation: u16,
) -> HostAnswered<u32>
    ensures { ReleasesHere h shelves.old items.old row generation result.answer result.header shelves.new items.new }
{
    let said = batch::release(Header::from(h), shelves, items, row, generation);
    HostAnswered {
        answer: reply_told(said.answer),
        header: AtlasHeader::from(said.header),
    }
}

pub fn clear(h: AtlasHeader, shelves: &mut [u16], items: &mut [u16]) -> HostAnswered<u32>
    ensures { ClearsHere h shelves.old items.old result.answer result.header shelves.new items.new }
{
    let said = create::clear(Header::from(h), shelves, items);
    HostAnswered {
        answer: reply_told(said.answer),
        header: AtlasHeader::from(said.header),
    }
}
