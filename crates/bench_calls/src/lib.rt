// The calls without the audit: for bench/steps.sh, which counts their instructions against the Rust's. bench_calls_c exports them. They are no part of
// what a host is given: nothing checks what they ask of a caller in C.
#![tactic(auto)]

ghost use Rattle.std.specs.Prelude.{◌≡◌, ◌*◌, ◌+◌};
ghost use Rattle.hosts.specs.Values.{header_of};
ghost use Rattle.rules.specs.Prelude.{Passes};
ghost use Rattle.bench_calls.specs.Told.{header_in, header_put, AllocatesSo, ReleasesSo, LooksUpSo, ListsSo};

use allocate::allocate_unaudited;
use hosts::told::reply_told;
use hosts::values::{AtlasHeader, HostCount, HostGrant};
use listing::list::list_unaudited;
use numbers::index::{ItemIndex, ShelfIndex};
use numbers::limits::Limits;
use queries::tell::look_up_unaudited;
use release::release_unaudited;
use rows::header::Header;

// The number of its two halves.
fn of_halves(low: u16, high: u16) -> u32
    ensures { result ≡ low + high * 65536 }
{
    low as u32 + high as u32 * 65536
}

// The header in a host's 24 bytes: numbers 10 and 11 are the low and the high half of the occupied area.
fn header_in(n: &[u16; 12]) -> Header
    ensures { result ≡ header_in n.now }
{
    Header {
        limits: Limits {
            width: n[0],
            height: n[1],
            align_width: n[2],
            align_height: n[3],
            vertical: n[4],
            shelf_width: n[5],
        },
        used_shelves: n[6],
        used_items: n[7],
        free_items: ItemIndex(n[8]),
        free_shelves: ShelfIndex(n[9]),
        occupied: of_halves(n[10], n[11]),
    }
}

// What a call may change of a header goes to a host's 24 bytes: all but the limits.
fn put_header(n: &mut [u16; 12], h: Header)
    ensures { n.new ≡ header_put n.old h }
{
    n[6] = h.used_shelves;
    n[7] = h.used_items;
    n[8] = h.free_items.0;
    n[9] = h.free_shelves.0;
    n[10] = (h.occupied % 65536) as u16;
    n[11] = (h.occupied / 65536) as u16;
}

pub fn bench_allocate(
    header: &mut [u16; 12],
    shelves: &mut [u16],
    items: &mut [u16],
    w: i32,
    height: i32,
) -> HostGrant
    requires { Passes (header_in header.old) shelves.old items.old }
    ensures { AllocatesSo header.old shelves.old items.old w height result header.new shelves.new items.new }
{
    let h = header_in(header);
    let said = allocate_unaudited(h, shelves, items, w, height);
    put_header(header, said.header);
    HostGrant::from(said.answer)
}

pub fn bench_release(
    header: &mut [u16; 12],
    shelves: &mut [u16],
    items: &mut [u16],
    row: u16,
    generation: u16,
) -> u32
    requires { Passes (header_in header.old) shelves.old items.old }
    ensures { ReleasesSo header.old shelves.old items.old row generation result header.new shelves.new items.new }
{
    let h = header_in(header);
    let said = release_unaudited(h, shelves, items, row, generation);
    put_header(header, said.header);
    reply_told(said.answer)
}

pub fn bench_look_up(
    header: AtlasHeader,
    shelves: &[u16],
    items: &[u16],
    row: u16,
    generation: u16,
) -> HostGrant
    requires { Passes (header_of header) shelves.now items.now }
    ensures { LooksUpSo header shelves.now items.now row generation result }
{
    HostGrant::from(look_up_unaudited(Header::from(header), shelves, items, row, generation))
}

pub fn bench_list(header: AtlasHeader, shelves: &[u16], items: &[u16], out: &mut [u16]) -> HostCount
    requires { Passes (header_of header) shelves.now items.now }
    ensures { ListsSo header shelves.now items.now out.old result out.new }
{
    HostCount::from(list_unaudited(Header::from(header), shelves, items, out))
}
