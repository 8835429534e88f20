// The calls of `bench_calls` under names that a driver can link.
#![tactic(auto)]

ghost use Rattle.hosts.specs.Values.{header_of};
ghost use Rattle.rules.specs.Prelude.{Passes};
ghost use Rattle.bench_calls.specs.Told.{header_in, AllocatesSo, ReleasesSo, LooksUpSo, ListsSo};

use hosts::values::{AtlasHeader, HostCount, HostGrant};

#[unsafe(no_mangle)]
pub extern "C" fn bench_allocate(
    header: &mut [u16; 12],
    shelves: &mut [u16],
    items: &mut [u16],
    w: i32,
    height: i32,
) -> HostGrant
    requires { Passes (header_in header.old) shelves.old items.old }
    ensures { AllocatesSo header.old shelves.old items.old w height result header.new shelves.new items.new }
{
    bench_calls::bench_allocate(header, shelves, items, w, height)
}

#[unsafe(no_mangle)]
pub extern "C" fn bench_release(
    header: &mut [u16; 12],
    shelves: &mut [u16],
    items: &mut [u16],
    row: u16,
    generation: u16,
) -> u32
    requires { Passes (header_in header.old) shelves.old items.old }
    ensures { ReleasesSo header.old shelves.old items.old row generation result header.new shelves.new items.new }
{
    bench_calls::bench_release(header, shelves, items, row, generation)
}

#[unsafe(no_mangle)]
pub extern "C" fn bench_look_up(
    header: AtlasHeader,
    shelves: &[u16],
    items: &[u16],
    row: u16,
    generation: u16,
) -> HostGrant
    requires { Passes (header_of header) shelves.now items.now }
    ensures { LooksUpSo header shelves.now items.now row generation result }
{
    bench_calls::bench_look_up(header, shelves, items, row, generation)
}

#[unsafe(no_mangle)]
pub extern "C" fn bench_list(
    header: AtlasHeader,
    shelves: &[u16],
    items: &[u16],
    out: &mut [u16],
) -> HostCount
    requires { Passes (header_of header) shelves.now items.now }
    ensures { ListsSo header shelves.now items.now out.old result out.new }
{
    bench_calls::bench_list(header, shelves, items, out)
}
