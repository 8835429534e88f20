// The calls of `bench_images` under names that a driver can link.
#![tactic(auto)]

ghost use Rattle.hosts.specs.Values.{header_of};
ghost use Rattle.rules.specs.Prelude.{Passes};

use hosts::values::AtlasHeader;

// The image's length, or 0 where there is no room.
#[unsafe(no_mangle)]
pub extern "C" fn bench_save(
    header: AtlasHeader,
    shelves: &[u16],
    items: &[u16],
    out: &mut [u8],
) -> u32
    requires { Passes (header_of header) shelves.now items.now }
{
    bench_images::bench_save(header, shelves, items, out)
}

// The number of the answer.
#[unsafe(no_mangle)]
pub extern "C" fn bench_load(image: &[u8], shelves: &mut [u16], items: &mut [u16]) -> u32 {
    bench_images::bench_load(image, shelves, items)
}

// The number of the audit's answer.
#[unsafe(no_mangle)]
pub extern "C" fn bench_audit(header: AtlasHeader, shelves: &[u16], items: &[u16]) -> u32 {
    bench_images::bench_audit(header, shelves, items)
}
