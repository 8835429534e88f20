// Save without the audit, load, and the audit alone: for bench/images.sh, and no part of what a host is given. bench_images_c exports them.
#![tactic(auto)]

ghost use Rattle.hosts.specs.Values.{header_of};
ghost use Rattle.rules.specs.Prelude.{Passes};

use hosts::told::reply_told;
use hosts::values::AtlasHeader;
use numbers::refusal::Refusal;
use rows::header::Header;

// The image's length, or 0 where there is no room.
pub fn bench_save(header: AtlasHeader, shelves: &[u16], items: &[u16], out: &mut [u8]) -> u32
    requires { Passes (header_of header) shelves.now items.now }
{
    save::save_unaudited(Header::from(header), shelves, items, out).unwrap_or(0)
}

// The number of the answer.
pub fn bench_load(image: &[u8], shelves: &mut [u16], items: &mut [u16]) -> u32 {
    reply_told(load::load(image, shelves, items).answer)
}

// The number of the audit's answer.
pub fn bench_audit(header: AtlasHeader, shelves: &[u16], items: &[u16]) -> u32 {
    if audit::passes(Header::from(header), shelves, items) {
        0
    } else {
        Refusal::Audit.number() as u32
    }
}
