// What a host in C or Rust links: the calls of `plytimber` under their C names, with the same promises.
#![tactic(auto)]

ghost use Rattle.hosts.specs.Told.{AllocatesHere, ReleasesHere, ClearsHere};
ghost use Rattle.plytimber.specs.Host.{AuditSays, CreatesHere, LooksUpHere, ListsHere, OccupiedHere, FreeSpaceHere, SizeHere, EmptyHere, SavesHere, LoadsHere, BatchesHere};

use hosts::values::{
    AtlasHeader, HostArea, HostBatched, HostCount, HostCreated, HostExtent, HostGrant, HostLoaded,
    HostSaved, HostVacancy,
};
use plytimber::AuditAnswer;

#[unsafe(no_mangle)]
pub extern "C" fn plytimber_audit(
    header: AtlasHeader,
    shelves: &[u16],
    items: &[u16],
) -> AuditAnswer
    ensures { AuditSays header shelves.now items.now result }
{
    plytimber::plytimber_audit(header, shelves, items)
}

#[unsafe(no_mangle)]
pub extern "C" fn plytimber_allocate(
    h: &mut AtlasHeader,
    shelves: &mut [u16],
    items: &mut [u16],
    w: i32,
    height: i32,
) -> HostGrant
    ensures { AllocatesHere h.old shelves.old items.old w height result h.new shelves.new items.new }
{
    plytimber::plytimber_allocate(h, shelves, items, w, height)
}

#[unsafe(no_mangle)]
pub extern "C" fn plytimber_release(
    h: &mut AtlasHeader,
    shelves: &mut [u16],
    items: &mut [u16],
    row: u16,
    generation: u16,
) -> u32
    ensures { ReleasesHere h.old shelves.old items.old row generation result h.new shelves.new items.new }
{
    plytimber::plytimber_release(h, shelves, items, row, generation)
}

#[unsafe(no_mangle)]
pub extern "C" fn plytimber_clear(
    h: &mut AtlasHeader,
    shelves: &mut [u16],
    items: &mut [u16],
) -> u32
    ensures { ClearsHere h.old shelves.old items.old result h.new shelves.new items.new }
{
    plytimber::plytimber_clear(h, shelves, items)
}

#[unsafe(no_mangle)]
pub extern "C" fn plytimber_create(
    shelves: &mut [u16],
    items: &mut [u16],
    w: i32,
    height: i32,
    align_width: i32,
    align_height: i32,
    vertical: i32,
    columns: i32,
) -> HostCreated
    ensures { CreatesHere shelves.old items.old w height align_width align_height vertical columns result shelves.new items.new }
{
    plytimber::plytimber_create(
        shelves,
        items,
        w,
        height,
        align_width,
        align_height,
        vertical,
        columns,
    )
}

#[unsafe(no_mangle)]
pub extern "C" fn plytimber_look_up(
    h: AtlasHeader,
    shelves: &[u16],
    items: &[u16],
    row: u16,
    generation: u16,
) -> HostGrant
    ensures { LooksUpHere h shelves.now items.now row generation result }
{
    plytimber::plytimber_look_up(h, shelves, items, row, generation)
}

// Six numbers a record: row, generation, x0, y0, x1, y1.
#[unsafe(no_mangle)]
pub extern "C" fn plytimber_list(
    h: AtlasHeader,
    shelves: &[u16],
    items: &[u16],
    out: &mut [u16],
) -> HostCount
    ensures { ListsHere h shelves.now items.now out.old result out.new }
{
    plytimber::plytimber_list(h, shelves, items, out)
}

#[unsafe(no_mangle)]
pub extern "C" fn plytimber_occupied(h: AtlasHeader, shelves: &[u16], items: &[u16]) -> HostArea
    ensures { OccupiedHere h shelves.now items.now result }
{
    plytimber::plytimber_occupied(h, shelves, items)
}

#[unsafe(no_mangle)]
pub extern "C" fn plytimber_free_space(h: AtlasHeader, shelves: &[u16], items: &[u16]) -> HostArea
    ensures { FreeSpaceHere h shelves.now items.now result }
{
    plytimber::plytimber_free_space(h, shelves, items)
}

#[unsafe(no_mangle)]
pub extern "C" fn plytimber_size(h: AtlasHeader, shelves: &[u16], items: &[u16]) -> HostExtent
    ensures { SizeHere h shelves.now items.now result }
{
    plytimber::plytimber_size(h, shelves, items)
}

#[unsafe(no_mangle)]
pub extern "C" fn plytimber_is_empty(h: AtlasHeader, shelves: &[u16], items: &[u16]) -> HostVacancy
    ensures { EmptyHere h shelves.now items.now result }
{
    plytimber::plytimber_is_empty(h, shelves, items)
}

#[unsafe(no_mangle)]
pub extern "C" fn plytimber_save(
    h: AtlasHeader,
    shelves: &[u16],
    items: &[u16],
    out: &mut [u8],
) -> HostSaved
    ensures { SavesHere h shelves.now items.now out.old result out.new }
{
    plytimber::plytimber_save(h, shelves, items, out)
}

#[unsafe(no_mangle)]
pub extern "C" fn plytimber_load(image: &[u8], shelves: &mut [u16], items: &mut [u16]) -> HostLoaded
    ensures { LoadsHere image.now shelves.old items.old result shelves.new items.new }
{
    plytimber::plytimber_load(image, shelves, items)
}

// Three numbers a request, seven an answer. The header after the batch is in what it returns.
#[unsafe(no_mangle)]
pub extern "C" fn plytimber_batch(
    h: AtlasHeader,
    shelves: &mut [u16],
    items: &mut [u16],
    requests: &[u16],
    out: &mut [u16],
) -> HostBatched
    ensures { BatchesHere h shelves.old items.old requests.now out.old result shelves.new items.new out.new }
{
    plytimber::plytimber_batch(h, shelves, items, requests, out)
}
