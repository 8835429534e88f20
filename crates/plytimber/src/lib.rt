// The calls of a host in C or Rust, over numbers, lent tables and plain structs. plytimber_c exports them.
#![tactic(auto)]

ghost use Rattle.hosts.specs.Told.{AllocatesHere, ReleasesHere, ClearsHere};
ghost use Rattle.plytimber.specs.Host.{AuditSays, CreatesHere, LooksUpHere, ListsHere, OccupiedHere, FreeSpaceHere, SizeHere, EmptyHere, SavesHere, LoadsHere, BatchesHere};

use audit::Verdict;
use hosts::values::{
    AtlasHeader, HostArea, HostBatched, HostCount, HostCreated, HostExtent, HostGrant, HostLoaded,
    HostSaved, HostVacancy,
};
use numbers::refusal::Refusal;
use queries::tell;
use rows::header::Header;

// An answer of document 01, and beside it the rule: 0 where all hold, else the first that fails, 5 for one of 5 to 7.
#[repr(C)]
#[derive(Clone, Copy, Default)]
pub struct AuditAnswer {
    pub answer: u32,
    pub rule: u32,
}

impl From<Verdict> for AuditAnswer {
    ghost use Rattle.std.specs.Prelude.{◌≡◌};
    ghost use Rattle.plytimber.specs.Host.{answer_of};

    ghost from_gives = { λ verdict answer. answer ≡ answer_of verdict };

    fn from(verdict: Verdict) -> AuditAnswer {
        let rule = match verdict {
            Verdict::Passes => return AuditAnswer::default(),
            Verdict::Rule1 => 1,
            Verdict::Rule2 => 2,
            Verdict::Rule3 => 3,
            Verdict::Rules5To7 => 5,
        };
        AuditAnswer {
            answer: Refusal::Audit.number() as u32,
            rule,
        }
    }
}

pub fn plytimber_audit(header: AtlasHeader, shelves: &[u16], items: &[u16]) -> AuditAnswer
    ensures { AuditSays header shelves.now items.now result }
{
    AuditAnswer::from(audit::audit(Header::from(header), shelves, items))
}

// ---- the calls that change an atlas: the header is lent and changed in place

pub fn plytimber_allocate(
    h: &mut AtlasHeader,
    shelves: &mut [u16],
    items: &mut [u16],
    w: i32,
    height: i32,
) -> HostGrant
    ensures { AllocatesHere h.old shelves.old items.old w height result h.new shelves.new items.new }
{
    let granted = hosts::allocate(*h, shelves, items, w, height);
    *h = granted.header;
    granted.answer
}

pub fn plytimber_release(
    h: &mut AtlasHeader,
    shelves: &mut [u16],
    items: &mut [u16],
    row: u16,
    generation: u16,
) -> u32
    ensures { ReleasesHere h.old shelves.old items.old row generation result h.new shelves.new items.new }
{
    let released = hosts::release(*h, shelves, items, row, generation);
    *h = released.header;
    released.answer
}

pub fn plytimber_clear(h: &mut AtlasHeader, shelves: &mut [u16], items: &mut [u16]) -> u32
    ensures { ClearsHere h.old shelves.old items.old result h.new shelves.new items.new }
{
    let cleared = hosts::clear(*h, shelves, items);
    *h = cleared.header;
    cleared.answer
}

// ---- create, which takes no header and returns one

pub fn plytimber_create(
    shelves: &mut [u16],
    items: &mut [u16],
    w: i32,
    height: i32,
    align_width: i32,
    align_height: i32,
    vertical: i32,
    columns: i32,
) -> HostCreated
    ensures { CreatesHere shelves.old items.old w height align_width align_height vertical columns result shelves.new items.new }
{
    HostCreated::from(create::create(
        shelves,
        items,
        w,
        height,
        align_width,
        align_height,
        vertical,
        columns,
    ))
}

// ---- the calls that change nothing

pub fn plytimber_look_up(
    h: AtlasHeader,
    shelves: &[u16],
    items: &[u16],
    row: u16,
    generation: u16,
) -> HostGrant
    ensures { LooksUpHere h shelves.now items.now row generation result }
{
    HostGrant::from(tell::look_up(Header::from(h), shelves, items, row, generation))
}

// Six numbers a record: row, generation, x0, y0, x1, y1.
pub fn plytimber_list(h: AtlasHeader, shelves: &[u16], items: &[u16], out: &mut [u16]) -> HostCount
    ensures { ListsHere h shelves.now items.now out.old result out.new }
{
    HostCount::from(listing::list::list(Header::from(h), shelves, items, out))
}

pub fn plytimber_occupied(h: AtlasHeader, shelves: &[u16], items: &[u16]) -> HostArea
    ensures { OccupiedHere h shelves.now items.now result }
{
    HostArea::from(tell::occupied(Header::from(h), shelves, items))
}

pub fn plytimber_free_space(h: AtlasHeader, shelves: &[u16], items: &[u16]) -> HostArea
    ensures { FreeSpaceHere h shelves.now items.now result }
{
    HostArea::from(tell::free_space(Header::from(h), shelves, items))
}

pub fn plytimber_size(h: AtlasHeader, shelves: &[u16], items: &[u16]) -> HostExtent
    ensures { SizeHere h shelves.now items.now result }
{
    HostExtent::from(tell::size(Header::from(h), shelves, items))
}

pub fn plytimber_is_empty(h: AtlasHeader, shelves: &[u16], items: &[u16]) -> HostVacancy
    ensures { EmptyHere h shelves.now items.now result }
{
    HostVacancy::from(tell::is_empty(Header::from(h), shelves, items))
}

// ---- the saved form

pub fn plytimber_save(h: AtlasHeader, shelves: &[u16], items: &[u16], out: &mut [u8]) -> HostSaved
    ensures { SavesHere h shelves.now items.now out.old result out.new }
{
    HostSaved::from(save::save(Header::from(h), shelves, items, out))
}

pub fn plytimber_load(image: &[u8], shelves: &mut [u16], items: &mut [u16]) -> HostLoaded
    ensures { LoadsHere image.now shelves.old items.old result shelves.new items.new }
{
    HostLoaded::from(load::load(image, shelves, items))
}

// ---- beyond document 01: a batch on one audit

// Three numbers a request, seven an answer. The header after the batch is in what it returns.
pub fn plytimber_batch(
    h: AtlasHeader,
    shelves: &mut [u16],
    items: &mut [u16],
    requests: &[u16],
    out: &mut [u16],
) -> HostBatched
    ensures { BatchesHere h shelves.old items.old requests.now out.old result shelves.new items.new out.new }
{
    HostBatched::from(batch::batch(Header::from(h), shelves, items, requests, out))
}
