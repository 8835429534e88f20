// A host's structs, in C's layout. Every answer starts with a number of document 01: 0 is success, and a refusal has zeros beside its number.
use numbers::index::{ItemIndex, ShelfIndex};
use numbers::limits::Limits;
use rows::header::Header;

// The header as a host holds it: eleven numbers in the order of document 01, 24 bytes.
#[repr(C)]
#[derive(Clone, Copy)]
pub struct AtlasHeader {
    pub width: u16,
    pub height: u16,
    pub align_width: u16,
    pub align_height: u16,
    pub vertical: u16,
    pub shelf_width: u16,
    pub used_shelves: u16,
    pub used_items: u16,
    pub free_items: u16,
    pub free_shelves: u16,
    pub occupied: u32,
}

// To allocate and look-up: the id, and the corners of the rectangle. Six u16 would come back packed in two registers, which costs: these come back in memory.
#[repr(C)]
#[derive(Clone, Copy, Default)]
pub struct HostGrant {
    pub answer: u32,
    pub row: u32,
    pub generation: u32,
    pub x0: u32,
    pub y0: u32,
    pub x1: u32,
    pub y1: u32,
}

// To create: the columns, and the header of the new atlas.
#[repr(C)]
#[derive(Clone, Copy)]
pub struct HostCreated {
    pub answer: u32,
    pub columns: u32,
    pub header: AtlasHeader,
}

// To list: how many items are listed.
#[repr(C)]
#[derive(Clone, Copy, Default)]
pub struct HostCount {
    pub answer: u32,
    pub count: u32,
}

// To occupied and free space.
#[repr(C)]
#[derive(Clone, Copy, Default)]
pub struct HostArea {
    pub answer: u32,
    pub area: u32,
}

// To size: width and height, as they were given to create.
#[repr(C)]
#[derive(Clone, Copy, Default)]
pub struct HostExtent {
    pub answer: u32,
    pub width: u32,
    pub height: u32,
}

// To is_empty: 1 where nothing is live, else 0.
#[repr(C)]
#[derive(Clone, Copy, Default)]
pub struct HostVacancy {
    pub answer: u32,
    pub vacant: u32,
}

// To save: how many bytes the image has.
#[repr(C)]
#[derive(Clone, Copy, Default)]
pub struct HostSaved {
    pub answer: u32,
    pub length: u32,
}

// To load: the header of the loaded atlas; all zero where it is refused.
#[repr(C)]
#[derive(Clone, Copy)]
pub struct HostLoaded {
    pub answer: u32,
    pub header: AtlasHeader,
}

// To a batch: how many requests were answered, and the header after them.
#[repr(C)]
#[derive(Clone, Copy)]
pub struct HostBatched {
    pub answer: u32,
    pub count: u32,
    pub header: AtlasHeader,
}

impl From<AtlasHeader> for Header {
    ghost use Rattle.std.specs.Prelude.{◌≡◌};
    ghost use Rattle.hosts.specs.Values.{header_of};

    ghost from_gives = { λ h header. header ≡ header_of h };

    fn from(h: AtlasHeader) -> Header {
        Header {
            limits: Limits {
                width: h.width,
                height: h.height,
                align_width: h.align_width,
                align_height: h.align_height,
                vertical: h.vertical,
                shelf_width: h.shelf_width,
            },
            used_shelves: h.used_shelves,
            used_items: h.used_items,
            free_items: ItemIndex(h.free_items),
            free_shelves: ShelfIndex(h.free_shelves),
            occupied: h.occupied,
        }
    }
}

impl From<Header> for AtlasHeader {
    ghost use Rattle.std.specs.Prelude.{◌≡◌};
    ghost use Rattle.hosts.specs.Values.{host_header};

    ghost from_gives = { λ h header. header ≡ host_header h };

    fn from(h: Header) -> AtlasHeader {
        let l = h.limits;
        AtlasHeader {
            width: l.width,
            height: l.height,
            align_width: l.align_width,
            align_height: l.align_height,
            vertical: l.vertical,
            shelf_width: l.shelf_width,
            used_shelves: h.used_shelves,
            used_items: h.used_items,
            free_items: h.free_items.0,
            free_shelves: h.free_shelves.0,
            occupied: h.occupied,
        }
    }
}
