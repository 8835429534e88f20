// Saves the atlas that a script on standard input leaves: its lines are obeyed, their answers go to standard error, and the image to standard output.
#![tactic(auto)]

use rows::header::Header;
use rows::item::ItemRow;
use rows::row::Row;
use rows::shelf::ShelfRow;

// The script program's tables; their image has 92 blocks at most.
const SHELVES: usize = 512 * ShelfRow::NUMBERS;

const ITEMS: usize = 2048 * ItemRow::NUMBERS;

const IMAGE: usize = 92 * 512;

// The image, or on standard error the number of the refusal: 3 where no line made an atlas.
fn write_saved(rt: HostRuntime, h: Header, shelves: &[u16], items: &[u16]) {
    let mut out = [0u8; IMAGE];
    match save::save(h, shelves, items, &mut out) {
        Ok(n) => {
            let end = n as usize;
            if end <= IMAGE {
                if rt.write_all(&out[0..end]).is_err() {
                    let _ = rt.eprintln("image: standard output can't be written");
                }
            }
        }
        Err(refusal) => {
            let _ = eprintln!(rt; "image: no {}", refusal.number());
        }
    }
}

fn main(rt: HostRuntime) {
    let mut shelves = [0u16; SHELVES];
    let mut items = [0u16; ITEMS];
    let h = app::obey(rt, &rt.stderr(), &mut shelves, &mut items);
    write_saved(rt, h, &shelves, &items);
}
