// A page of members: drawn by next into a row, all of them, or so many, or until finished. Whatever draws members into a row
// draws them by this.
#![tactic(auto)]

ghost use Rattle.std.specs.Prelude.{◌≤◌, length};
ghost use Rattle.model.specs.Lists.{top};
ghost use Rattle.reader.specs.Rows.{Standing};
ghost use Rattle.engine.specs.States.{state_of};
ghost use Rattle.pages.specs.Pages.{PagesTo};

use model::Reply;
use reader::{Generator, Readers};

// What drawing a page leaves: how many members stand in the row, floor and readers, and whether the last reply was finished.
#[derive(Drop)]
pub struct Page {
    pub count: usize,
    pub floor: u64,
    pub readers: Readers,
    pub finished: bool,
}

// Draws by next from a floor and readers on, until the row is full or a reply is finished. The next page goes on from the floor and
// the readers that are handed back.
pub fn draw_page(generator: &Generator, start: Readers, bookmark: u64, row: &mut [u32]) -> Page
    requires standing { Standing (length generator.now.ends.now) generator.now.nodes.now 0 }
    requires bookmark_le_top { bookmark ≤ top }
    ensures floor_le_top { result.floor ≤ top }
    ensures pages_to { PagesTo generator.now.numbers.now generator.now.ends.now generator.now.nodes.now (state_of bookmark start) row.old result row.new }
{
    let mut readers = start;
    let mut floor = bookmark;
    for i in 0..row.len() {
        let s = engine::draw(generator, readers, floor);
        let reply = s.reply;
        readers = s.readers;
        floor = s.floor;
        let Reply::Member(x) = reply else {
            return Page {
                count: i,
                floor,
                readers,
                finished: true,
            };
        };
        row[i] = x;
    }
    Page {
        count: row.len(),
        floor,
        readers,
        finished: false,
    }
}
