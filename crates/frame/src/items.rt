// The questions on one item: what stands at an ordinal, and a text's bytes.
ghost use Rattle.std.specs.Prelude.{◌≡◌};
ghost use Rattle.book.specs.Views.{view_item};
ghost use Rattle.frame.specs.Parts.{text_count};
ghost use Rattle.frame.specs.Promises.{ItemAnswered, TextAnswered};

use crate::reading::judge;
use book::items::Item;
use book::refusal::{Fault, Refusal};
use cursor::standing::item_at;

// An item, the index of its own first word, and that of the next item, or of the end word.
#[derive(Clone, Copy, Debug, PartialEq, Eq)]
pub struct IndexedItem {
    pub index: usize,
    pub item: Item,
    pub next: usize,
}

// Item n of a frame, from 0, its own word index, and that of the next item or of the end word. Refuses as `read` does, then 13 where there is no
// such item: the walk then noted word 0, where none stands.
pub fn item(s: &[u8], n: usize) -> Result<IndexedItem, Refusal>
    ensures { ItemAnswered s.now n result }
{
    let index = judge(s, n)?.index;
    let found = item_at(s, index).ok_or(Fault::Absent)?;
    Ok(IndexedItem {
        index,
        item: found.item,
        next: found.next,
    })
}

// The n of a text, which is at least 1; 0 for another class.
fn text_count(item: Item) -> usize
    ensures { result ≡ text_count (view_item item) }
{
    match item {
        Item::Text(x) => x.length as usize,
        _ => 0,
    }
}

// The bytes of the text that is item n, without the final zero: a part of the frame itself, which begins right after the text's word. On any
// refusal or another class it is empty; the item question tells this from an empty text.
pub fn text(s: &[u8], n: usize) -> &[u8]
    ensures { TextAnswered s.entry n result }
{
    let Ok(x) = item(s, n) else {
        return &s[0..0];
    };
    let length = text_count(x.item);
    if length < 1 {
        return &s[0..0];
    }
    let from = 2 * (x.next - (length + 1) / 2);
    let to = from + (length - 1);
    &s[from..to]
}
