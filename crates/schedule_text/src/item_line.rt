// An item on a line by itself.
ghost use Rattle.std.specs.Prelude.{◌≡◌, IfOk};
ghost use Rattle.schedule_text.specs.ItemLine.{is_item_line as is_item_line_of, is_item_word as is_item_word_of, item_of_line};

use crate::fields::Fields;
use crate::item::{Item, read_item};
use std::alloc::{AllocError, Global};

/// The item of the line, where there are so many processes. None comes exactly where no schedule with these
/// processes could have the line as an item.
pub fn read_item_line(
    alloc: Global,
    line: &[u8],
    processes: u32,
) -> Result<Option<Item>, AllocError>
    ensures { IfOk result (λ item. item ≡ item_of_line processes line.now) }
{
    let mut fields = Fields::new(line);
    match fields.next_field() {
        Some(word) => read_item(alloc, word, processes, &mut fields),
        None => Ok(None),
    }
}

/// Whether the first field of the line is the word of an item.
pub fn is_item_line(line: &[u8]) -> bool
    ensures { result ≡ is_item_line_of line.now }
{
    match Fields::new(line).next_field() {
        Some(word) => is_item_word(word),
        None => false,
    }
}

fn is_item_word(word: &[u8]) -> bool
    ensures { result ≡ is_item_word_of word.now }
{
    word == b"run".as_slice()
        || word == b"deliver".as_slice()
        || word == b"inject".as_slice()
        || word == b"clock".as_slice()
        || word == b"random".as_slice()
        || word == b"signal".as_slice()
        || word == b"kill".as_slice()
}
