// The header of a record.
ghost use Rattle.std.specs.Prelude.{◌≡◌};
ghost use Rattle.ledger.specs.Records.{header_right};
ghost use Rattle.ledger.specs.Versions.{format_in};

use crate::answers::Record;
use crate::entries::entry_size;
use book::words::word;

// The buffer has 16 bytes, every header word is right for the version that the first one names, at most 512 entries stand, and the whole record lies in
// the buffer. Sums are of whole numbers, with no wrap. All tests are made, with no early exit: `word` is total, so none needs the one before it.
pub(crate) fn header_right(b: &[u8]) -> bool
    ensures { result ≡ header_right (format_in b.now) b.now }
{
    let version = word(b, Record::VERSION_WORD);
    let length = word(b, Record::LENGTH_WORD) as usize;
    let count = word(b, Record::COUNT_WORD) as usize;
    let history = Record::HEADER + length;
    let total = history + entry_size(version) * count;
    (Record::HEADER <= b.len())
        & ((version == Record::FIRST_VERSION) | (version == Record::VERSION))
        & (word(b, Record::FRAMES_WORD) == Record::FRAMES)
        & (word(b, Record::OFFSET_WORD) as usize == Record::HEADER)
        & (word(b, Record::HISTORY_WORD) as usize == history)
        & (word(b, Record::TOTAL_WORD) as usize == total)
        & (word(b, Record::LAST_WORD) == 0)
        & (total <= b.len())
        & (count <= Record::MOST)
}
