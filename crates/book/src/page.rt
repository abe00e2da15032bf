// The word book as a page: a row for each high byte, with the class of its words; in row 00 alone the low byte decides. docs/BOOK.md shows it. That
// it tells every word as the search for its prefix does is proved once, over all rows.
ghost use Rattle.std.specs.Prelude.{◌≡◌, ◌<◌};
ghost use Rattle.format.specs.Book.{class_of};
ghost use Rattle.book.specs.Views.{view};
ghost use Rattle.book.specs.Page.{on_row};
ghost use Rattle.book.specs.Promises.{PageTold, ClassifiedOn};

use crate::class::Class;

// What a row of the page holds: the number of the class's row in the documents' table, in a byte. `Class::try_from` tells a class by these too.
pub(crate) const NONE: u8 = Class::Unassigned as u8;

pub(crate) const CHANNEL: u8 = Class::Channel as u8;

pub(crate) const HISTOGRAM: u8 = Class::Histogram as u8;

pub(crate) const HIT_COUNT: u8 = Class::HitCount as u8;

pub(crate) const SAMPLE: u8 = Class::Sample as u8;

pub(crate) const BIN: u8 = Class::Bin as u8;

pub(crate) const LAST_CELL: u8 = Class::LastCell as u8;

pub(crate) const TIME_BIN: u8 = Class::TimeBin as u8;

pub(crate) const DATA_FRAME: u8 = Class::DataFrame as u8;

pub(crate) const MONITOR_FRAME: u8 = Class::MonitorFrame as u8;

pub(crate) const COMMAND_FRAME: u8 = Class::CommandFrame as u8;

pub(crate) const TEXT: u8 = Class::Text as u8;

pub(crate) const START_EVENT: u8 = Class::StartEvent as u8;

pub(crate) const END_EVENT: u8 = Class::EndEvent as u8;

pub(crate) const FRAME_END: u8 = Class::FrameEnd as u8;

pub(crate) const CONTINUE_EVENT: u8 = Class::ContinueEvent as u8;

// Or this, which names no class: the low byte decides.
const LOW_BYTE: u8 = 255;

const PAGE: [u8; 256] = [
    LOW_BYTE, // 00
    TEXT, // 01
    NONE, // 02
    NONE, // 03
    COMMAND_FRAME, // 04
    COMMAND_FRAME, // 05
    MONITOR_FRAME, // 06
    MONITOR_FRAME, // 07
    DATA_FRAME, // 08
    DATA_FRAME, // 09
    CONTINUE_EVENT, // 0A
    CONTINUE_EVENT, // 0B
    NONE, // 0C
    NONE, // 0D
    TIME_BIN, // 0E
    TIME_BIN, // 0F
    NONE, // 10
    NONE, // 11
    NONE, // 12
    NONE, // 13
    NONE, // 14
    NONE, // 15
    NONE, // 16
    NONE, // 17
    LAST_CELL, // 18
    LAST_CELL, // 19
    LAST_CELL, // 1A
    LAST_CELL, // 1B
    LAST_CELL, // 1C
    LAST_CELL, // 1D
    LAST_CELL, // 1E
    LAST_CELL, // 1F
    BIN, // 20
    BIN, // 21
    BIN, // 22
    BIN, // 23
    BIN, // 24
    BIN, // 25
    BIN, // 26
    BIN, // 27
    BIN, // 28
    BIN, // 29
    BIN, // 2A
    BIN, // 2B
    BIN, // 2C
    BIN, // 2D
    BIN, // 2E
    BIN, // 2F
    SAMPLE, // 30
    SAMPLE, // 31
    SAMPLE, // 32
    SAMPLE, // 33
    SAMPLE, // 34
    SAMPLE, // 35
    SAMPLE, // 36
    SAMPLE, // 37
    SAMPLE, // 38
    SAMPLE, // 39
    SAMPLE, // 3A
    SAMPLE, // 3B
    SAMPLE, // 3C
    SAMPLE, // 3D
    SAMPLE, // 3E
    SAMPLE, // 3F
    HIT_COUNT, // 40
    HIT_COUNT, // 41
    HIT_COUNT, // 42
    HIT_COUNT, // 43
    HIT_COUNT, // 44
    HIT_COUNT, // 45
    HIT_COUNT, // 46
    HIT_COUNT, // 47
    HIT_COUNT, // 48
    HIT_COUNT, // 49
    HIT_COUNT, // 4A
    HIT_COUNT, // 4B
    HIT_COUNT, // 4C
    HIT_COUNT, // 4D
    HIT_COUNT, // 4E
    HIT_COUNT, // 4F
    HIT_COUNT, // 50
    HIT_COUNT, // 51
    HIT_COUNT, // 52
    HIT_COUNT, // 53
    HIT_COUNT, // 54
    HIT_COUNT, // 55
    HIT_COUNT, // 56
    HIT_COUNT, // 57
    HIT_COUNT, // 58
    HIT_COUNT, // 59
    HIT_COUNT, // 5A
    HIT_COUNT, // 5B
    HIT_COUNT, // 5C
    HIT_COUNT, // 5D
    HIT_COUNT, // 5E
    HIT_COUNT, // 5F
    HIT_COUNT, // 60
    HIT_COUNT, // 61
    HIT_COUNT, // 62
    HIT_COUNT, // 63
    HIT_COUNT, // 64
    HIT_COUNT, // 65
    HIT_COUNT, // 66
    HIT_COUNT, // 67
    HIT_COUNT, // 68
    HIT_COUNT, // 69
    HIT_COUNT, // 6A
    HIT_COUNT, // 6B
    HIT_COUNT, // 6C
    HIT_COUNT, // 6D
    HIT_COUNT, // 6E
    HIT_COUNT, // 6F
    HIT_COUNT, // 70
    HIT_COUNT, // 71
    HIT_COUNT, // 72
    HIT_COUNT, // 73
    HIT_COUNT, // 74
    HIT_COUNT, // 75
    HIT_COUNT, // 76
    HIT_COUNT, // 77
    HIT_COUNT, // 78
    HIT_COUNT, // 79
    HIT_COUNT, // 7A
    HIT_COUNT, // 7B
    HIT_COUNT, // 7C
    HIT_COUNT, // 7D
    HIT_COUNT, // 7E
    HIT_COUNT, // 7F
    HISTOGRAM, // 80
    HISTOGRAM, // 81
    HISTOGRAM, // 82
    HISTOGRAM, // 83
    HISTOGRAM, // 84
    HISTOGRAM, // 85
    HISTOGRAM, // 86
    HISTOGRAM, // 87
    HISTOGRAM, // 88
    HISTOGRAM, // 89
    HISTOGRAM, // 8A
    HISTOGRAM, // 8B
    HISTOGRAM, // 8C
    HISTOGRAM, // 8D
    HISTOGRAM, // 8E
    HISTOGRAM, // 8F
    HISTOGRAM, // 90
    HISTOGRAM, // 91
    HISTOGRAM, // 92
    HISTOGRAM, // 93
    HISTOGRAM, // 94
    HISTOGRAM, // 95
    HISTOGRAM, // 96
    HISTOGRAM, // 97
    HISTOGRAM, // 98
    HISTOGRAM, // 99
    HISTOGRAM, // 9A
    HISTOGRAM, // 9B
    HISTOGRAM, // 9C
    HISTOGRAM, // 9D
    HISTOGRAM, // 9E
    HISTOGRAM, // 9F
    HISTOGRAM, // A0
    HISTOGRAM, // A1
    HISTOGRAM, // A2
    HISTOGRAM, // A3
    HISTOGRAM, // A4
    HISTOGRAM, // A5
    HISTOGRAM, // A6
    HISTOGRAM, // A7
    HISTOGRAM, // A8
    HISTOGRAM, // A9
    HISTOGRAM, // AA
    HISTOGRAM, // AB
    HISTOGRAM, // AC
    HISTOGRAM, // AD
    HISTOGRAM, // AE
    HISTOGRAM, // AF
    HISTOGRAM, // B0
    HISTOGRAM, // B1
    HISTOGRAM, // B2
    HISTOGRAM, // B3
    HISTOGRAM, // B4
    HISTOGRAM, // B5
    HISTOGRAM, // B6
    HISTOGRAM, // B7
    HISTOGRAM, // B8
    HISTOGRAM, // B9
    HISTOGRAM, // BA
    HISTOGRAM, // BB
    HISTOGRAM, // BC
    HISTOGRAM, // BD
    HISTOGRAM, // BE
    HISTOGRAM, // BF
    CHANNEL, // C0
    CHANNEL, // C1
    CHANNEL, // C2
    CHANNEL, // C3
    CHANNEL, // C4
    CHANNEL, // C5
    CHANNEL, // C6
    CHANNEL, // C7
    CHANNEL, // C8
    CHANNEL, // C9
    CHANNEL, // CA
    CHANNEL, // CB
    CHANNEL, // CC
    CHANNEL, // CD
    CHANNEL, // CE
    CHANNEL, // CF
    CHANNEL, // D0
    CHANNEL, // D1
    CHANNEL, // D2
    CHANNEL, // D3
    CHANNEL, // D4
    CHANNEL, // D5
    CHANNEL, // D6
    CHANNEL, // D7
    CHANNEL, // D8
    CHANNEL, // D9
    CHANNEL, // DA
    CHANNEL, // DB
    CHANNEL, // DC
    CHANNEL, // DD
    CHANNEL, // DE
    CHANNEL, // DF
    CHANNEL, // E0
    CHANNEL, // E1
    CHANNEL, // E2
    CHANNEL, // E3
    CHANNEL, // E4
    CHANNEL, // E5
    CHANNEL, // E6
    CHANNEL, // E7
    CHANNEL, // E8
    CHANNEL, // E9
    CHANNEL, // EA
    CHANNEL, // EB
    CHANNEL, // EC
    CHANNEL, // ED
    CHANNEL, // EE
    CHANNEL, // EF
    CHANNEL, // F0
    CHANNEL, // F1
    CHANNEL, // F2
    CHANNEL, // F3
    CHANNEL, // F4
    CHANNEL, // F5
    CHANNEL, // F6
    CHANNEL, // F7
    CHANNEL, // F8
    CHANNEL, // F9
    CHANNEL, // FA
    CHANNEL, // FB
    CHANNEL, // FC
    CHANNEL, // FD
    CHANNEL, // FE
    CHANNEL, // FF
];

// The page. Whoever asks it of many words takes it once and lends it to `classify_on`: the compiler lays out all its rows anew wherever it is named.
pub fn page() -> [u8; 256]
    ensures { PageTold result }
{
    PAGE
}

// The class of a word of row 00.
fn by_low_byte(low: u16) -> Class
    requires { low < 256 }
    ensures { view result ≡ class_of low }
{
    if Class::START_EVENT <= low {
        return Class::StartEvent;
    }
    if Class::END_EVENT <= low {
        return Class::EndEvent;
    }
    if low == Class::FRAME_END {
        return Class::FrameEnd;
    }
    Class::Unassigned
}

// What a row says of a word with this low byte: it names the class whose number it holds.
fn on_row(row: u8, low: u16) -> Class
    requires { low < 256 }
    ensures { view result ≡ on_row row low }
{
    match Class::try_from(row as u32) {
        Ok(class) => class,
        Err(_) => by_low_byte(low),
    }
}

// What a page says of a word.
pub fn classify_on(page: &[u8; 256], w: u16) -> Class
    ensures { ClassifiedOn page.now w result }
{
    let high = (w >> 8) as usize;
    on_row(page[high], w % 256)
}
