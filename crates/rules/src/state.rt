// What a reader has to remember of the items behind it; a state goes in by value and comes back.
ghost use Rattle.rules.specs.Promises.{KindOf, Started, MayEnd, MayStart, MayContinue, MayStandInside, MayTime, MaySample, MayHistogram, MayBin, MayText, PausedFrom};

// What a frame carries, numbered as document 01 does.
#[derive(Clone, Copy, Debug, PartialEq, Eq)]
pub enum Kind {
    Data = 1,
    Monitor = 2,
    Command = 3,
}

// The numbers, as patterns.
const DATA: u16 = Kind::Data as u16;

const MONITOR: u16 = Kind::Monitor as u16;

const COMMAND: u16 = Kind::Command as u16;

// A number that is no kind's.
#[derive(Clone, Copy, Debug, PartialEq, Eq)]
pub struct NoKind;

impl TryFrom<u16> for Kind {
    type Error = NoKind;

    ghost try_from_gives = { KindOf };

    fn try_from(number: u16) -> Result<Kind, NoKind> {
        match number {
            DATA => Ok(Kind::Data),
            MONITOR => Ok(Kind::Monitor),
            COMMAND => Ok(Kind::Command),
            _ => Err(NoKind),
        }
    }
}

// Where the next item would stand. The order is for speed alone: the places that most words of a data frame stand in come first, side by side,
// so that a test for two of them is one comparison.
#[derive(Clone, Copy, Debug, PartialEq, Eq)]
pub enum Mode {
    AfterTime,
    AfterSample,
    Inside,
    AfterChannel,
    Outside,
    Unheaded,
    Headed,
    Commands,
    Fresh,
}

// Where events begin and end. The leading part is that of an event that began in another frame: a Continue event opens it.
#[derive(Clone, Copy, Debug, PartialEq, Eq)]
pub struct Marks {
    // The word index of the latest Start event; 0 where the frame has none. Whether its event is open is the mode's to tell.
    pub opener: usize,
    // One more than the key of the leading part's first Channel header; 0 where it has none.
    pub first: u32,
    // The word index of the leading part's End event; 0 where it has none.
    pub lead: usize,
}

#[derive(Clone, Copy, Debug, PartialEq, Eq)]
pub struct State {
    pub mode: Mode,
    // A header's key is at least this.
    pub key: u32,
    // The time that a sample would have, or the least number that a bin may have.
    pub next: u32,
    pub marks: Marks,
}

impl State {
    // The state before any item.
    pub fn start(kind: Kind) -> State
        ensures { Started kind result }
    {
        let mode = match kind {
            Kind::Data => Mode::Fresh,
            Kind::Monitor => Mode::Unheaded,
            Kind::Command => Mode::Commands,
        };
        let marks = Marks {
            opener: 0,
            first: 0,
            lead: 0,
        };
        State {
            mode,
            key: 0,
            next: 0,
            marks,
        }
    }
}

// The items may end here: not after Channel or Time bin.
pub fn may_end(mode: Mode) -> bool
    ensures { MayEnd mode result }
{
    !matches!(mode, Mode::AfterChannel | Mode::AfterTime)
}

pub fn may_start(mode: Mode) -> bool
    ensures { MayStart mode result }
{
    matches!(mode, Mode::Outside | Mode::Fresh)
}

// A Continue event is the first item of a data frame.
pub fn may_continue(mode: Mode) -> bool
    ensures { MayContinue mode result }
{
    mode == Mode::Fresh
}

// Hit count, Last cell, Channel and End event stand in the same places.
pub fn may_stand_inside(mode: Mode) -> bool
    ensures { MayStandInside mode result }
{
    matches!(mode, Mode::Inside | Mode::AfterSample)
}

pub fn may_time(mode: Mode) -> bool
    ensures { MayTime mode result }
{
    matches!(mode, Mode::AfterChannel | Mode::AfterSample)
}

pub fn may_sample(mode: Mode) -> bool
    ensures { MaySample mode result }
{
    matches!(mode, Mode::AfterTime | Mode::AfterSample)
}

pub fn may_histogram(mode: Mode) -> bool
    ensures { MayHistogram mode result }
{
    matches!(mode, Mode::Unheaded | Mode::Headed)
}

pub fn may_bin(mode: Mode) -> bool
    ensures { MayBin mode result }
{
    mode == Mode::Headed
}

pub fn may_text(mode: Mode) -> bool
    ensures { MayText mode result }
{
    mode == Mode::Commands
}

// A Time bin right after a Sample leaves a pause: it is later than the next sample would be.
pub fn paused(mode: Mode, next: u32, time: u32) -> bool
    ensures { PausedFrom mode next time result }
{
    mode != Mode::AfterSample || next < time
}
