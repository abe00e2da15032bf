// What a case was answered, and its line.
use crate::ops_runs::Steps;
use crate::sums::check_sum;
use book::class::Class;
use exports::answers::{PlaneEntry, PlaneEvent, PlaneFrame, PlaneItem, PlaneTaken};
use std::fmt;

// A refusal: its number and its place.
#[derive(Clone, Copy, Debug, PartialEq, Eq)]
pub(crate) struct Refused {
    pub number: u32,
    pub place: usize,
}

// Why a line does not begin with "ok".
#[derive(Clone, Copy, Debug, PartialEq, Eq)]
pub(crate) enum NotOk {
    // An item or corrections that no case has.
    BadCase,
    Refused(Refused),
    // The same of the correction at a position of a list.
    Stopped(Refused, usize),
}

// A step of a run.
#[derive(Clone, Copy, Debug, PartialEq, Eq)]
pub(crate) enum Step {
    // How many frames are lost before this one.
    Lost(u8),
    Refused(Refused),
    GivenUp,
}

// What an accepted call says behind "ok".
#[derive(Clone, Copy)]
pub(crate) enum Told {
    Nothing,
    Number(u64),
    Frame(PlaneFrame),
    Item {
        item: PlaneItem,
        next: usize,
    },
    Bytes {
        length: usize,
        sum: u64,
    },
    Event(PlaneEvent),
    Followed {
        lost: u8,
        state: u64,
    },
    Record {
        length: usize,
        count: usize,
        total: usize,
    },
    Entry(PlaneEntry),
    Taken {
        taken: PlaneTaken,
        follower: u64,
    },
}

// A buffer that was lent to be written, as the call left it: its length in elements and their check sum.
#[derive(Clone, Copy, Debug, PartialEq, Eq)]
pub(crate) struct Lent {
    elements: usize,
    sum: u64,
}

pub(crate) type Answer = Result<Told, NotOk>;

// What a case was answered: by a call, with the buffer that it was lent; or by a run.
#[derive(Clone, Copy)]
pub(crate) enum Reply<'a> {
    Call { answer: Answer, lent: Option<Lent> },
    Run(Steps<'a>),
}

// What a call answered by a number, 0 where it was accepted, and a place.
pub(crate) fn answer(refused: u32, place: usize, told: Told) -> Answer {
    if refused == 0 {
        return Ok(told);
    }
    Err(NotOk::Refused(Refused {
        number: refused,
        place,
    }))
}

impl Lent {
    pub(crate) fn new<T: Copy + Into<u32>>(elements: &[T]) -> Lent {
        Lent {
            elements: elements.len(),
            sum: check_sum(elements),
        }
    }
}

impl<'a> Reply<'a> {
    pub(crate) fn new(answer: Answer) -> Reply<'a> {
        Reply::Call { answer, lent: None }
    }

    // That of a call which was lent elements to write.
    pub(crate) fn lending<T: Copy + Into<u32>>(answer: Answer, elements: &[T]) -> Reply<'a> {
        Reply::Call {
            answer,
            lent: Some(Lent::new(elements)),
        }
    }

    pub(crate) fn bad_case() -> Reply<'a> {
        Reply::new(Err(NotOk::BadCase))
    }

    pub(crate) fn is_bad_case(&self) -> bool {
        matches!(
            self,
            Reply::Call {
                answer: Err(NotOk::BadCase),
                ..
            }
        )
    }
}

impl fmt::Display for Refused {
    fn fmt<W: fmt::Write>(&self, f: &mut fmt::Formatter<W>) -> fmt::Result {
        write!(f, "refused {} at {}", self.number, self.place)
    }
}

impl fmt::Display for NotOk {
    fn fmt<W: fmt::Write>(&self, f: &mut fmt::Formatter<W>) -> fmt::Result {
        match self {
            NotOk::BadCase => write!(f, "bad case"),
            NotOk::Refused(x) => write!(f, "{x}"),
            NotOk::Stopped(x, position) => write!(f, "{x} position {position}"),
        }
    }
}

impl fmt::Display for Step {
    fn fmt<W: fmt::Write>(&self, f: &mut fmt::Formatter<W>) -> fmt::Result {
        match self {
            Step::Lost(n) => write!(f, "lost {n}"),
            Step::Refused(x) => write!(f, "{x}"),
            Step::GivenUp => write!(f, "given up"),
        }
    }
}

// A value that may stand in another frame: a dash where it does.
#[derive(Clone, Copy, Debug)]
struct OrDash<T>(Option<T>);

impl<T: fmt::Display> fmt::Display for OrDash<T> {
    fn fmt<W: fmt::Write>(&self, f: &mut fmt::Formatter<W>) -> fmt::Result {
        match &self.0 {
            Some(x) => write!(f, "{x}"),
            None => write!(f, "-"),
        }
    }
}

// A flag of the exports, and the value beside it.
fn given<T: Copy + Drop>(flag: u8, x: T) -> OrDash<T> {
    OrDash(if flag == 0 { None } else { Some(x) })
}

// The letter of a kind: D, M or C.
fn letter(kind: u16) -> char {
    match kind {
        1 => 'D',
        2 => 'M',
        _ => 'C',
    }
}

// An item's class and its fields, in the book's order.
fn write_item<W: fmt::Write>(f: &mut fmt::Formatter<W>, x: &PlaneItem) -> fmt::Result {
    let class = x.item_class;
    match Class::try_from(class) {
        Ok(Class::HitCount) => write!(f, " {class} {} {} {}", x.card, x.chip, x.hits),
        Ok(Class::Sample) => write!(f, " {class} {}", x.value),
        Ok(Class::Bin) => write!(f, " {class} {} {}", x.bin, x.count),
        Ok(Class::LastCell) => write!(f, " {class} {} {}", x.chip, x.cell),
        Ok(Class::TimeBin) => write!(f, " {class} {}", x.time),
        Ok(Class::Text) => write!(f, " {class} {}", x.length),
        Ok(Class::StartEvent) => write!(f, " {class} {} {} {}", x.kind, x.timestamp, x.number),
        Ok(Class::EndEvent) => write!(f, " {class} {}", x.size),
        Ok(Class::ContinueEvent) => write!(f, " {class} {}", x.number),
        _ => write!(f, " {class} {} {} {}", x.card, x.chip, x.channel),
    }
}

fn write_entry<W: fmt::Write>(f: &mut fmt::Formatter<W>, x: &PlaneEntry) -> fmt::Result {
    write!(f, " {} {} {} {}", x.word, x.kind, x.old_value, x.new_value)?;
    write!(f, " {} {}", x.operator_id, x.reason)?;
    if x.timed != 0 {
        write!(f, " {}", x.time)?;
    }
    Ok(())
}

impl fmt::Display for Told {
    fn fmt<W: fmt::Write>(&self, f: &mut fmt::Formatter<W>) -> fmt::Result {
        match self {
            Told::Nothing => Ok(()),
            Told::Number(n) => write!(f, " {n}"),
            Told::Frame(x) => {
                write!(
                    f,
                    " {} {} {} {}",
                    letter(x.kind),
                    x.card,
                    x.sequence,
                    x.items
                )
            }
            Told::Item { item, next } => {
                write_item(f, item)?;
                write!(f, " next {next}")
            }
            Told::Bytes { length, sum } => write!(f, " {length} {sum}"),
            Told::Event(x) => {
                write!(
                    f,
                    " {} {}",
                    given(x.began, x.kind),
                    given(x.began, x.timestamp)
                )?;
                write!(f, " {} {} {}", x.number, given(x.ended, x.size), x.index)
            }
            Told::Followed { lost, state } => write!(f, " {lost} {state}"),
            Told::Record {
                length,
                count,
                total,
            } => write!(f, " {length} {count} {total}"),
            Told::Entry(x) => write_entry(f, x),
            Told::Taken { taken, follower } => {
                let next = taken.next;
                write!(
                    f,
                    " {} {follower} {} {}",
                    taken.lost, next.open, next.number
                )?;
                write!(f, " {} {}", next.size, next.key % 2048)
            }
        }
    }
}

impl fmt::Display for Lent {
    fn fmt<W: fmt::Write>(&self, f: &mut fmt::Formatter<W>) -> fmt::Result {
        write!(f, " | {} {}", self.elements, self.sum)
    }
}

impl fmt::Display for Reply<'_> {
    fn fmt<W: fmt::Write>(&self, f: &mut fmt::Formatter<W>) -> fmt::Result {
        match self {
            Reply::Call { answer, lent } => {
                match answer {
                    Ok(told) => write!(f, "ok{told}")?,
                    Err(refused) => write!(f, "{refused}")?,
                }
                match lent {
                    Some(lent) => write!(f, "{lent}"),
                    None => Ok(()),
                }
            }
            Reply::Run(steps) => write!(f, "ok{steps}"),
        }
    }
}
