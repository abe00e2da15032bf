// The op over the word book.
use crate::cases::{Case, Fault, Payloads};
use crate::reply::{Answer, Told};
use exports::reading::plane_classify;

// Op 0: the class of the word a0, as its row in document 01's word book.
pub(crate) fn class(case: &Case) -> Result<Answer, Fault> {
    let [word] = case.args::<1>(Payloads::None)?;
    Ok(Ok(Told::Number(plane_classify(u16::try_from(word)?) as u64)))
}
