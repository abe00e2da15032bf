// The list of ops, by what is lent to be written.
use crate::cases::{Case, Fault};
use crate::reply::Reply;
use crate::{
    ops_book, ops_corrections, ops_editor, ops_follower, ops_frame, ops_list, ops_questions,
    ops_record, ops_runs, ops_writer,
};

// Answers a case whose payloads are p and q.
pub(crate) fn answer<'a>(case: &Case, p: &'a mut [u8], q: &mut [u8]) -> Result<Reply<'a>, Fault> {
    let answer = match case.op {
        0 => ops_book::class(case)?,
        1 => ops_frame::read(case, p)?,
        2 => ops_frame::item(case, p)?,
        3 => ops_frame::text(case, p)?,
        4 => ops_questions::event(case, p)?,
        5 => return ops_questions::samples(case, p),
        6 => return ops_questions::counts(case, p),
        7 => return Ok(Reply::lending(ops_writer::begin(case, p)?, p)),
        8 => return Ok(Reply::lending(ops_writer::add(case, p)?, p)),
        9 => return Ok(Reply::lending(ops_writer::add_text(case, p, q)?, p)),
        10 => return Ok(Reply::lending(ops_writer::close(case, p)?, p)),
        11 => ops_follower::follow(case)?,
        12 => ops_record::record(case, p)?,
        13 => ops_record::entry(case, p)?,
        14 => return Ok(Reply::lending(ops_editor::open(case, p, q)?, p)),
        15 => return Ok(Reply::lending(ops_editor::edit(case, p)?, p)),
        16 => return Ok(Reply::lending(ops_editor::restore(case, p, q)?, q)),
        17 => return Ok(Reply::lending(ops_list::list(case, p, q)?, q)),
        18 => ops_questions::sample_word(case, p)?,
        19 => ops_questions::bin_word(case, p)?,
        20 => return Ok(Reply::Run(ops_runs::run(case, p)?)),
        21 => ops_runs::step(case, p)?,
        22 => return Ok(Reply::lending(ops_corrections::edit_all(case, p, q)?, p)),
        _ => return Err(Fault::BadCase),
    };
    Ok(Reply::new(answer))
}
