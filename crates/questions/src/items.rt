// The items of an accepted frame: what each question is asked of.
ghost use Rattle.std.specs.Prelude.{◌≡◌, MatchResult};
ghost use Rattle.format.specs.Words.{Bytes};
ghost use Rattle.format.specs.Frames.{verdict};
ghost use Rattle.rules.specs.Views.{view_kind};
ghost use Rattle.book.specs.Views.{refusal};
ghost use Rattle.questions.specs.Judged.{kind_number, number_read};

use book::refusal::Refusal;
use frame::reading::read;
use rules::state::Kind;

// The frame's bytes, and its kind: the verdict on the bytes is a frame of that kind.
#[derive(Clone, Copy)]
pub(crate) struct Items<'a> {
    pub bytes: &'a [u8],
    pub kind: Kind,
    ghost content: { Bytes bytes.now },
    ghost accepted: { number_read (verdict bytes.now) ≡ kind_number (view_kind kind) },
}

impl Items<'_> {
    // Those of some bytes, unless `read` refuses them.
    pub(crate) fn of(bytes: &[u8]) -> Result<Items<'_>, Refusal>
        ensures { MatchResult result (λ x. x.bytes.now ≡ bytes.entry.now) (λ r. verdict bytes.entry.now ≡ refusal r) }
    {
        let frame = read(bytes)?;
        Ok(Items {
            bytes,
            kind: frame.kind,
        })
    }
}
