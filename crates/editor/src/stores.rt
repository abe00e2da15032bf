// Words stored in a lent buffer, low byte first.
ghost use Rattle.std.specs.Prelude.{◌≡◌, ◌+◌, ◌*◌, ◌≤◌, length};
ghost use Rattle.std.proofs.lemmas.List.Edits.{sets};
ghost use Rattle.format.specs.Words.{bytes};

use records::values::put_word;

// Stores some words, from byte `at` on.
pub(crate) fn put_words(buf: &mut [u8], at: usize, ws: &[u16])
    requires { at + 2 * length ws.now ≤ length buf.old }
    ensures { buf.new ≡ sets buf.old at (bytes ws.now) }
{
    for (i, w) in ws.iter().enumerate() {
        put_word(buf, at + 2 * i, *w);
    }
}
