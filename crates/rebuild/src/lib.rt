// Rebuilds the octets of a field from its sheet (02, Ask 6): what the text would hold if it were a sheet is written, that field's own sheet is printed, and the
// two texts are compared.
// Promises: `rebuild` gives the category and the octets of exactly the sheets of accepted fields, and refuses every other text at the line that 02 says, and a
// sheet by 11 where there is no room; a refusal has category 0 and writes nothing. Stands on taken for what the text holds, on writer, sheet and text for what
// is printed, on walk and compare for the two texts, and on outputs.
#![tactic(auto)]

ghost use Rattle.std.specs.Prelude.{◌≡◌, ◌∷◌, ℕ};
ghost use Rattle.codec.specs.Field.{Contents};
ghost use Rattle.layout.specs.Answer.{length_of, Refused};
ghost use Rattle.scope.specs.Sheet.{sheet_of};
ghost use Rattle.guess.specs.Guess.{sheet_with, first_wrong};
ghost use Rattle.compare.specs.Lines.{line_of};
ghost use Rattle.layout.specs.Answer.{rebuilt_by_number};
ghost use Rattle.rebuild.specs.Rebuilds.{Rebuilds};

pub use layout::Rebuilt;
use layout::{LONGEST, Reason, Refusal};
use text::Text;

// The first line, from 1, in which a text differs from the sheet of a field, with len for the value of its `len`.
fn wrong(cat: u8, len: u64, field: &[u8], text: &[u8]) -> Option<usize>
    ensures { (n : ℕ) (r : Contents) → sheet_of (cat ∷ field.now) ≡ sheet_with cat n r → result ≡ line_of (first_wrong 1 (sheet_with cat len r) text.now) }
{
    let mut own = Text::new();
    sheet::listed(cat, field, &mut own);
    let mut exchanged = Text::new();
    exchanged.pair(b"cat", cat);
    exchanged.pair(b"len", len);
    exchanged.word(walk::skip(own.as_slice(), 2));
    compare::first_wrong(exchanged.as_slice(), text)
}

// The category and the octets of the field whose sheet a text is, into the front of an output: 18, 11.
pub fn rebuild(text: &[u8], out: &mut [u8]) -> Result<Rebuilt, Refusal>
    ensures { Rebuilds text.now out.old (rebuilt_by_number result) out.new }
{
    if text.len() > 32768 {
        return Err(Reason::Text.at(0));
    }
    let kept = taken::record(text);
    let mut field = [0u8; LONGEST];
    let n = writer::write(kept, &mut field).unwrap_or(0);
    let len = walk::bounded(walk::next(text), 2, 255);
    if let Some(line) = wrong(kept.cat, len, &field[..n], text) {
        return Err(Reason::Text.at(line));
    }
    if len != n as u64 {
        return Err(Reason::Text.at(2));
    }
    let given = outputs::deliver(&field[..n], &mut *out)?;
    Ok(Rebuilt {
        cat: kept.cat,
        len: given,
    })
}
