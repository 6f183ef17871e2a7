// The inverse of `listing` (02, Ask 6): reads a sheet from standard input and writes the category octet and the field that it was printed for to standard
// output. Of any other text it writes nothing there, and on standard error the refusal: `refused=18` and `line=`, the line at which it is no sheet. A read or a
// write that fails ends it, with a line on standard error.
// Promises: what it hands to be written is the category and the field of the text that it was handed, to the octet, or the refusal; what is read and written
// nothing can promise. Stands on rebuild, on text for the refusal, and on inputs for what is read.
#![tactic(auto)]

ghost use Rattle.std.specs.Prelude.{◌≡◌, length};
ghost use Rattle.layout.specs.Answer.{Refused, reason_number, by_number};
ghost use Rattle.text.specs.Typed.{Typed};
ghost use Rattle.unlisting.specs.Unlists.{ROOM, Unlists, refusal_lines};

use layout::{Answer, LONGEST, Refusal};
use text::Text;

// A text may have 32,768 octets; of a longer one these are enough to refuse it.
const MOST: usize = 32769;

// Room for a category and the longest field.
const ROOM: usize = LONGEST + 1;

fn main(rt: HostRuntime) {
    let mut input = [0u8; MOST];
    let Ok(n) = inputs::read_in(&mut rt.stdin(), &mut input) else {
        let _ = rt.eprintln("unlisting: standard input can't be read");
        return;
    };
    let mut output = [0u8; ROOM];
    match unlisted(&input[..n], &mut output) {
        Ok(len) => {
            if rt.write_all(&output[..len + 1]).is_err() {
                let _ = rt.eprintln("unlisting: the field can't be written");
            }
        }
        Err(refused) => {
            let mut lines = Text::new();
            refusal(refused, &mut lines);
            let _ = rt.stderr().write_all(lines.as_slice());
        }
    }
}

// The category and the field into the front of the output. With so much room only 18 is given.
fn unlisted(text: &[u8], output: &mut [u8]) -> Answer
    requires { length output.old ≡ ROOM }
    ensures { Unlists text.now (by_number result) output.new }
{
    let rebuilt = rebuild::rebuild(text, &mut output[1..])?;
    output[0] = rebuilt.cat;
    Ok(rebuilt.len)
}

// The two lines of a refusal.
fn refusal(refused: Refusal, lines: &mut Text)
    ensures { Typed (refusal_lines (Refused (reason_number refused.reason) refused.place)) lines.old lines.new }
{
    lines.pair(b"refused", u8::from(refused.reason));
    lines.pair(b"line", refused.place);
}
