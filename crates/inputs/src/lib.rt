// The octets of standard input, for the programs that take them all before they answer.
// Promises: as many octets as are told lie in the array that was lent; where it is known what the reader has left, they are the next of those, and all of them
// unless the array is full. Which a file or a pipe gives, and how many, nothing can promise: this is the one public function whose result is not determined.
// Stands on std's io.
#![tactic(auto)]

ghost use Rattle.std.specs.Prelude.{◌<◌, IfOk, length, take};
ghost use Rattle.std.specs.Io.KnownBytes.{Consumes, IsAtEnd};
ghost use Rattle.inputs.specs.Inputs.{Within};

use std::io;
use std::io::Read;

// What a reader gives into the front of an array, to its end or as far as there is room; what stands behind is left unread.
pub fn read_in<R: Read>(reader: &mut R, input: &mut [u8]) -> io::Result<usize>
    ensures within { Within result (length input.new) }
    ensures octets { IfOk result (λ n. Consumes (R.remaining reader.old) (R.remaining reader.new) (take n input.new)) }
    ensures all { IfOk result (λ n. n < length input.new → IsAtEnd (R.remaining reader.new)) }
{
    let mut done = 0;
    // No plainer as a `for`: a turn goes on by as many octets as the reader gave, and no range or iterator counts those.
    while done < input.len() {
        let n = reader.read(&mut input[done..])?;
        if n == 0 {
            return Ok(done);
        }
        done += n;
    }
    Ok(done)
}
