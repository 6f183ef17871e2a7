// Octets into the front of an output that is lent (01, 'Writing' and 'The slot desk').
// Promises: the answer and every octet of the output afterwards; one that is too short is refused by 11, and nothing is written. Stands on scope.
#![tactic(auto)]

ghost use Rattle.scope.specs.Outputs.{with_room, Leaves};
ghost use Rattle.layout.specs.Answer.{by_number};
ghost use Rattle.std.specs.Prelude.{length};

use layout::{Answer, Reason};

// Octets into the front of an output, or 11: the last step of every operation that writes a field.
pub fn deliver(octets: &[u8], out: &mut [u8]) -> Answer
    ensures { Leaves (with_room (length out.old) octets.now) out.old (by_number result) out.new }
{
    let n = octets.len();
    if n <= out.len() {
        out[..n].copy_from_slice(octets);
        return Ok(n);
    }
    Err(Reason::Room.at(0))
}
