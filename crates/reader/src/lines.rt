// One line of the papers, a chain part or a subfield, tried by its format of the table: its octets, its spare bits, the limits of its numbers.
// Promises: `seen` answers where the codec of the line ends at that place, or its refusal. Stands on lengths.
ghost use Rattle.std.specs.Prelude.{◌≡◌, ◌+◌, ◌-◌, ◌*◌, ◌^◌, ◌/◌, ◌%◌, ◌≤◌, ◌<◌, T, ltb, length, take, drop};
ghost use Rattle.codec.specs.Signed.{to_signed};
ghost use Rattle.codec.specs.Radix.{join, eights};
ghost use Rattle.codec.specs.Line.{to_num, in_limits};
ghost use Rattle.lengths.specs.Lines.{kind_of, pieces_from, narrow};
ghost use Rattle.reader.specs.Numbers.{nums_at, piece_fits};
ghost use Rattle.reader.specs.Seen.{Ends, step_number};
ghost use Rattle.reader.specs.Steps.{line_run};

use layout::{Reason, Refusal};

// Why an item is refused, and at which of the few octets of a field.
#[derive(Clone, Copy)]
pub struct Stop {
    pub reason: Reason,
    pub at: u8,
}

// The law says too that the place is an octet, which a caller of `?` needs.
impl From<Stop> for Refusal {
    ghost from_gives = { λ stop refusal. (refusal ≡ record { reason = stop.reason; place = stop.at }) × (stop.at < 256) };

    fn from(stop: Stop) -> Refusal {
        stop.reason.at(usize::from(stop.at))
    }
}

// What was tried at a place: the next place, or the refusal.
pub type Step = Result<u8, Stop>;

// k octets from a place on, as one number.
pub fn octets(s: &[u8], at: usize, k: usize) -> u64
    requires { (k ≤ length s.now - at) × (k ≤ 6) }
    ensures { (result ≡ join (eights k) (take k (drop at s.now))) × (result < 2 ^ (8 * k)) }
{
    let mut n: u64 = 0;
    for i in at..at + k {
        n = n * 256 + leaves::wide64(s[i]);
    }
    n
}

fn power(w: u64) -> u64
    requires { w < 32 }
    ensures { result ≡ 2 ^ w }
{
    1u64 << w
}

// The lowest w bits.
pub fn low(n: u64, w: u64) -> u64
    requires { w < 32 }
    ensures { result ≡ n % 2 ^ w }
{
    n % power(w)
}

// A number below full, read as two's complement.
fn signed(d: u64, full: u64) -> i32
    requires { (d < full) × (full ≤ 2 ^ 24) }
    ensures { result ≡ to_signed full d }
{
    if d + d < full {
        return d as i32;
    }
    (d as i32) - (full as i32)
}

// The number of w bits d, by its kind.
pub fn number(d: u64, w: u64, kind: u64) -> i32
    requires { (d < 2 ^ w) × (w ≤ 24) }
    ensures { result ≡ to_num (kind_of kind) w d }
{
    if kind < 2 {
        return d as i32;
    }
    signed(d, power(w))
}

// Whether the number of one piece is within the limits of its kind; it is made only where the kind has some.
fn piece_fits(n: u64, next: u64, w: u64, kind: u64) -> bool
    requires { (w < 32) × (next < 64) × ((kind ≡ 0 → ⊥) → w ≤ 24) }
    ensures { result ≡ piece_fits kind w n next }
{
    if kind < 3 {
        return true;
    }
    let z = number(low(n >> next, w), w, kind);
    if kind == 3 {
        return (-4_194_304..=4_194_304).contains(&z);
    }
    (-40..=8_191).contains(&z)
}

// Whether the numbers of the pieces that lie below bit shift of n are within their limits.
fn within(n: u64, shift: u64, code: u64, left: usize) -> bool
    requires { (shift ≤ 48) × T (narrow (pieces_from left code)) }
    ensures { result ≡ in_limits (pieces_from left code) (nums_at (pieces_from left code) n shift) }
{
    if left == 0 {
        return true;
    }
    let w = code % 256 % 32;
    let next = leaves::less64(shift, w);
    if piece_fits(n, next, w, code % 256 / 32) {
        return within(n, next, code / 256, left - 1);
    }
    false
}

// Whether k octets are more than stand in len from a place on.
fn short(len: usize, at: usize, k: usize) -> bool
    requires { (at < 65_536) × (k ≤ 6) }
    ensures { result ≡ ltb (len - at) k }
{
    if k == 0 {
        return false;
    }
    len < at + k
}

// Line B at a place of the field. Its number is a parameter of the type, so that its row of the table is a constant.
pub fn seen<const B: usize>(s: &[u8], at: u8) -> Step
    requires { length s.now < 256 }
    ensures { Ends (line_run B s.now at) (step_number result) }
{
    let format = lengths::format_of(B);
    let k = format.octets;
    let from = usize::from(at);
    if short(s.len(), from, k) {
        return Err(Stop {
            reason: Reason::Cut,
            at: at,
        });
    }
    let n = octets(s, from, k);
    if n & format.spare == 0 {
        if within(n, (8 * k) as u64, format.pieces, format.runs) {
            return Ok((from + k) as u8);
        }
        return Err(Stop {
            reason: Reason::Range,
            at: at,
        });
    }
    Err(Stop {
        reason: Reason::Spare,
        at: at,
    })
}
