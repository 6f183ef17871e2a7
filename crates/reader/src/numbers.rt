// The numbers of one line of the papers, taken by its format of the table into the slots of the record.
// Promises: `take` puts the numbers that the codec of the line reads at that place into their slots; it tests nothing. Stands on lengths and lines.
ghost use Rattle.std.specs.Prelude.{◌≡◌, ◌+◌, ◌-◌, ◌*◌, ◌/◌, ◌%◌, ◌≤◌, ◌<◌, T, length};
ghost use Rattle.std.proofs.lemmas.List.Edits.{sets};
ghost use Rattle.lengths.specs.Lines.{line_at, first_at, count_at, pieces_from, narrow};
ghost use Rattle.papers.specs.Papers.{SLOTS};
ghost use Rattle.reader.specs.Numbers.{nums_at, num_of};
ghost use Rattle.reader.specs.Steps.{line_run};
ghost use Rattle.reader.specs.Taking.{LineTaken};

use crate::lines;
use layout::Numbers;

// The number of one piece into its slot: the slots that it took, none where the bits hold no number.
fn piece(numbers: &mut Numbers, n: u64, next: u64, w: u64, kind: u64, slot: usize) -> usize
    requires { (w < 32) × (next < 64) × ((kind ≡ 0 → ⊥) → (w ≤ 24) × (slot < SLOTS)) }
    ensures { (result ≡ length (num_of kind w n next)) × (numbers.new ≡ sets numbers.old slot (num_of kind w n next)) }
{
    if kind == 0 {
        return 0;
    }
    numbers[slot] = lines::number(lines::low(n >> next, w), w, kind);
    1
}

// The numbers of so many pieces that lie below bit shift of n, from a slot on.
fn store(numbers: &mut Numbers, n: u64, shift: u64, code: u64, runs: usize, first: usize)
    requires { (shift ≤ 48) × (runs ≤ 8) × T (narrow (pieces_from runs code)) × (first + length (nums_at (pieces_from runs code) n shift) ≤ SLOTS) }
    ensures { numbers.new ≡ sets numbers.old first (nums_at (pieces_from runs code) n shift) }
{
    let mut next = shift;
    let mut rest = code;
    let mut slot = first;
    for _ in 0..runs {
        let w = rest % 256 % 32;
        next = leaves::less64(next, w);
        slot += piece(numbers, n, next, w, rest % 256 / 32, slot);
        rest = rest / 256;
    }
}

// Line b at a place of the field, all of whose octets are there; the slots of its item begin at base. The next place.
pub fn take(s: &[u8], at: usize, b: usize, base: usize, numbers: &mut Numbers) -> usize
    requires { ((line_at b).octets ≤ length s.now - at) × (base + (first_at b + count_at b) ≤ SLOTS) }
    ensures { LineTaken numbers.old (base + first_at b) (line_run b s.now at) (at + (line_at b).octets) result numbers.new }
{
    let format = lengths::format_of(b);
    let k = format.octets;
    let n = lines::octets(s, at, k);
    store(
        numbers,
        n,
        (8 * k) as u64,
        format.pieces,
        format.runs,
        base + format.first,
    );
    at + k
}
