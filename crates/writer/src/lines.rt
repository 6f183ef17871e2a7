// One line of the papers, a chain part or a subfield, laid by its format of the table from the slots of the record.
// Promises: `line` puts the octets that the codec of the line writes, if the numbers fit it and there is room. Stands on lengths.
ghost use Rattle.std.specs.Prelude.{◌≡◌, List, ◌+◌, ◌*◌, ◌^◌, ◌≤◌, ◌<◌, ℤ};
ghost use Rattle.std.proofs.lemmas.List.Edits.{sets};
ghost use Rattle.codec.specs.Radix.{total, cut, eights};
ghost use Rattle.codec.specs.Line.{widths, line};
ghost use Rattle.lengths.specs.Lines.{line_at, first_at, pieces_from};
ghost use Rattle.layout.specs.Record.{number_at};
ghost use Rattle.layout.specs.Laws.Slots.{Holds};
ghost use Rattle.writer.specs.Digits.{low_bits, gathered};
ghost use Rattle.writer.specs.Laying.{Lays};
ghost use Rattle.papers.specs.Papers.{LONGEST};

use layout::{Field, LONGEST, Numbers};

// The slots of an item: those of its record from one on.
#[derive(Clone, Copy)]
pub struct Slots<'a> {
    pub numbers: &'a Numbers,
    pub base: u8,
}

impl<'a> Slots<'a> {
    // The number in a slot of the item, 0 past the last of the record.
    pub fn number(self, slot: usize) -> i32
        requires { slot ≤ 1000 }
        ensures { result ≡ number_at self.entry.numbers.now (self.entry.base + slot) }
    {
        layout::number_at(self.numbers, leaves::wide(self.base) + slot)
    }
}

// A field as far as it is laid, and the place behind.
#[derive(Clone, Copy)]
pub struct Laying {
    pub octets: Field,
    pub at: usize,
}

// The reader has one of its own: shared it would be a public function, which requires nothing, and its answer past 63 a rule that nothing needs.
fn power(w: u64) -> u64
    requires { w < 64 }
    ensures { result ≡ 2 ^ w }
{
    1u64 << w
}

// The w lowest bits of a number, whether it fits them or not.
fn digit(z: i32, w: u64) -> u64
    requires { w < 32 }
    ensures { result ≡ low_bits w z }
{
    u64::from(z.cast_unsigned()) % power(w)
}

// The pieces of a code as one number of so many bits, their numbers from a slot on.
fn gather(slots: Slots, bits: u64, code: u64, left: usize, slot: usize) -> u64
    requires { (bits ≡ total (widths (pieces_from left code))) × (bits ≤ 48) × (slot + left ≤ 1000) }
    ensures { result ≡ gathered (pieces_from left code) slots.entry.numbers.now (slots.entry.base + slot) }
{
    if left == 0 {
        return 0;
    }
    let w = code % 256 % 32;
    let next = bits - w;
    if code % 256 / 32 == 0 {
        return gather(slots, next, code / 256, left - 1, slot);
    }
    let d = digit(slots.number(slot), w);
    let low = gather(slots, next, code / 256, left - 1, slot + 1);
    d * power(next) + low
}

impl Laying {
    // A number in k octets, high octet first.
    fn spill(&mut self, n: u64, k: usize)
        requires { (self.old.at + k ≤ LONGEST) × (k ≤ 6) × (n < 2 ^ (8 * k)) }
        ensures octets { self.new.octets ≡ sets self.old.octets self.old.at (cut (eights k) n) }
        ensures at { self.new.at ≡ self.old.at + k }
    {
        if k == 0 {
            return;
        }
        let full = power(8 * (k - 1) as u64);
        self.octets[self.at] = leaves::octet64(n / full);
        self.at += 1;
        self.spill(n % full, k - 1);
    }

    // Line b with its bits below the pieces (FX), if there is room.
    pub fn line(&mut self, slots: Slots, b: usize, fx: u8)
        ensures { (zs : List ℤ) → Holds slots.entry.numbers.now (slots.entry.base + first_at b) zs → Lays (line (line_at b)) (fx, zs) self.old.octets self.old.at self.new.octets self.new.at }
    {
        let format = lengths::format_of(b);
        let k = format.octets;
        if LONGEST - k < self.at {
            return;
        }
        let bits = 8 * k as u64 - format.below;
        let n = gather(slots, bits, format.pieces, format.runs, format.first);
        let full = power(format.below);
        self.spill(n * full + (fx as u64) % full, k);
    }
}
