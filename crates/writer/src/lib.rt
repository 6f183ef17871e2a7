// Writes a record as a field: `write` answers its length and leaves the field in the front of the output.
// Promises: the answer and every octet of the output are what 01 defines, for every value of the record; a refusal writes nothing.
// Stands on lengths, shapes and spots, by which it lays the octets, and on reader's promise: a record is right exactly if what is laid of it reads back to it.
#![tactic(auto)]

ghost use Rattle.std.specs.Prelude.{◌≡◌, true, List, ◌+◌, ◌≤◌, T, ltb, ℤ, length, drop};
ghost use Rattle.codec.specs.Codec.{opt};
ghost use Rattle.codec.specs.Line.{line};
ghost use Rattle.codec.specs.Item.{nothing, flagged, chain, subfields, item};
ghost use Rattle.codec.specs.Field.{flags, row};
ghost use Rattle.papers.specs.Papers.{known};
ghost use Rattle.layout.specs.Answer.{by_number};
ghost use Rattle.layout.specs.Laws.Slots.{Holds};
ghost use Rattle.lengths.specs.Lines.{line_at, first_at, count_at};
ghost use Rattle.shapes.specs.Shapes.{item_at, lines_from, flags_under, in_turn};
ghost use Rattle.spots.specs.Spots.{spot_ok, row_ok, items_from, numbers_on, held_from};
ghost use Rattle.scope.specs.Writing.{Wrote};
ghost use Rattle.writer.specs.Laying.{Lays};
ghost use Rattle.writer.specs.Chains.{goes_on};
ghost use Rattle.writer.specs.Rows.{place_on};
ghost use Rattle.writer.specs.Checked.{Checked, ReadBack};
ghost use Rattle.writer.specs.Frames.{Laid};
ghost use Rattle.papers.specs.Papers.{LONGEST};

mod lines;

use layout::{Answer, Field, LONGEST, Numbers, Reason, Record};
use lines::{Laying, Slots};
use shapes::Shape;
use spots::Spot;

// Whether a further part of a chain follows: some are defined, and the count of parts says so.
fn goes_on(count: u8, left: usize) -> bool
    ensures { result ≡ goes_on count left }
{
    if left == 0 {
        return false;
    }
    1 < count
}

impl Laying {
    // The chain of so many parts whose first is line b, with left further parts defined.
    fn chain(&mut self, slots: Slots, count: u8, b: usize, left: usize)
        requires { (b + left ≤ 300) × T (in_turn b (left + 1)) }
        ensures { (zs : List ℤ) → Holds slots.entry.numbers.now (slots.entry.base + first_at b) zs → Lays (chain (line_at b) (lines_from (b + 1) left)) (count, zs) self.old.octets self.old.at self.new.octets self.new.at }
    {
        if goes_on(count, left) {
            self.line(slots, b, 1);
            self.chain(slots, count - 1, b + 1, left - 1);
            return;
        }
        self.line(slots, b, 0);
    }

    // Subfield b, if the chain says that it is there.
    fn subfield(&mut self, slots: Slots, b: usize)
        ensures { (zs us : List ℤ) → Holds slots.entry.numbers.now slots.entry.base zs → T (ltb (line_at b).flag (length zs)) → Holds slots.entry.numbers.now (slots.entry.base + first_at b) us → Lays (opt (nothing (count_at b)) (flagged zs (line_at b)) (line (line_at b))) (0, us) self.old.octets self.old.at self.new.octets self.new.at }
    {
        let format = lengths::format_of(b);
        if flags::is_one(slots.number(format.flag)) {
            self.line(slots, b, 0);
        }
    }

    // The left subfields from line b on.
    fn subfields(&mut self, slots: Slots, b: usize, left: usize)
        requires { (b + left ≤ 300) × T (in_turn b left) }
        ensures { (zs us : List ℤ) → Holds slots.entry.numbers.now slots.entry.base zs → T (flags_under (length zs) (lines_from b left)) → ((left ≡ 0 → ⊥) → Holds slots.entry.numbers.now (slots.entry.base + first_at b) us) → Lays (subfields zs (lines_from b left)) (0, us) self.old.octets self.old.at self.new.octets self.new.at }
    {
        for i in 0..left {
            self.subfield(slots, b + i);
        }
    }

    // One item of those that some paper has, with so many parts of its chain.
    fn item(&mut self, slots: Slots, count: u8, k: usize)
        ensures { (zs : List ℤ) → Holds slots.entry.numbers.now slots.entry.base zs → Lays (item (item_at k)) (count, zs) self.old.octets self.old.at self.new.octets self.new.at }
    {
        let Shape(b, parts, subfields) = shapes::shape_at(k);
        if parts == 0 {
            self.line(slots, b, count);
            return;
        }
        self.chain(slots, count, b, parts - 1);
        self.subfields(slots, b + parts, subfields);
    }

    // The item at a spot, if it is there.
    fn place(&mut self, there: bool, count: u8, numbers: &Numbers, k: usize)
        requires { T (spot_ok k) }
        ensures { Lays (place_on k there) (count, numbers_on k numbers.now) self.old.octets self.old.at self.new.octets self.new.at }
    {
        if there {
            let Spot(found, base) = spots::spot_at(k);
            self.item(Slots { numbers, base }, count, leaves::wide(found));
        }
    }

    // The first n items of a record, from spot k on.
    fn row(&mut self, kept: &Record, k: usize, n: usize)
        requires { (k + n ≤ 200) × (n ≤ 8) × T (row_ok k n) }
        ensures { Lays (row (flags kept.now.items) (items_from k n)) (held_from k n 0 kept.now.parts kept.now.numbers) self.old.octets self.old.at self.new.octets self.new.at }
    {
        for i in 0..n {
            let there = flags::present(kept.items, i);
            self.place(there, kept.parts[i], &kept.numbers, k + i);
        }
    }
}

// The field of a record in front of the octets, if some field reads to it.
fn lay(kept: &Record, octets: &mut Field)
    requires { (known kept.now.cat ≡ true) × (length octets.old ≡ LONGEST) }
    ensures { Laid kept.now octets.old octets.new }
{
    let first = spots::spot_of(kept.cat);
    let n = layout::items_of(kept.cat);
    let mut field = Laying {
        octets: *octets,
        at: 2,
    };
    field.octets[1] = kept.items;
    field.row(kept, first, n);
    field.octets[0] = leaves::octet(field.at);
    *octets = field.octets;
}

// What the octets read to, if that is the record that was laid there; or 10.
fn reads_back(kept: Record, octets: &[u8]) -> Answer
    requires { known kept.cat ≡ true }
    ensures { ReadBack kept octets.now (by_number result) }
{
    let back = reader::read(kept.cat, octets);
    if back.kept == kept {
        return back.answer;
    }
    Err(Reason::Unwritable.at(0))
}

// The length of a record's field, which then stands in front of the octets; or 10.
fn checked(kept: Record, octets: &mut Field) -> Answer
    requires { (known kept.cat ≡ true) × (length octets.old ≡ LONGEST) }
    ensures { Checked kept (by_number result) octets.new }
{
    lay(&kept, &mut *octets);
    reads_back(kept, &octets[..])
}

// A record as a field of its category: 1, 10, 11.
pub fn write(kept: Record, out: &mut [u8]) -> Answer
    ensures { Wrote kept out.old (by_number result) out.new }
{
    if layout::is_known(kept.cat) {
        let mut octets = [0u8; LONGEST];
        let n = checked(kept, &mut octets)?;
        return outputs::deliver(&octets[..n], &mut *out);
    }
    Err(Reason::Category.at(0))
}
