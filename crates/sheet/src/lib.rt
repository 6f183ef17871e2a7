// The sheet of an input, a category octet and a field: what the maker and the buyer's engineer read.
// Promises: every octet of the text, its length and the rest of the output; 11 where the output is short.
// Stands on reader for the record, on text for words and decimals, on position and pressure, and on outputs.
#![tactic(auto)]

ghost use Rattle.std.specs.Prelude.{◌≡◌, true, ◌∷◌, ◌+◌, ◌≤◌, T, length};
ghost use Rattle.codec.specs.Field.{flags};
ghost use Rattle.papers.specs.Papers.{SLOTS, known};
ghost use Rattle.layout.specs.Answer.{by_number, reason_number};
ghost use Rattle.scope.specs.Sheet.{row_text, items_text, refusal_text, sheet_of, Listed};
ghost use Rattle.spots.specs.Spots.{spot_ok, row_ok, items_from, held_from};
ghost use Rattle.text.specs.Typed.{Typed};
ghost use Rattle.sheet.specs.Items.{named_at};
ghost use Rattle.sheet.specs.Rows.{names_from, place_text, comma_of};
ghost use Rattle.sheet.specs.Whole.{record_text};

mod items;
mod numbers;

use items::Held;
use layout::{Answer, Numbers, Reason, Record, Refusal};
use text::Text;

// The item at a spot, if it is there.
fn place(there: bool, count: u8, numbers: &Numbers, k: usize, sheet: &mut Text)
    requires { T (spot_ok k) × (length numbers.now ≡ SLOTS) }
    ensures { Typed (place_text k there count numbers.now) sheet.old sheet.new }
{
    if there {
        let spot = spots::spot_at(k);
        let held = Held {
            count: usize::from(count),
            numbers,
            base: usize::from(spot.1),
        };
        held.named(usize::from(spot.0), sheet);
    }
}

// The items of a record, n from a category's first spot on.
fn row(kept: &Record, first: usize, n: usize, sheet: &mut Text)
    requires { (first + n ≤ 200) × (n ≤ 8) × T (row_ok first n) × (length kept.now.numbers ≡ SLOTS) }
    ensures { Typed (row_text (flags kept.now.items) (items_from first n) (names_from first n) (held_from first n 0 kept.now.parts kept.now.numbers)) sheet.old sheet.new }
{
    for i in 0..n {
        let there = flags::present(kept.items, i);
        place(there, kept.parts[i], &kept.numbers, first + i, sheet);
    }
}

// A comma before each name but the first.
fn comma(first: bool, sheet: &mut Text)
    ensures { Typed (comma_of first) sheet.old sheet.new }
{
    if !first {
        sheet.octet(b',');
    }
}

// The name of item k of those that some paper has: its place in the tables of shapes and spots, where an enum would be no plainer, since they are looked up by it.
#[tactic(auto, using(crate::specs::Laws::Rows::name_past), unfolding(crate::specs::Items::named_at, crate::specs::Items::named, papers::specs::Names::names048, papers::specs::Names::names021, papers::specs::Names::names007))]
fn name(k: usize) -> &'static [u8]
    ensures { result.now ≡ (named_at k).name }
{
    match k {
        0 => b"MD5",
        1 => b"M5N",
        2 => b"M4E",
        3 => b"RPC",
        4 => b"ERR",
        5 => b"BPS",
        6 => b"SelH",
        7 => b"NAV",
        8 => b"GAO",
        9 => b"SGV",
        10 => b"STA",
        11 => b"TNH",
        12 => b"MES",
        13 => b"TA",
        _ => b"",
    }
}

// The names of the items that are there, of n from a category's first spot on.
fn names(items: u8, first: usize, n: usize, sheet: &mut Text)
    requires { (first + n ≤ 200) × (n ≤ 8) }
    ensures { Typed (items_text (comma_of true) (flags items) (names_from first n)) sheet.old sheet.new }
{
    let mut none_yet = true;
    for i in 0..n {
        if flags::present(items, i) {
            comma(none_yet, sheet);
            none_yet = false;
            let spot = spots::spot_at(first + i);
            sheet.word(name(usize::from(spot.0)));
        }
    }
}

// The lines of a refusal.
fn refusal(refused: Refusal, sheet: &mut Text)
    ensures { Typed (refusal_text (reason_number refused.reason) refused.place) sheet.old sheet.new }
{
    sheet.pair(b"refused", u8::from(refused.reason));
    sheet.pair(b"at", refused.place);
}

// The lines of a record that was read from len octets.
fn accepted(kept: &Record, len: usize, sheet: &mut Text)
    requires { (known kept.now.cat ≡ true) × (length kept.now.numbers ≡ SLOTS) }
    ensures { Typed (record_text kept.now len) sheet.old sheet.new }
{
    let first = spots::spot_of(kept.cat);
    let n = layout::items_of(kept.cat);
    sheet.pair(b"len", len);
    sheet.word(b"items=");
    names(kept.items, first, n, sheet);
    sheet.line_end();
    row(kept, first, n, sheet);
    sheet.word(b"end=ok\n");
}

// The sheet of a category and a field.
pub fn listed(cat: u8, field: &[u8], sheet: &mut Text)
    ensures { Typed (sheet_of (cat ∷ field.now)) sheet.old sheet.new }
{
    sheet.pair(b"cat", cat);
    let reading = reader::read(cat, field);
    match reading.answer {
        Ok(len) => accepted(&reading.kept, len, sheet),
        Err(refused) => refusal(refused, sheet),
    }
}

// The sheet of an input, which has one without an octet too.
fn typed(input: &[u8], sheet: &mut Text)
    ensures { Typed (sheet_of input.now) sheet.old sheet.new }
{
    let Some((&cat, field)) = input.split_first() else {
        sheet.word(b"cat=none\n");
        return refusal(Reason::Short.at(0), sheet);
    };
    listed(cat, field, sheet);
}

// The sheet of an input into the front of an output, or 11.
pub fn sheet(input: &[u8], out: &mut [u8]) -> Answer
    ensures { Listed input.now out.old (by_number result) out.new }
{
    let mut sheet = Text::new();
    typed(input, &mut sheet);
    outputs::deliver(sheet.as_slice(), out)
}
