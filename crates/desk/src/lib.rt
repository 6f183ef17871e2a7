// The slot desk (01, the section of that name): one item of a field is added, replaced or removed by a slot that was booked for it.
// Promises: `remove` and `replace` answer and leave what 01 defines, for every input: the field written afresh with that one item changed, or a refusal that writes nothing.
// Stands on reader and outputs, which it knows by their contracts.
#![tactic(auto)]

ghost use Rattle.std.specs.Prelude.{◌≡◌, ◌+◌, ◌-◌, ◌≤◌, length};
ghost use Rattle.std.proofs.lemmas.List.Edits.{sets};
ghost use Rattle.codec.specs.Change.{remove, put};
ghost use Rattle.scope.specs.Outputs.{with_room, Leaves};
ghost use Rattle.scope.specs.Desk.{Edited};
ghost use Rattle.layout.specs.Answer.{by_number, survey_by_number};
ghost use Rattle.desk.specs.Asking.{refusal_number, asked_of};
ghost use Rattle.desk.specs.Splicing.{splice_of};
ghost use Rattle.desk.specs.Edits.{allowed_of, emptied, Exchangeable, exchange_of};

use layout::{Answer, Reason, Refusal, Survey};

// An edit that is not asked for rightly is refused: 12 for no item of the category, 13 for one off the slot's list.
#[tactic(auto, using(crate::specs::Laws::Asking::asked_none, crate::specs::Laws::Asking::asked_on, crate::specs::Laws::Asking::asked_off))]
fn asked(cat: u8, list: u8, item: u8) -> Result<(), Refusal>
    ensures { refusal_number result ≡ (asked_of cat list item, 0) }
{
    if layout::is_item(cat, item) {
        if flags::present(list, flags::index(item)) {
            return Ok(());
        }
        return Err(Reason::List.at(0));
    }
    Err(Reason::Item.at(0))
}

// Octets into an array from a place on: the end of the range, which `copy_from_slice` asks for, is counted here and not at each of three calls.
#[tactic(auto, using(crate::specs::Laws::Splicing::pasted))]
fn paste(from: &[u8], at: usize, octets: &mut [u8])
    requires { at + length from.now ≤ length octets.old }
    ensures { octets.new ≡ sets octets.old at from.now }
{
    octets[at..at + from.len()].copy_from_slice(from);
}

// A field with its octets from a place to another exchanged for new ones, and another indicator.
fn spliced(field: &[u8], items: u8, from: usize, to: usize, new: &[u8], out: &mut [u8]) -> Answer
    requires { (2 ≤ from) × (from ≤ to) × (to ≤ length field.now) × (from + length new.now + (length field.now - to) ≤ 255) }
    ensures { Leaves (with_room (length out.old) (splice_of items field.now from to new.now)) out.old (by_number result) out.new }
{
    let n = from + new.len() + (field.len() - to);
    let mut octets = [0u8; 255];
    octets[0] = leaves::octet(n);
    octets[1] = items;
    paste(&field[2..from], 2, &mut octets);
    paste(new, from, &mut octets);
    paste(&field[to..], from + new.len(), &mut octets);
    outputs::deliver(&octets[..n], out)
}

// Where the items of a field stand that may be edited so; the refusal of the field is the answer unchanged, then 12 and 13.
fn allowed(cat: u8, field: &[u8], list: u8, item: u8) -> Result<Survey, Refusal>
    ensures { survey_by_number result ≡ emptied (allowed_of cat field.now list item) }
{
    let surveyed = reader::survey(cat, field);
    let Ok(found) = surveyed else {
        return surveyed;
    };
    asked(cat, list, item)?;
    Ok(found)
}

// A surveyed field with the octets of an item exchanged, and another indicator.
fn exchanged(field: &[u8], found: Survey, item: u8, items: u8, new: &[u8], out: &mut [u8]) -> Answer
    requires { Exchangeable field.now found.len found.starts item new.now }
    ensures { Leaves (with_room (length out.old) (exchange_of items field.now found.len found.starts item new.now)) out.old (by_number result) out.new }
{
    let i = leaves::wide(item);
    let starts = found.starts;
    let from = leaves::wide(starts[i - 1]);
    let to = leaves::wide(starts[i]);
    spliced(&field[..found.len], items, from, to, new, out)
}

// An item removed; an absent one leaves the field itself.
pub fn remove(cat: u8, field: &[u8], list: u8, item: u8, out: &mut [u8]) -> Answer
    ensures { Edited cat field.now list item remove out.old (by_number result) out.new }
{
    let found = allowed(cat, field, list, item)?;
    let items = flags::without_item(found.items, flags::index(item));
    exchanged(field, found, item, items, &field[..0], out)
}

// An item replaced by new octets, or added.
pub fn replace(cat: u8, field: &[u8], list: u8, item: u8, new: &[u8], out: &mut [u8]) -> Answer
    ensures { Edited cat field.now list item (put new.now) out.old (by_number result) out.new }
{
    let found = allowed(cat, field, list, item)?;
    let i = flags::index(item);
    if reader::is_item(cat, i, new) {
        let items = flags::with_item(found.items, i);
        return exchanged(field, found, item, items, new, out);
    }
    Err(Reason::New.at(0))
}
