// Reads a field of a category: `survey` gives the answer and where each item begins, `read` the answer and the record, `read_into` the record into lent slots,
// `is_item` whether octets are right for one item.
// Promises: each answers what 01 defines, for every category and every octet string; octets from LEN on are never looked at.
// The survey is the one walk that refuses (module places, on lines); the numbers of an accepted field are taken by rows, on taking and numbers, which test
// nothing. Stands on lengths, shapes and spots.
#![tactic(auto)]

ghost use Rattle.std.specs.Prelude.{◌≡◌, true, ◌<◌, length};
ghost use Rattle.papers.specs.Papers.{known, items_of};
ghost use Rattle.scope.specs.Desk.{item_is};
ghost use Rattle.scope.specs.Reading.{read_of, ReadsInto};
ghost use Rattle.scope.specs.Survey.{survey_of};
ghost use Rattle.reader.specs.Fields.{items_in};
ghost use Rattle.layout.specs.Answer.{by_number, reading_by_number, survey_by_number};
ghost use Rattle.reader.specs.Places.{closed_of, surveyed_by};

mod lines;
mod numbers;
mod places;
mod rows;
mod taking;

use layout::{Answer, Reading, Reason, Record, Refusal, SLOTS, Survey};
use places::Places;

// The row of a field of len octets as its survey: nothing may be left behind its items. The clause says too that its end is an octet, which its caller needs.
fn closed(row: Places, ind: u8, len: usize) -> Result<Survey, Refusal>
    ensures { (survey_by_number result ≡ closed_of row ind len) × (row.0 < 256) }
{
    let end = leaves::wide(row.0);
    if end != len {
        return Err(Reason::Left.at(end));
    }
    let starts = row.1;
    Ok(Survey {
        len: end,
        items: ind,
        starts: starts,
    })
}

// The items of a field that ends with its slice, and that nothing is left behind them.
fn items(s: &[u8], cat: u8, ind: u8) -> Result<Survey, Refusal>
    requires { (known cat ≡ true) × (length s.now < 256) }
    ensures { survey_by_number result ≡ surveyed_by (items_of cat) (length s.now) ind (items_in cat ind s.now) }
{
    if ind & layout::spare_of(cat) == 0 {
        let row = places::row(s, cat, ind)?;
        return closed(row, ind, s.len());
    }
    Err(Reason::Indicator.at(1))
}

// Where the items of a field stand: every check of the reader, in 01's order.
pub fn survey(cat: u8, field: &[u8]) -> Result<Survey, Refusal>
    ensures { survey_by_number result ≡ survey_of cat field.now }
{
    if layout::is_known(cat) {
        if field.len() == 0 {
            return Err(Reason::Short.at(0));
        }
        let len = leaves::wide(field[0]);
        if len < 2 {
            return Err(Reason::Len.at(0));
        }
        if field.len() < len {
            return Err(Reason::Short.at(0));
        }
        let ind = field[1];
        return items(&field[..len], cat, ind);
    }
    Err(Reason::Category.at(0))
}

// Whether octets, from 1 to 253, are right for the item of index i: LEN, an indicator with that one bit and these octets are a field.
pub fn is_item(cat: u8, i: usize, octets: &[u8]) -> bool
    ensures { result ≡ item_is cat i octets.now }
{
    let n = octets.len();
    if n == 0 {
        return false;
    }
    if 253 < n {
        return false;
    }
    if layout::is_known(cat) {
        if i < layout::items_of(cat) {
            let spot = spots::spot_at(spots::spot_of(cat) + i);
            if let Ok(end) = places::item(octets, leaves::wide(spot.0)) {
                return usize::from(end) == n;
            }
        }
    }
    false
}

// A field of a category, whatever follows it, into lent slots: the parts of each item and every number.
pub fn read_into(cat: u8, field: &[u8], parts: &mut [u8; 8], numbers: &mut [i32]) -> Answer
    ensures { ReadsInto (read_of cat field.now) parts.old numbers.old (by_number result) parts.new numbers.new }
{
    let found = survey(cat, field)?;
    if numbers.len() == SLOTS
        && let Some(slots) = numbers.first_chunk_mut::<SLOTS>()
    {
        slots.fill(0);
        *parts = rows::row(&field[..found.len], cat, &found, slots);
        return Ok(found.len);
    }
    Err(Reason::Room.at(0))
}

// A field of a category, whatever follows it.
pub fn read(cat: u8, field: &[u8]) -> Reading
    ensures { reading_by_number result ≡ read_of cat field.now }
{
    let mut numbers = [0i32; SLOTS];
    let mut parts = [0u8; 8];
    let answer = read_into(cat, field, &mut parts, &mut numbers[..]);
    let Ok(_) = answer else {
        let zeros = Record {
            cat: 0,
            items: 0,
            parts: [0u8; 8],
            numbers: [0i32; SLOTS],
        };
        return Reading {
            answer: answer,
            kept: zeros,
        };
    };
    let kept = Record {
        cat: cat,
        items: field[1],
        parts: parts,
        numbers: numbers,
    };
    Reading {
        answer: answer,
        kept: kept,
    }
}
