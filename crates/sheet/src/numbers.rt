// The numbers of one chain part or subfield, each with its key and what is derived from it.
// Promises: `group` types the text of the numbers that stand in the slots, one for each key of the group. Stands on layout, position, pressure and text.
ghost use Rattle.std.specs.Prelude.{◌≡◌, [], ◌++◌, ◌+◌, ◌≤◌, true, false, length, MatchOption};
ghost use Rattle.papers.specs.Names.{shown, text};
ghost use Rattle.layout.specs.Record.{number_at};
ghost use Rattle.scope.specs.Sheet.{number_text};
ghost use Rattle.text.specs.Typed.{Typed};
ghost use Rattle.sheet.specs.Keys.{mark_is, meant, slots_in, keys_from, keyed};
ghost use Rattle.sheet.specs.Marks.{octet_of, Alike};

use layout::Numbers;
use position::Position;
use text::Text;

// The resolution, a flag, and the altitude, a number of 14 bits.
#[derive(Clone, Copy)]
pub struct Altitude {
    pub res: i32,
    pub ga: i32,
}

// The time offset, a number of 8 bits.
#[derive(Clone, Copy)]
pub struct Offset {
    pub tos: i32,
}

// How the numbers of a word stand on the sheet, which the octet behind it says.
#[derive(Clone, Copy)]
enum Mark {
    Position,
    Altitude,
    Offset,
    Pressure,
    Hidden,
    Alone,
}

fn position_at(numbers: &Numbers, slot: usize) -> Position
    requires { slot ≤ 5000 }
    ensures { (result.lat ≡ number_at numbers.now slot) × (result.lon ≡ number_at numbers.now (slot + 1)) }
{
    Position {
        lat: layout::number_at(numbers, slot),
        lon: layout::number_at(numbers, slot + 1),
    }
}

fn altitude_at(numbers: &Numbers, slot: usize) -> Altitude
    requires { slot ≤ 5000 }
    ensures { (result.res ≡ number_at numbers.now slot) × (result.ga ≡ number_at numbers.now (slot + 1)) }
{
    Altitude {
        res: layout::number_at(numbers, slot),
        ga: layout::number_at(numbers, slot + 1),
    }
}

fn offset_at(numbers: &Numbers, slot: usize) -> Offset
    ensures { result.tos ≡ number_at numbers.now slot }
{
    Offset {
        tos: layout::number_at(numbers, slot),
    }
}

fn altitude_lines(name: &[u8], a: Altitude, sheet: &mut Text)
    ensures { Typed (number_text (shown (name.now ++ text ".RES")) a.res ++ number_text (shown (name.now ++ text ".GA")) a.ga) sheet.old sheet.new }
{
    sheet.word(name);
    sheet.pair(b".RES", a.res);
    sheet.word(name);
    sheet.pair(b".GA", a.ga);
}

impl Mark {
    // The numbers that a word with the mark stands for, from a slot on: of a barometric setting also the pressure that it stands for.
    fn lines(self, name: &[u8], numbers: &Numbers, slot: usize, sheet: &mut Text)
        requires { slot ≤ 5000 }
        ensures { Typed (keyed (meant (octet_of self) name.now) numbers.now slot) sheet.old sheet.new }
    {
        match self {
            Mark::Position => position::lines(name, position_at(numbers, slot), sheet),
            Mark::Altitude => altitude_lines(name, altitude_at(numbers, slot), sheet),
            Mark::Offset => sheet.pair(name, offset_at(numbers, slot).tos),
            Mark::Pressure => {
                let setting = layout::number_at(numbers, slot);
                sheet.pair(name, setting);
                pressure::lines(name, setting, sheet);
            }
            Mark::Hidden => {}
            Mark::Alone => sheet.pair(name, layout::number_at(numbers, slot)),
        }
    }

    // How many slots they take.
    #[tactic(auto, using(crate::specs::Laws::Marks::slots_one), unfolding(crate::specs::Keys::slots_in))]
    fn slots(self) -> usize
        ensures { result ≡ slots_in (octet_of self) }
    {
        match self {
            Mark::Position | Mark::Altitude => 2,
            _ => 1,
        }
    }
}

#[tactic(auto, using(crate::specs::Laws::Marks::not_mark, crate::specs::Laws::Marks::mark_as), unfolding(crate::specs::Keys::mark_is))]
fn mark_of(o: u8) -> Option<Mark>
    ensures { MatchOption result (mark_is o ≡ false) (λ mark. (mark_is o ≡ true) × Alike (octet_of mark) o) }
{
    match o {
        b'@' => Some(Mark::Position),
        b'>' => Some(Mark::Altitude),
        b'<' => Some(Mark::Offset),
        b'?' => Some(Mark::Pressure),
        b':' => Some(Mark::Hidden),
        b';' | b'=' => Some(Mark::Alone),
        _ => None,
    }
}

// The numbers of the keys of a group, the first of them in a slot: a word of the keys ends where its mark stands.
pub fn group(keys: &[u8], numbers: &Numbers, first: usize, sheet: &mut Text)
    requires { (length keys.now ≤ 1000) × (first ≤ 1000) }
    ensures { Typed (keyed (keys_from [] keys.now) numbers.now first) sheet.old sheet.new }
{
    let mut from = 0;
    let mut slot = first;
    for i in 0..keys.len() {
        if let Some(mark) = mark_of(keys[i]) {
            mark.lines(&keys[from..i], numbers, slot, sheet);
            slot += mark.slots();
            from = i + 1;
        }
    }
}
