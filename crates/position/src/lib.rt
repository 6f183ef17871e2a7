// The lines of a position (01, 'The sheet'; 02, Ask 7): a latitude and a longitude, behind each its angle and what that leaves over.
// Promises: the lines are those that 01 and 02 define, for any two numbers. Stands on angle, on text, and on scope's definition of the sheet.
#![tactic(auto)]

ghost use Rattle.std.specs.Prelude.{◌++◌};
ghost use Rattle.papers.specs.Names.{angle, text};
ghost use Rattle.scope.specs.Sheet.{key_line, signed_decimal, number_text};
ghost use Rattle.text.specs.Typed.{Typed};

use angle::Angle;
use text::Text;

// Latitude and longitude, numbers of 24 bits.
#[derive(Clone, Copy)]
pub struct Position {
    pub lat: i32,
    pub lon: i32,
}

// A number, its millionths and its leftover, under a name and a further one.
fn coordinate(name: &[u8], more: &[u8], n: i32, exact: Angle, sheet: &mut Text)
    ensures { Typed (key_line (name.now ++ more.now) (signed_decimal n) ++ (key_line ((name.now ++ more.now) ++ text ".udeg") (signed_decimal exact.udeg) ++ key_line ((name.now ++ more.now) ++ text ".left") (signed_decimal exact.left))) sheet.old sheet.new }
{
    sheet.word(name);
    sheet.pair(more, n);
    sheet.word(name);
    sheet.word(more);
    sheet.pair(b".udeg", exact.udeg);
    sheet.word(name);
    sheet.word(more);
    sheet.pair(b".left", exact.left);
}

// The three lines of the latitude, then those of the longitude, under the item's and the subfield's name.
pub fn lines(name: &[u8], p: Position, sheet: &mut Text)
    ensures { Typed (number_text (angle (name.now ++ text ".LAT")) p.lat ++ number_text (angle (name.now ++ text ".LON")) p.lon) sheet.old sheet.new }
{
    let lat = angle::exact(p.lat);
    let lon = angle::exact(p.lon);
    coordinate(name, b".LAT", p.lat, lat, sheet);
    coordinate(name, b".LON", p.lon, lon, sheet);
}
