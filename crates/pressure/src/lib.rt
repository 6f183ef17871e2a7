// The pressure that a barometric number stands for (01, 'The sheet'; 02, Ask 1), as lines behind the number's own.
// Promises: the lines are those that 01 and 02 define, for every number. Stands on scope's definition of them and on text.
#![tactic(auto)]

ghost use Rattle.std.specs.Prelude.{◌≡◌};
ghost use Rattle.scope.specs.Pressure.{sense_of};
ghost use Rattle.scope.specs.Sheet.{pressure_text};
ghost use Rattle.text.specs.Typed.{Typed};

use text::Text;

// The word that says which settings the number stands for: at an end all beyond it too (document 003, 2.3).
fn sense(n: i64) -> &'static [u8]
    ensures { result.now ≡ sense_of n }
{
    match n {
        0 => b"atmost",
        4_095 => b"atleast",
        _ => b"equal",
    }
}

// Tenths of hPa, 8,000 and the number, and which settings these are, under the number's name.
pub fn lines(name: &[u8], n: i32, sheet: &mut Text)
    ensures { Typed (pressure_text name.now n) sheet.old sheet.new }
{
    let number = i64::from(n);
    let tenths = 8_000 + number;
    sheet.word(name);
    sheet.pair(b".tenths", tenths);
    sheet.word(name);
    sheet.pair(b".sense", sense(number));
}
