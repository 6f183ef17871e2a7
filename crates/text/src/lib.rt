// Types the words of the sheet and of answers one behind the other into a text: each method puts its word behind what stands there.
// Promises: every octet of the text and its end, numbers in decimal as 01 has them, octets in hex digits; what has no room is left out, so that no caller has to count.
// Stands on scope's definition of the sheet.
#![tactic(auto)]

ghost use Rattle.std.specs.Prelude.{◌≡◌, ℕ, List, [], ◌∷◌, ◌+◌, ◌%◌, ◌<◌, take};
ghost use Rattle.scope.specs.Sheet.{digits_of, decimal, signed_decimal, key_line};
ghost use Rattle.text.specs.Hex.{capital, pair_text, hex_text};

// The last digit of a number; 48 is the digit 0.
fn digit(n: u64) -> u8
    ensures { result ≡ 48 + n % 10 }
{
    48 + (n % 10) as u8
}

// A hex digit, in capitals.
#[tactic(auto, using(crate::specs::Laws::Hex::capital_number, crate::specs::Laws::Hex::capital_letter))]
fn hex_digit(d: u8) -> u8
    requires { d < 16 }
    ensures { result ≡ capital d }
{
    if d < 10 {
        return b'0' + d;
    }
    55 + d
}

// Room for a text, and where the text ends in it. Any end will do, so that no method requires one: from the end of the room on nothing is put.
#[derive(Drop)]
pub struct Text {
    pub octets: [u8; 4096],
    pub end: usize,
}

impl Text {
    ghost use Rattle.text.specs.Typed.{blank, Typed};

    // A text without an octet.
    #[tactic(auto, unfolding(crate::specs::Typed::blank))]
    pub fn new() -> Text
        ensures { result ≡ blank }
    {
        Text {
            octets: [0; 4096],
            end: 0,
        }
    }

    // What stands there.
    pub fn as_slice(&self) -> &[u8]
        ensures { result.now ≡ take self.now.end self.now.octets }
    {
        &self.octets[..self.end.min(4096)]
    }

    // One octet. Where there is no room, nothing is put and the end stays.
    pub fn octet(&mut self, o: u8)
        ensures { Typed (o ∷ []) self.old self.new }
    {
        if self.end < 4096 {
            self.octets[self.end] = o;
            self.end += 1;
        }
    }

    // Octets as they stand, such as a key.
    pub fn word(&mut self, s: &[u8])
        ensures { Typed s.now self.old self.new }
    {
        for &o in s {
            self.octet(o);
        }
    }

    // At most so many digits of a number: the digits of its tenth come before the last one, so that it calls itself; a loop would have to keep them.
    fn digits(&mut self, n: u64, most: usize)
        ensures { Typed (digits_of most n) self.old self.new }
    {
        if most == 0 {
            return;
        }
        if n >= 10 {
            self.digits(n / 10, most - 1);
        }
        self.octet(digit(n));
    }

    // A number in decimal.
    pub fn decimal(&mut self, n: u64)
        ensures { Typed (decimal n) self.old self.new }
    {
        self.digits(n, 20);
    }

    // A number in decimal, behind a sign if it is below 0.
    pub fn signed(&mut self, z: i64)
        ensures { Typed (signed_decimal z) self.old self.new }
    {
        if z < 0 {
            self.octet(b'-');
        }
        self.decimal(z.unsigned_abs());
    }

    // An octet as two hex digits.
    fn hex_pair(&mut self, o: u8)
        ensures { Typed (pair_text o) self.old self.new }
    {
        self.octet(hex_digit(o / 16));
        self.octet(hex_digit(o % 16));
    }

    // Octets as pairs of hex digits; a `-` where there are none, so that a word always stands there.
    pub fn octets(&mut self, s: &[u8])
        ensures { Typed (hex_text s.now) self.old self.new }
    {
        if s.is_empty() {
            return self.octet(b'-');
        }
        for &o in s {
            self.hex_pair(o);
        }
    }

    // The line feed that ends a line.
    pub fn line_end(&mut self)
        ensures { Typed (10 ∷ []) self.old self.new }
    {
        self.octet(10);
    }

    // A line with a key and a value.
    pub fn pair<W: Word>(&mut self, key: &[u8], value: W)
        ensures { Typed (key_line key.now (W.text_of value)) self.old self.new }
    {
        self.word(key);
        self.octet(b'=');
        value.type_into(self);
        self.line_end();
    }
}

// What can stand behind a key or a space, by the text of it.
pub trait Word {
    ghost use Rattle.text.specs.Typed.{Typed};

    ghost text_of: { Self → List ℕ };

    // Types it behind what stands there.
    fn type_into(self, text: &mut Text)
        ensures { Typed (text_of self) text.old text.new };
}

// Numbers stand in decimal.
impl Word for u8 {
    ghost text_of = { decimal };

    fn type_into(self, text: &mut Text) {
        text.decimal(u64::from(self));
    }
}

impl Word for usize {
    ghost text_of = { decimal };

    fn type_into(self, text: &mut Text) {
        text.decimal(self as u64);
    }
}

impl Word for u64 {
    ghost text_of = { decimal };

    fn type_into(self, text: &mut Text) {
        text.decimal(self);
    }
}

// Those that may be below 0 have a sign then.
impl Word for i32 {
    ghost text_of = { signed_decimal };

    fn type_into(self, text: &mut Text) {
        text.signed(i64::from(self));
    }
}

impl Word for i64 {
    ghost text_of = { signed_decimal };

    fn type_into(self, text: &mut Text) {
        text.signed(self);
    }
}

// Octets stand as they are.
impl Word for &[u8] {
    ghost text_of = { λ s. s.now };

    fn type_into(self, text: &mut Text) {
        text.word(self);
    }
}

// Octets that stand as hex digits.
#[derive(Clone, Copy)]
pub struct Hex<'a>(pub &'a [u8]);

impl Word for Hex<'_> {
    ghost text_of = { λ h. hex_text h.0.now };

    fn type_into(self, text: &mut Text) {
        text.octets(self.0);
    }
}
