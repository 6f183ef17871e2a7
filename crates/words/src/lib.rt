// The words of a line and the numbers that they write: one space stands between two words, numbers are plain decimals.
// Promises: for every line the word that starts at a place; for every word the number that it writes, and whether it writes one; the number taken is the number written.
// Stands on text, which says what a decimal means.
#![tactic(auto)]

ghost use Rattle.std.specs.Prelude.{◌≡◌, drop};
ghost use Rattle.words.specs.Lines.{word_length, word_of};
ghost use Rattle.words.specs.Numbers.{leads, number_in, at_most, below, signed_in, within_32, value_in, whole_in};

// ---- words

// Where the word in front ends: before the first space, or with the line.
fn end(rest: &[u8]) -> usize
    ensures { result ≡ word_length rest.now }
{
    rest.iter().position(|o| *o == b' ').unwrap_or(rest.len())
}

// The word that starts at a place; none past the end.
pub fn word_at<'a>(line: &'a [u8], at: usize) -> &'a [u8]
    ensures { result.now ≡ word_of (drop at line.now) }
{
    if line.len() < at {
        return &[];
    }
    let rest = &line[at..];
    &rest[..end(rest)]
}

// ---- numbers

// The first octet is one that a plain decimal can begin with: a 0 stands alone.
#[tactic(auto, using(crate::specs::Laws::Numbers::leads_none, crate::specs::Laws::Numbers::leads_one, crate::specs::Laws::Numbers::leads_several))]
fn leads_well(word: &[u8]) -> bool
    ensures { result ≡ leads word.now }
{
    match word {
        [] => false,
        [_] => true,
        [first, ..] => *first != b'0',
    }
}

// The number that a word writes as a plain decimal, at most a limit.
pub fn number(word: &[u8], limit: u32) -> Option<u32>
    ensures { result ≡ at_most limit (number_in limit word.now) }
{
    if !leads_well(word) {
        return None;
    }
    let mut v: u64 = 0;
    for o in word {
        if !o.is_ascii_digit() {
            return None;
        }
        v = v * 10 + u64::from(*o - b'0');
        if u64::from(limit) < v {
            return None;
        }
    }
    Some(v as u32)
}

// The number below 0 of a magnitude from 1 to 2,147,483,648.
fn below(magnitude: u32) -> Option<i32>
    ensures { result ≡ within_32 (below magnitude) }
{
    if magnitude == 0 {
        return None;
    }
    i32::try_from(-i64::from(magnitude)).ok()
}

// The signed number of 32 bits that a word writes, a `-` in front of one below 0. `-0` is none.
pub fn signed(word: &[u8]) -> Option<i32>
    ensures { result ≡ within_32 (signed_in word.now) }
{
    match word.strip_prefix(b"-") {
        Some(digits) => below(number(digits, 2147483648)?),
        None => Some(number(word, 2147483647)? as i32),
    }
}

// ---- the value of a word of a kind, 0 where it is not of it
// What may not change: `one_words_small`, `one_words_room` and `one_words_whole` (promises) speak of each of the three.

pub fn small(word: &[u8]) -> u8
    ensures { result ≡ value_in 255 word.now }
{
    number(word, 255).map_or(0, |n| n as u8)
}

pub fn room(word: &[u8]) -> usize
    ensures { result ≡ value_in 300 word.now }
{
    number(word, 300).map_or(0, |n| n as usize)
}

pub fn whole(word: &[u8]) -> i32
    ensures { result ≡ whole_in word.now }
{
    signed(word).unwrap_or(0)
}
