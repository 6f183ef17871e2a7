// The lines of a text: the first line and what follows, its words, and its value as a number.
// Promises: each is one equation, for every text: of guess's definitions where they have it. Stands on words for the numbers.
#![tactic(auto)]

ghost use Rattle.std.specs.Prelude.{◌≡◌, [], get_or, drop};
ghost use Rattle.guess.specs.Lines.{before_octet, behind_octet, until_feed, behind_feed, behind_feeds};
ghost use Rattle.guess.specs.Guess.{value_in, bounded_in};
ghost use Rattle.walk.specs.Lines.{place_in, words_in};
ghost use Rattle.walk.specs.Ranges.{ranged_in};

// The place of the first octet x, or the length.
fn find(s: &[u8], x: u8) -> usize
    ensures { result ≡ place_in x s.now }
{
    s.iter().position(|o| *o == x).unwrap_or(s.len())
}

// What stands behind so many octets.
pub fn past<'a>(s: &'a [u8], n: usize) -> &'a [u8]
    ensures { result.now ≡ drop n s.now }
{
    s.get(n..).unwrap_or(&[])
}

// What stands before the first octet x, and behind it.
fn before<'a>(s: &'a [u8], x: u8) -> &'a [u8]
    ensures { result.now ≡ before_octet x s.now }
{
    &s[..find(s, x)]
}

fn behind<'a>(s: &'a [u8], x: u8) -> &'a [u8]
    ensures { result.now ≡ behind_octet x s.now }
{
    past(past(s, find(s, x)), 1)
}

// The first line of a text, without its line feed, and what follows it. What may not change: `one_walk_line` and `one_walk_next` (promises) speak of each.
pub fn line<'a>(t: &'a [u8]) -> &'a [u8]
    ensures { result.now ≡ until_feed t.now }
{
    before(t, b'\n')
}

pub fn next<'a>(t: &'a [u8]) -> &'a [u8]
    ensures { result.now ≡ behind_feed t.now }
{
    behind(t, b'\n')
}

// What follows so many lines.
pub fn skip<'a>(t: &'a [u8], n: usize) -> &'a [u8]
    ensures { result.now ≡ behind_feeds n t.now }
{
    let mut rest = t;
    for _ in 0..n {
        rest = next(rest);
    }
    rest
}

// Word k of a text of words, from 0, none past the last. One space stands between two words.
pub fn word<'a>(t: &'a [u8], k: usize) -> &'a [u8]
    ensures { result.now ≡ get_or (words_in t.now) k [] }
{
    let mut rest = t;
    for _ in 0..k {
        rest = behind(rest, b' ');
    }
    before(rest, b' ')
}

// The value of the first line.
pub fn value<'a>(t: &'a [u8]) -> &'a [u8]
    ensures { result.now ≡ value_in t.now }
{
    behind(line(t), b'=')
}

// The plain decimal that the first line's value is, if it is one from lo to hi, else lo. The same of 32 bits, with a sign or without, else 0.
// What may not change: `one_walk_bounded` and `one_walk_ranged` (promises) speak of these answers.
pub fn bounded(t: &[u8], lo: u32, hi: u32) -> u64
    ensures { result ≡ bounded_in lo hi t.now }
{
    u64::from(
        words::number(value(t), hi)
            .filter(|n| lo <= *n)
            .unwrap_or(lo),
    )
}

pub fn ranged(t: &[u8], lo: i32, hi: i32) -> i32
    ensures { result ≡ ranged_in lo hi t.now }
{
    words::signed(value(t))
        .filter(|n| lo <= *n && *n <= hi)
        .unwrap_or(0)
}
