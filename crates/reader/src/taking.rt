// The numbers of an item: its chain parts and then its subfields, each by its line of the table.
// Promises: each function takes the numbers of an item that was surveyed, from where it begins, if it is there, and gives the count of its parts; it tests no number and can't refuse.
// What is there the octets say: FX of a part is the lowest bit of its last octet, and the flags of the subfields are the bits of the parts. Stands on numbers.
ghost use Rattle.std.specs.Prelude.{◌≡◌, ◌+◌, ◌≤◌, ◌<◌, T, eqb, ltb, length, get_or};
ghost use Rattle.codec.specs.Pick.{pick};
ghost use Rattle.codec.specs.Field.{flags};
ghost use Rattle.lengths.specs.Lines.{line_at, first_at, count_at};
ghost use Rattle.papers.specs.Papers.{SLOTS};
ghost use Rattle.reader.specs.Taking.{is_got, is_there, place, line_opt, opt_run, OptTaken, Stops, ItemTaken};
ghost use Rattle.reader.specs.Seen.{goes_on};

use crate::numbers;
use layout::Numbers;

// Subfield b, if the flag of index i among those of an octet says that it is there. The next place.
fn subfield(
    s: &[u8],
    a: usize,
    o: u8,
    i: usize,
    b: usize,
    base: usize,
    numbers: &mut Numbers,
) -> usize
    requires { (base + (first_at b + count_at b) ≤ SLOTS) × (a + pick (eqb (get_or (flags o) i 0) 1) (line_at b).octets 0 ≤ length s.now) }
    ensures { OptTaken numbers.old (base + first_at b) b (eqb (get_or (flags o) i 0) 1) s.now a result numbers.new }
{
    if flags::present(o, i) {
        return numbers::take(s, a, b, base, numbers);
    }
    a
}

// A further part of a chain, if the part that ends at a place goes on.
fn further(s: &[u8], a: usize, b: usize, base: usize, numbers: &mut Numbers) -> usize
    requires { (base + (first_at b + count_at b) ≤ SLOTS) × ((line_at b).octets ≡ 1) × Stops s.now a }
    ensures taken { OptTaken numbers.old (base + first_at b) b (goes_on s.now a) s.now a result numbers.new }
    ensures stops { Stops s.now result }
{
    if s[a - 1] % 2 == 1 {
        return numbers::take(s, a, b, base, numbers);
    }
    a
}

// The flags of a second part, which stands from a place to another; none where they are one.
fn second_flags(s: &[u8], from: usize, to: usize) -> u8
    requires { to ≤ length s.now }
    ensures { result ≡ pick (ltb from to) (get_or s.now from 0) 0 }
{
    if from < to {
        return s[from];
    }
    0
}

// An item that is one line.
pub fn line(s: &[u8], start: Option<usize>, b: usize, base: usize, numbers: &mut Numbers) -> u8
    requires { ((line_at b).fx ≡ 0) × (first_at b ≡ 0) × (base + count_at b ≤ SLOTS) × T (is_got (line_opt b (is_there start) s.now (place start))) }
    ensures { ItemTaken numbers.old base (line_opt b (is_there start) s.now (place start)) result numbers.new }
{
    let Some(at) = start else {
        return 0;
    };
    numbers::take(s, at, b, base, numbers);
    0
}

pub fn md5(s: &[u8], start: Option<usize>, base: usize, numbers: &mut Numbers) -> u8
    requires { (base + 33 ≤ SLOTS) × T (is_got (opt_run 0 (is_there start) s.now (place start))) }
    ensures { ItemTaken numbers.old base (opt_run 0 (is_there start) s.now (place start)) result numbers.new }
{
    let Some(at) = start else {
        return 0;
    };
    let part = numbers::take(s, at, 0, base, numbers);
    let o = s[at];
    let sum = subfield(s, part, o, 0, 1, base, numbers);
    let pmn = subfield(s, sum, o, 1, 2, base, numbers);
    let pos = subfield(s, pmn, o, 2, 3, base, numbers);
    let ga = subfield(s, pos, o, 3, 4, base, numbers);
    let em1 = subfield(s, ga, o, 4, 5, base, numbers);
    let tos = subfield(s, em1, o, 5, 6, base, numbers);
    subfield(s, tos, o, 6, 7, base, numbers);
    1
}

pub fn m5n(s: &[u8], start: Option<usize>, base: usize, numbers: &mut Numbers) -> u8
    requires { (base + 34 ≤ SLOTS) × T (is_got (opt_run 1 (is_there start) s.now (place start))) }
    ensures { ItemTaken numbers.old base (opt_run 1 (is_there start) s.now (place start)) result numbers.new }
{
    let Some(at) = start else {
        return 0;
    };
    let part = numbers::take(s, at, 8, base, numbers);
    let second = further(s, part, 9, base, numbers);
    let o = s[at];
    let sum = subfield(s, second, o, 0, 10, base, numbers);
    let pmn = subfield(s, sum, o, 1, 11, base, numbers);
    let pos = subfield(s, pmn, o, 2, 12, base, numbers);
    let ga = subfield(s, pos, o, 3, 13, base, numbers);
    let em1 = subfield(s, ga, o, 4, 14, base, numbers);
    let tos = subfield(s, em1, o, 5, 15, base, numbers);
    let xp = subfield(s, tos, o, 6, 16, base, numbers);
    let q = second_flags(s, part, second);
    subfield(s, xp, q, 0, 17, base, numbers);
    leaves::octet(leaves::less(second, at))
}

pub fn m4e(s: &[u8], start: Option<usize>, base: usize, numbers: &mut Numbers) -> u8
    requires { (base + 1 ≤ SLOTS) × T (is_got (opt_run 2 (is_there start) s.now (place start))) }
    ensures { ItemTaken numbers.old base (opt_run 2 (is_there start) s.now (place start)) result numbers.new }
{
    let Some(at) = start else {
        return 0;
    };
    numbers::take(s, at, 18, base, numbers);
    1
}

pub fn rpc(s: &[u8], start: Option<usize>, base: usize, numbers: &mut Numbers) -> u8
    requires { (base + 8 ≤ SLOTS) × T (is_got (opt_run 3 (is_there start) s.now (place start))) }
    ensures { ItemTaken numbers.old base (opt_run 3 (is_there start) s.now (place start)) result numbers.new }
{
    let Some(at) = start else {
        return 0;
    };
    let part = numbers::take(s, at, 19, base, numbers);
    let o = s[at];
    let sco = subfield(s, part, o, 0, 20, base, numbers);
    let scr = subfield(s, sco, o, 1, 21, base, numbers);
    let rw = subfield(s, scr, o, 2, 22, base, numbers);
    subfield(s, rw, o, 3, 23, base, numbers);
    1
}

pub fn sgv(s: &[u8], start: Option<usize>, base: usize, numbers: &mut Numbers) -> u8
    requires { (base + 6 ≤ SLOTS) × T (is_got (opt_run 9 (is_there start) s.now (place start))) }
    ensures { ItemTaken numbers.old base (opt_run 9 (is_there start) s.now (place start)) result numbers.new }
{
    let Some(at) = start else {
        return 0;
    };
    let part = numbers::take(s, at, 29, base, numbers);
    let second = further(s, part, 30, base, numbers);
    leaves::octet(leaves::less(second, at + 1))
}

pub fn sta(s: &[u8], start: Option<usize>, base: usize, numbers: &mut Numbers) -> u8
    requires { (base + 26 ≤ SLOTS) × T (is_got (opt_run 10 (is_there start) s.now (place start))) }
    ensures { ItemTaken numbers.old base (opt_run 10 (is_there start) s.now (place start)) result numbers.new }
{
    let Some(at) = start else {
        return 0;
    };
    let part = numbers::take(s, at, 31, base, numbers);
    let second = further(s, part, 32, base, numbers);
    let third = further(s, second, 33, base, numbers);
    let fourth = further(s, third, 34, base, numbers);
    let fifth = further(s, fourth, 35, base, numbers);
    let sixth = further(s, fifth, 36, base, numbers);
    leaves::octet(leaves::less(sixth, at))
}

pub fn mes(s: &[u8], start: Option<usize>, base: usize, numbers: &mut Numbers) -> u8
    requires { (base + 29 ≤ SLOTS) × T (is_got (opt_run 12 (is_there start) s.now (place start))) }
    ensures { ItemTaken numbers.old base (opt_run 12 (is_there start) s.now (place start)) result numbers.new }
{
    let Some(at) = start else {
        return 0;
    };
    let part = numbers::take(s, at, 38, base, numbers);
    let o = s[at];
    let sum = subfield(s, part, o, 0, 39, base, numbers);
    let pno = subfield(s, sum, o, 1, 40, base, numbers);
    let em1 = subfield(s, pno, o, 2, 41, base, numbers);
    let xp = subfield(s, em1, o, 3, 42, base, numbers);
    let fom = subfield(s, xp, o, 4, 43, base, numbers);
    subfield(s, fom, o, 5, 44, base, numbers);
    1
}
