// Where the items of a field stand: every check of an item in 01's order, by its octets alone; no number is taken.
// Promises: each function answers where the reading of its codec ends, or the refusal. What is there the octets say: an item and a subfield have a flag, and FX
// of a part is the lowest bit of its last octet. A place is one octet, and so is each of the two of a refusal, so that a step travels in a register. Stands on lines.
// That the octets are few stands in each contract: as an invariant of a struct it was tried, and the proofs of the rows did not close, since nothing is known of
// what a closure returned that captures such a struct.
ghost use Rattle.std.specs.Prelude.{◌≡◌, true, ◌+◌, ◌-◌, ◌%◌, ◌<◌, T, eqb, length, get_or};
ghost use Rattle.codec.specs.Pick.{pick};
ghost use Rattle.codec.specs.Field.{flags};
ghost use Rattle.papers.specs.Papers.{known, items_of};
ghost use Rattle.shapes.specs.Shapes.{parts_ok};
ghost use Rattle.spots.specs.Spots.{spot_of};
ghost use Rattle.reader.specs.Steps.{line_run};
ghost use Rattle.reader.specs.Chains.{chain_at};
ghost use Rattle.reader.specs.Items.{item_run};
ghost use Rattle.reader.specs.Seen.{Ends, Asked, Went, step_number, flag_at, goes_on};
ghost use Rattle.reader.specs.Places.{places_from, RowSeen};

use crate::lines;
use crate::lines::{Step, Stop};
use layout::{Cat021, Cat048, Reason};
use shapes::NO_LINE;

// The octet at a place, 0 past the end.
fn octet_at(s: &[u8], at: usize) -> u8
    ensures { result ≡ get_or s.now at 0 }
{
    if at < s.len() {
        return s[at];
    }
    0
}

// The octet before a place: where a chain part ends there, its last flag is FX.
fn before(s: &[u8], at: u8) -> u8
    ensures { flag_at result 7 ≡ goes_on s.now at }
{
    octet_at(s, leaves::less(usize::from(at), 1))
}

// What is read behind a place, if the flag of index i in an octet says that it is there. It is asked before it is read, so that what is absent costs no call.
#[inline(always)]
fn there<F: FnOnce(u8) -> Step + Drop>(a: u8, o: u8, i: usize, read: F) -> Step
    requires { F.pre read a }
    ensures { Asked (flag_at o i) (F.post read a) a result }
{
    if flags::present(o, i) {
        return read(a);
    }
    Ok(a)
}

// Line B, if a flag says that it is there.
#[inline(always)]
fn line<const B: usize>(s: &[u8], a: u8, o: u8, i: usize) -> Step
    requires { length s.now < 256 }
    ensures { Went (flag_at o i) (line_run B s.now a) a (step_number result) }
{
    if flags::present(o, i) {
        return lines::seen::<B>(s, a);
    }
    Ok(a)
}

// A part behind which no other is defined: FX in it gives 7.
#[inline(always)]
fn only<const B: usize>(s: &[u8], at: u8) -> Step
    requires { (length s.now < 256) × T (parts_ok B 0) }
    ensures { Ends (chain_at B s.now at 0) (step_number result) }
{
    let n = lines::seen::<B>(s, at)?;
    if flags::present(before(s, n), 7) {
        return Err(Stop {
            reason: Reason::Chain,
            at: at,
        });
    }
    Ok(n)
}

// The flags of a second part, none where the first, whose flags are f, does not go on.
fn second(s: &[u8], at: u8, f: u8) -> u8
    ensures { result ≡ pick (eqb (f % 2) 1) (get_or s.now (at + 1) 0) 0 }
{
    if f % 2 == 1 {
        return octet_at(s, usize::from(at) + 1);
    }
    0
}

// The items that have more than one line, each in the order of its lines. They are inlined: called, they cost a tenth of a survey.
#[inline(always)]
fn md5(s: &[u8], at: u8) -> Step
    requires { length s.now < 256 }
    ensures { Ends (item_run 0 s.now at) (step_number result) }
{
    let f = octet_at(s, usize::from(at));
    let part = only::<0>(s, at)?;
    let sum = line::<1>(s, part, f, 0)?;
    let pmn = line::<2>(s, sum, f, 1)?;
    let pos = line::<3>(s, pmn, f, 2)?;
    let ga = line::<4>(s, pos, f, 3)?;
    let em1 = line::<5>(s, ga, f, 4)?;
    let tos = line::<6>(s, em1, f, 5)?;
    line::<7>(s, tos, f, 6)
}

#[inline(always)]
fn m5n(s: &[u8], at: u8) -> Step
    requires { length s.now < 256 }
    ensures { Ends (item_run 1 s.now at) (step_number result) }
{
    let f = octet_at(s, usize::from(at));
    let part = lines::seen::<8>(s, at)?;
    let parts = there(part, before(s, part), 7, |at| only::<9>(s, at))?;
    let sum = line::<10>(s, parts, f, 0)?;
    let pmn = line::<11>(s, sum, f, 1)?;
    let pos = line::<12>(s, pmn, f, 2)?;
    let ga = line::<13>(s, pos, f, 3)?;
    let em1 = line::<14>(s, ga, f, 4)?;
    let tos = line::<15>(s, em1, f, 5)?;
    let xp = line::<16>(s, tos, f, 6)?;
    line::<17>(s, xp, second(s, at, f), 0)
}

#[inline(always)]
fn rpc(s: &[u8], at: u8) -> Step
    requires { length s.now < 256 }
    ensures { Ends (item_run 3 s.now at) (step_number result) }
{
    let f = octet_at(s, usize::from(at));
    let part = only::<19>(s, at)?;
    let sco = line::<20>(s, part, f, 0)?;
    let scr = line::<21>(s, sco, f, 1)?;
    let rw = line::<22>(s, scr, f, 2)?;
    line::<23>(s, rw, f, 3)
}

#[inline(always)]
fn sgv(s: &[u8], at: u8) -> Step
    requires { length s.now < 256 }
    ensures { Ends (item_run 9 s.now at) (step_number result) }
{
    let part = lines::seen::<29>(s, at)?;
    there(part, before(s, part), 7, |at| only::<30>(s, at))
}

#[inline(always)]
fn sta(s: &[u8], at: u8) -> Step
    requires { length s.now < 256 }
    ensures { Ends (item_run 10 s.now at) (step_number result) }
{
    let part = lines::seen::<31>(s, at)?;
    let second = line::<32>(s, part, before(s, part), 7)?;
    let third = line::<33>(s, second, before(s, second), 7)?;
    let fourth = line::<34>(s, third, before(s, third), 7)?;
    let fifth = line::<35>(s, fourth, before(s, fourth), 7)?;
    there(fifth, before(s, fifth), 7, |at| only::<36>(s, at))
}

#[inline(always)]
fn mes(s: &[u8], at: u8) -> Step
    requires { length s.now < 256 }
    ensures { Ends (item_run 12 s.now at) (step_number result) }
{
    let f = octet_at(s, usize::from(at));
    let part = only::<38>(s, at)?;
    let sum = line::<39>(s, part, f, 0)?;
    let pno = line::<40>(s, sum, f, 1)?;
    let em1 = line::<41>(s, pno, f, 2)?;
    let xp = line::<42>(s, em1, f, 3)?;
    let fom = line::<43>(s, xp, f, 4)?;
    line::<44>(s, fom, f, 5)
}

// One item of those that some paper has, from the first octet on.
pub fn item(s: &[u8], k: usize) -> Step
    requires { length s.now < 256 }
    ensures { Ends (item_run k s.now 0) (step_number result) }
{
    match k {
        0 => md5(s, 0),
        1 => m5n(s, 0),
        2 => only::<18>(s, 0),
        3 => rpc(s, 0),
        4 => lines::seen::<24>(s, 0),
        5 => lines::seen::<25>(s, 0),
        6 => lines::seen::<26>(s, 0),
        7 => lines::seen::<27>(s, 0),
        8 => lines::seen::<28>(s, 0),
        9 => sgv(s, 0),
        10 => sta(s, 0),
        11 => lines::seen::<37>(s, 0),
        12 => mes(s, 0),
        13 => lines::seen::<45>(s, 0),
        _ => lines::seen::<NO_LINE>(s, 0),
    }
}

// Where a row of items ends, and where each of them begins, an absent one with the next; behind the last item where it ends.
#[derive(Clone, Copy)]
pub struct Places(pub u8, pub [u8; 9]);

fn row_048(s: &[u8], ind: u8) -> Result<Places, Stop>
    requires { length s.now < 256 }
    ensures { RowSeen (places_from 0 5 (flags ind) s.now) 5 result }
{
    let md5 = there(2, ind, 0, |at| md5(s, at))?;
    let m5n = there(md5, ind, 1, |at| m5n(s, at))?;
    let m4e = there(m5n, ind, 2, |at| only::<18>(s, at))?;
    let rpc = there(m4e, ind, 3, |at| rpc(s, at))?;
    let err = line::<24>(s, rpc, ind, 4)?;
    Ok(Places(err, [2, md5, m5n, m4e, rpc, err, 0, 0, 0]))
}

fn row_021(s: &[u8], ind: u8) -> Result<Places, Stop>
    requires { length s.now < 256 }
    ensures { RowSeen (places_from 5 8 (flags ind) s.now) 8 result }
{
    let bps = line::<25>(s, 2, ind, 0)?;
    let selh = line::<26>(s, bps, ind, 1)?;
    let nav = line::<27>(s, selh, ind, 2)?;
    let gao = line::<28>(s, nav, ind, 3)?;
    let sgv = there(gao, ind, 4, |at| sgv(s, at))?;
    let sta = there(sgv, ind, 5, |at| sta(s, at))?;
    let tnh = line::<37>(s, sta, ind, 6)?;
    let mes = there(tnh, ind, 7, |at| mes(s, at))?;
    Ok(Places(mes, [2, bps, selh, nav, gao, sgv, sta, tnh, mes]))
}

fn row_007(s: &[u8], ind: u8) -> Result<Places, Stop>
    requires { length s.now < 256 }
    ensures { RowSeen (places_from 13 5 (flags ind) s.now) 5 result }
{
    let ta = line::<45>(s, 2, ind, 0)?;
    let m5n = there(ta, ind, 1, |at| m5n(s, at))?;
    let m4e = there(m5n, ind, 2, |at| only::<18>(s, at))?;
    let rpc = there(m4e, ind, 3, |at| rpc(s, at))?;
    let err = line::<24>(s, rpc, ind, 4)?;
    Ok(Places(err, [2, ta, m5n, m4e, rpc, err, 0, 0, 0]))
}

// The row of a category.
pub fn row(s: &[u8], cat: u8, ind: u8) -> Result<Places, Stop>
    requires { (length s.now < 256) × (known cat ≡ true) }
    ensures { RowSeen (places_from (spot_of cat) (items_of cat) (flags ind) s.now) (items_of cat) result }
{
    match cat {
        Cat048::NUMBER => row_048(s, ind),
        Cat021::NUMBER => row_021(s, ind),
        _ => row_007(s, ind),
    }
}
