// What a text would hold if it were a sheet (02, Ask 6), taken in one walk over the tables and the text's lines that refuses nothing: where a line says nothing
// that could stand there, something that can be printed is taken.
// Promises: `record` gives the record of the guess, for every text. Stands on walk and compare for lines and words, on flags, and on lengths, shapes and spots.
#![tactic(auto)]

ghost use Rattle.std.specs.Prelude.{◌≡◌, ◌++◌, ◌+◌, ◌-◌, ◌^◌, ◌≤◌, ◌<◌, T, pos, set, drop};
ghost use Rattle.std.proofs.lemmas.List.Edits.{sets};
ghost use Rattle.codec.specs.Line.{count};
ghost use Rattle.codec.specs.Item.{slots_of, slots};
ghost use Rattle.codec.specs.Field.{flags};
ghost use Rattle.codec.specs.Radix.{join, ones};
ghost use Rattle.papers.specs.Papers.{SLOTS};
ghost use Rattle.layout.specs.Record.{all_parts, all_numbers};
ghost use Rattle.lengths.specs.Lines.{first_at, count_at, kind_of, pieces_from};
ghost use Rattle.shapes.specs.Shapes.{item_at, lines_from, in_turn};
ghost use Rattle.spots.specs.Spots.{spot_at, row_ok, items_from};
ghost use Rattle.sheet.specs.Items.{named_at};
ghost use Rattle.sheet.specs.Rows.{named_on, names_from};
ghost use Rattle.walk.specs.Ranges.{ends_right};
ghost use Rattle.guess.specs.Guess.{piece_in, item_in, item_left, row_in, names_in, category_in};
ghost use Rattle.taken.specs.Tables.{step_at};
ghost use Rattle.taken.specs.Lines.{taken_by, behind_by, ends_of, taken_at, behind_at, there_at, taken_from, left_from, flags_from};
ghost use Rattle.taken.specs.Items.{parts_in, behind_parts, comma_in, Behind, record_in};

use layout::{Numbers, Record, SLOTS};

// ---- the numbers of a line

// How many lines of a text each number of line b has, those derived from it with it.
fn step_of(b: usize) -> usize
    ensures { result ≡ step_at b }
{
    match b {
        3 => 3, // MD5.POS
        12 => 3, // M5N.POS
        25 => 3, // BPS
        _ => 1,
    }
}

// The highest number of w bits, of 24 at most.
fn top(w: u64) -> i32
    requires { w ≤ 24 }
    ensures { result ≡ pos (2 ^ w - 1) }
{
    (16777215u64 >> (24 - w)) as i32
}

// The number of one piece, from the first line of a text; 0 where the line says none that it can have.
fn piece(t: &[u8], kind: u64, w: u64) -> i32
    requires { (w ≤ 24) × T (ends_right (kind_of kind) w) }
    ensures { result ≡ piece_in (kind_of kind) w t.now }
{
    if kind < 2 {
        return walk::ranged(t, 0, top(w));
    }
    if kind == 2 {
        let high = top(w - 1); // with a sign
        return walk::ranged(t, !high, high);
    }
    if kind == 3 {
        return walk::ranged(t, -4194304, 4194304); // a latitude: 90 degrees
    }
    walk::ranged(t, -40, 8191) // GA: -1,000 ft
}

// The numbers of the left pieces of a code, each with so many lines, into the slots from one on; what follows their lines.
fn numbers<'a>(
    t: &'a [u8],
    code: u64,
    left: usize,
    step: usize,
    slot: usize,
    out: &mut Numbers,
) -> &'a [u8]
    requires { (slot + count (pieces_from left code) ≤ SLOTS) × T (ends_of (pieces_from left code)) }
    ensures behind { result.now ≡ behind_by step (pieces_from left code) t.now }
    ensures kept { out.new ≡ sets out.old slot (taken_by step (pieces_from left code) t.now) }
{
    let mut rest = t;
    let mut code = code;
    let mut slot = slot;
    for _ in 0..left {
        let kind = code % 256 / 32;
        if kind != 0 {
            out[slot] = piece(rest, kind, code % 256 % 32);
            rest = walk::skip(rest, step);
            slot += 1;
        }
        code /= 256;
    }
    rest
}

// Line b, a chain part or a subfield, into its slots, those of its item beginning at base; what follows its lines.
fn line<'a>(t: &'a [u8], b: usize, base: usize, out: &mut Numbers) -> &'a [u8]
    requires { base + (first_at b + count_at b) ≤ SLOTS }
    ensures behind { result.now ≡ behind_at b t.now }
    ensures kept { out.new ≡ sets out.old (base + first_at b) (taken_at b t.now) }
{
    let format = lengths::format_of(b);
    numbers(
        t,
        format.pieces,
        format.runs,
        step_of(b),
        base + format.first,
        &mut *out,
    )
}

// ---- the lines of an item

// Whether line b is there, n of the parts, or of the flags of subfields, being left. A subfield is, if the text begins with its first key; a part or an item
// without a chain has no word here.
fn is_there(t: &[u8], b: usize, n: usize) -> bool
    ensures { result ≡ there_at b n t.now }
{
    if n == 0 {
        return false;
    }
    let heads =
        b" MD5.SUM.M5= MD5.PMN.PIN= MD5.POS.LAT= MD5.GA.RES= MD5.EM1.V= MD5.TOS= MD5.XP.XP=   M5N.SUM.M5= M5N.PMN.PIN= M5N.POS.LAT= M5N.GA.RES= M5N.EM1.V= M5N.TOS= M5N.XP.XP= M5N.FOM=   RPC.SCO= RPC.SCR= RPC.RW= RPC.AR=                MES.SUM.M5= MES.PNO.PIN= MES.EM1.V= MES.XP.XP= MES.FOM= MES.M2.V= ";
    compare::opens(walk::word(heads, b), t)
}

// The left lines from line b on: from no text those that are not there, which gives zeros.
fn lines<'a>(
    t: &'a [u8],
    b: usize,
    left: usize,
    n: usize,
    base: usize,
    out: &mut Numbers,
) -> &'a [u8]
    requires { (b + left ≤ 300) × T (in_turn b left) × ((left ≡ 0 → ⊥) → base + (first_at b + slots_of (lines_from b left)) ≤ SLOTS) }
    ensures behind { result.now ≡ left_from b left n t.now }
    ensures kept { out.new ≡ sets out.old (base + first_at b) (taken_from b left n t.now) }
{
    let mut rest = t;
    for i in 0..left {
        if is_there(rest, b + i, leaves::less(n, i)) {
            rest = line(rest, b + i, base, &mut *out);
        } else {
            line(&[], b + i, base, &mut *out);
        }
    }
    rest
}

// What follows line b, whose numbers are not kept.
fn passed<'a>(t: &'a [u8], b: usize) -> &'a [u8]
    ensures { result.now ≡ behind_at b t.now }
{
    let mut spent = [0i32; SLOTS];
    line(t, b, 0, &mut spent)
}

// The flags of the left subfields from line b on, into the slots from one on.
fn flags(t: &[u8], b: usize, left: usize, n: usize, slot: usize, out: &mut Numbers)
    requires { (b + left ≤ 300) × (slot + left ≤ SLOTS) }
    ensures { out.new ≡ sets out.old slot (flags_from b left n t.now) }
{
    let mut rest = t;
    for i in 0..left {
        if is_there(rest, b + i, leaves::less(n, i)) {
            out[slot + i] = 1;
            rest = passed(rest, b + i);
        } else {
            out[slot + i] = 0;
        }
    }
}

// ---- an item

// The parts of a chain of at most so many: from their line, where there is one; and what follows that line.
fn parts(t: &[u8], most: usize) -> usize
    requires { most ≤ 255 }
    ensures { result ≡ parts_in most t.now }
{
    if most < 2 {
        return most;
    }
    walk::bounded(t, 1, most as u32) as usize
}

fn behind_parts<'a>(t: &'a [u8], most: usize) -> &'a [u8]
    ensures { result.now ≡ behind_parts most t.now }
{
    if most < 2 {
        return t;
    }
    walk::next(t)
}

// How many numbers an item has before line b.
fn first_of(b: usize) -> usize
    ensures { result ≡ first_at b }
{
    lengths::format_of(b).first
}

// The parts of item k of those that some paper has; 0 without a chain.
fn count(t: &[u8], k: usize) -> u8
    ensures { result ≡ (item_in (item_at k) (named_at k) t.now).0 }
{
    let shape = shapes::shape_at(k);
    leaves::octet(parts(t, shape.1))
}

// The numbers of item k into the slots from base on; what follows its lines.
fn item<'a>(t: &'a [u8], k: usize, base: usize, out: &mut Numbers) -> &'a [u8]
    requires { base + slots (item_at k) ≤ SLOTS }
    ensures behind { result.now ≡ item_left (item_at k) (named_at k) t.now }
    ensures kept { out.new ≡ sets out.old base (item_in (item_at k) (named_at k) t.now).1 }
{
    let shape = shapes::shape_at(k);
    let b = shape.0;
    let most = shape.1;
    if most == 0 {
        return lines(t, b, 1, 1, base, &mut *out);
    }
    let there = parts(t, most);
    let rest = behind_parts(t, most);
    if shape.2 == 0 {
        return lines(rest, b, most, there, base, &mut *out);
    }
    let n = first_of(b + there);
    flags(rest, b + most, shape.2, n, base, &mut *out);
    lines(rest, b + most, shape.2, n, base, &mut *out)
}

// ---- the items of a category

// The left items from spot k on, the first of them having index i: from no text those that are not there.
fn row(t: &[u8], items: u8, k: usize, i: usize, left: usize, parts: &mut [u8; 8], out: &mut Numbers)
    requires { (k + left ≤ 200) × (i + left ≤ 8) × T (row_ok k left) }
    ensures counts { parts.new ≡ sets parts.old i (all_parts (row_in (drop i (flags items)) (items_from k left) (names_from k left) t.now)) }
    ensures kept { out.new ≡ sets out.old (spot_at k).1 (all_numbers (row_in (drop i (flags items)) (items_from k left) (names_from k left) t.now)) }
{
    let mut rest = t;
    for j in 0..left {
        let spot = spots::spot_at(k + j);
        let at = leaves::wide(spot.0);
        let base = leaves::wide(spot.1);
        if flags::present(items, i + j) {
            parts[i + j] = count(rest, at);
            rest = item(rest, at, base, &mut *out);
        } else {
            parts[i + j] = 0;
            item(&[], at, base, &mut *out);
        }
    }
}

// What follows the name of the item at spot k, where a text begins with it. A name but the first has a comma, of so many octets, before it.
fn behind_name<'a>(t: &'a [u8], comma: usize, k: usize) -> Option<&'a [u8]>
    ensures { Behind (comma_in comma ++ (named_on k).name) t.now result }
{
    let all = b"MD5 M5N M4E RPC ERR BPS SelH NAV GAO SGV STA TNH MES TA";
    let spot = spots::spot_at(k);
    t.strip_prefix(leaves::front(b",", comma))?
        .strip_prefix(walk::word(all, leaves::wide(spot.0)))
}

// The indicator with the left items from spot k on whose names stand in a word one behind the other, the first of them having index i.
fn names(w: &[u8], comma: usize, k: usize, i: usize, left: usize, items: u8) -> u8
    requires { (k + left ≤ 200) × (i + left ≤ 8) }
    ensures { result ≡ join ones (sets (flags items) i (names_in (comma_in comma) (names_from k left) w.now)) }
{
    let mut rest = w;
    let mut comma = comma;
    let mut items = items;
    for j in 0..left {
        if let Some(behind) = behind_name(rest, comma, k + j) {
            rest = behind;
            comma = 1;
            items = flags::with_item(items, i + j);
        } else {
            items = flags::without_item(items, i + j);
        }
    }
    items
}

// The category of the first line; 48 where it has none.
fn category(t: &[u8]) -> u8
    ensures { result ≡ category_in t.now }
{
    let first = walk::line(t);
    if compare::opens(b"cat=21", first) {
        return 21;
    }
    if compare::opens(b"cat=7", first) {
        return 7;
    }
    48
}

// The record that a text tells.
pub fn record(text: &[u8]) -> Record
    ensures { result ≡ record_in text.now }
{
    let cat = category(text);
    let first = spots::spot_of(cat);
    let n = layout::items_of(cat);
    let t = walk::skip(text, 2);
    let items = names(walk::value(t), 0, first, 0, n, 0);
    let mut parts = [0u8; 8];
    let mut numbers = [0i32; SLOTS];
    row(walk::next(t), items, first, 0, n, &mut parts, &mut numbers);
    Record {
        cat: cat,
        items: items,
        parts: parts,
        numbers: numbers,
    }
}
