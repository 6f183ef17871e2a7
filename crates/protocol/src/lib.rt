// Takes a line of the co-process apart (docs/PROTOCOL.md): one parser for all requests, whose forms are data.
// Promises: for every line the request that it is and where its words start, or the number of its first word that is wrong; the record that
// starts at a place. Stands on words.
#![tactic(auto)]

ghost use Rattle.std.specs.Prelude.{◌≡◌, ℕ, List, drop};
ghost use Rattle.std.specs.Borrow.{Bor};
ghost use Rattle.protocol.specs.Line.{words_of, words_at, next_place, places_from};
ghost use Rattle.protocol.specs.Forms.{fits, first_wrong, wrong_word, parse_of};
ghost use Rattle.protocol.specs.Requests.{judged_in, parsed};
ghost use Rattle.protocol.specs.Record.{values_of, record_in, record_at};

use layout::Record;

// The most octets of a line.
pub const LONGEST: usize = 16384;

#[derive(Clone, Copy, Debug, PartialEq, Eq)]
pub enum Request {
    Read,
    Write,
    Sheet,
    View,
    Choose,
    Remove,
    Replace,
    Copy,
    Rebuild,
}

// The request, or the number, from 1, of the first word that is wrong; 0 for a line that is too long. And where the line's
// first words start. A request of more words has them in a run, taken from the place of its first.
#[derive(Clone, Copy)]
pub struct Parsed {
    pub judged: Result<Request, usize>,
    pub starts: [usize; 10],
}

// The form of a request: its name, and a letter for the kind of each word behind it. An enum of the kinds would be no
// plainer: the row of `write` has 88 words.
#[derive(Clone, Copy)]
struct Row {
    request: Request,
    name: &'static [u8],
    kinds: &'static [u8],
}

const ROWS: [Row; 9] = [
    Row {
        request: Request::Read,
        name: b"read",
        kinds: b"CO",
    },
    Row {
        request: Request::Write,
        name: b"write",
        kinds: b"RCBBBBBBBBBSSSSSSSSSSSSSSSSSSSSSSSSSSSSSSSSSSSSSSSSSSSSSSSSSSSSSSSSSSSSSSSSSSSSSSSSSSSSS",
    },
    Row {
        request: Request::Sheet,
        name: b"sheet",
        kinds: b"CO",
    },
    Row {
        request: Request::View,
        name: b"view",
        kinds: b"COI",
    },
    Row {
        request: Request::Choose,
        name: b"choose",
        kinds: b"COOI",
    },
    Row {
        request: Request::Remove,
        name: b"remove",
        kinds: b"COLIR",
    },
    Row {
        request: Request::Replace,
        name: b"replace",
        kinds: b"COLIOR",
    },
    Row {
        request: Request::Copy,
        name: b"copy",
        kinds: b"COLR",
    },
    Row {
        request: Request::Rebuild,
        name: b"rebuild",
        kinds: b"OR",
    },
];

// Where the word behind the one at a place starts; past the end where there is none.
fn next_place(line: &[u8], at: usize) -> usize
    ensures { result ≡ next_place line.now at }
{
    if line.len() < at {
        return at;
    }
    at + words::word_at(line, at).len() + 1
}

fn places(line: &[u8]) -> [usize; 10]
    ensures { result ≡ places_from line.now 0 10 }
{
    let mut starts = [0; 10];
    let mut at = 0;
    for start in &mut starts {
        *start = at;
        at = next_place(line, at);
    }
    starts
}

// A word is of a kind.
#[tactic(auto, using(crate::specs::Laws::Forms::fits_ways))]
fn fits(kind: u8, word: &[u8]) -> bool
    ensures { result ≡ fits kind word.now }
{
    match kind {
        b'C' | b'I' | b'B' => words::number(word, 255).is_some(),
        b'O' => hex_words::is_octets(word),
        b'L' => hex_words::is_list(word),
        b'R' => words::number(word, 300).is_some(),
        b'H' => words::number(word, 65535).is_some(),
        b'S' => words::signed(word).is_some(),
        _ => false,
    }
}

// The number of the first word behind the name that is wrong.
fn first_wrong(line: &[u8], kinds: &[u8]) -> Option<usize>
    ensures { result ≡ wrong_word (first_wrong kinds.now (drop 1 (words_of line.now)) 2) }
{
    let mut at = next_place(line, 0);
    let mut n = 2;
    for kind in kinds {
        if line.len() < at {
            return Some(n);
        }
        if !fits(*kind, words::word_at(line, at)) {
            return Some(n);
        }
        at = next_place(line, at);
        n += 1;
    }
    if line.len() < at {
        return None;
    }
    Some(n)
}

// The line by a table of forms.
fn judge(line: &[u8], rows: &[Row]) -> Result<Request, usize>
    ensures { result ≡ judged_in rows.now (words_of line.now) }
{
    let name = words::word_at(line, 0);
    for row in rows {
        if name == row.name {
            return first_wrong(line, row.kinds).map_or(Ok(row.request), Err);
        }
    }
    Err(1)
}

pub fn parse(line: &[u8]) -> Parsed
    ensures { result ≡ parsed (parse_of line.now) }
{
    if LONGEST < line.len() {
        return Parsed {
            judged: Err(0),
            starts: [0; 10],
        };
    }
    Parsed {
        judged: judge(line, &ROWS),
        starts: places(line),
    }
}

// ---- a record: CAT, ITEMS, 8 parts and the numbers, a word each

// The values of so many words, from the one at a place on, and where the word behind them starts.
fn values<T: Copy + Default, const N: usize, F: Fn(&[u8]) -> T>(
    line: &[u8],
    start: usize,
    value: F,
) -> ([T; N], usize)
    ghost told: { List ℕ → T }
    requires callable { F.IsAlwaysCallable value }
    requires tells { (w : Bor (List ℕ)) (x : T) → F.post value w x → x ≡ told w.now }
    ensures values { result.0 ≡ values_of told N (words_at line.now start) }
    ensures behind { words_at line.now result.1 ≡ drop N (words_at line.now start) }
{
    let mut values = [T::default(); N];
    let mut at = start;
    for slot in &mut values {
        *slot = value(words::word_at(line, at));
        at = next_place(line, at);
    }
    (values, at)
}

fn record_in(line: &[u8], at: usize) -> Record
    ensures { result ≡ record_in (words_at line.now at) }
{
    let cat = words::small(words::word_at(line, at));
    let second = next_place(line, at);
    let items = words::small(words::word_at(line, second));
    let third = next_place(line, second);
    let (parts, last) = values(line, third, words::small);
    let (numbers, _) = values(line, last, words::whole);
    Record {
        cat,
        items,
        parts,
        numbers,
    }
}

// The record that the words from a place on are; of a line that is too long, which is no request, the words that it begins with.
pub fn record_at(line: &[u8], at: usize) -> Record
    ensures { result ≡ record_at line.now at }
{
    record_in(&line[..LONGEST.min(line.len())], at)
}
