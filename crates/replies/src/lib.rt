// The answers of the co-process in words: what each operation answered is typed into a text, `ok` and what was asked for, or `refused`, number and place.
// Promises: every octet of the text. Stands on text.
#![tactic(auto)]

ghost use Rattle.std.specs.Prelude.{◌≡◌, ◌∷◌};
ghost use Rattle.papers.specs.Names.{text};
ghost use Rattle.text.specs.Typed.{Typed};
ghost use Rattle.replies.specs.Texts.{bad_request, refusal_text, left_text, rebuilt_text, shown_text, view_text, choice_text, words_text, record_text, reading_text, in_line, line_octet, sheet_text};
ghost use Rattle.replies.specs.Told.{as_told, told_answer, told_reading, told_view, told_choice, told_rebuilt};

use layout::{Part, Rebuilt, Record, Refusal, Which};
use text::{Hex, Text, Word};

// ---- words of an answer, each behind a space

fn next<W: Word>(value: W, reply: &mut Text)
    ensures { Typed (32 ∷ W.text_of value) reply.old reply.new }
{
    reply.word(b" ");
    value.type_into(reply);
}

fn words<W: Word + Copy>(values: &[W], reply: &mut Text)
    ensures { Typed (words_text (λ value. 32 ∷ W.text_of value) values.now) reply.old reply.new }
{
    for &value in values {
        next(value, reply);
    }
}

// ---- answers

// A refusal as it is told: its number, which may be any, and its place.
#[derive(Clone, Copy)]
pub struct Told {
    pub number: u8,
    pub place: usize,
}

impl From<Refusal> for Told {
    ghost from_gives = { λ refused result. result ≡ as_told refused };

    fn from(refused: Refusal) -> Told {
        Told {
            number: u8::from(refused.reason),
            place: refused.place,
        }
    }
}

pub fn bad_request(n: usize, reply: &mut Text)
    ensures { Typed (bad_request n) reply.old reply.new }
{
    reply.word(b"bad-request");
    next(n, reply);
}

pub fn refusal(told: Told, reply: &mut Text)
    ensures { Typed (refusal_text told.number told.place) reply.old reply.new }
{
    reply.word(b"refused");
    next(told.number, reply);
    next(told.place, reply);
}

fn ok(reply: &mut Text)
    ensures { Typed (text "ok") reply.old reply.new }
{
    reply.word(b"ok");
}

// The answer of an operation with an output, and what it left in the output's front.
pub fn left(answer: Result<usize, Told>, out: &[u8], reply: &mut Text)
    ensures { Typed (left_text (told_answer answer) out.now) reply.old reply.new }
{
    match answer {
        Ok(n) => {
            ok(reply);
            next(Hex(leaves::front(out, n)), reply);
        }
        Err(told) => refusal(told, reply),
    }
}

// The same with the category in front of the octets.
pub fn rebuilt_text(answer: Result<Rebuilt, Told>, out: &[u8], reply: &mut Text)
    ensures { Typed (rebuilt_text (told_rebuilt answer).cat (told_rebuilt answer).answer out.now) reply.old reply.new }
{
    match answer {
        Ok(rebuilt) => {
            ok(reply);
            next(rebuilt.cat, reply);
            next(Hex(leaves::front(out, rebuilt.len)), reply);
        }
        Err(told) => refusal(told, reply),
    }
}

fn shown(at: Part, part: &[u8], reply: &mut Text)
    ensures { Typed (shown_text at.start at.length part.now) reply.old reply.new }
{
    next(at.start, reply);
    next(at.length, reply);
    next(Hex(part), reply);
}

pub fn view_text(view: Result<Part, Told>, part: &[u8], reply: &mut Text)
    ensures { Typed (view_text (told_view view) part.now) reply.old reply.new }
{
    match view {
        Ok(at) => {
            ok(reply);
            shown(at, part, reply);
        }
        Err(told) => refusal(told, reply),
    }
}

pub fn choice_text(which: Which, view: Result<Part, Told>, part: &[u8], reply: &mut Text)
    ensures { Typed (choice_text (told_choice which view) part.now) reply.old reply.new }
{
    let number = u8::from(which);
    match view {
        Ok(at) => {
            ok(reply);
            next(number, reply);
            shown(at, part, reply);
        }
        Err(told) => {
            refusal(told, reply);
            next(number, reply);
        }
    }
}

// ---- a record

fn record_text(kept: &Record, reply: &mut Text)
    ensures { Typed (record_text kept.now) reply.old reply.new }
{
    next(kept.cat, reply);
    next(kept.items, reply);
    words(&kept.parts, reply);
    words(&kept.numbers, reply);
}

pub fn reading_text(answer: Result<usize, Told>, kept: &Record, reply: &mut Text)
    ensures { Typed (reading_text (told_reading answer kept.now)) reply.old reply.new }
{
    match answer {
        Ok(len) => {
            ok(reply);
            next(len, reply);
            record_text(kept, reply);
        }
        Err(told) => refusal(told, reply),
    }
}

// ---- a sheet

// A line feed as a space, so that a line of the sheet becomes a word of the answer.
#[tactic(auto, unfolding(crate::specs::Texts::in_line))]
fn in_line(o: u8) -> u8
    ensures { result ≡ in_line o }
{
    if o == b'\n' { b' ' } else { o }
}

// Not `words`: no space stands before an octet.
fn line_words(octets: &[u8], reply: &mut Text)
    ensures { Typed (words_text line_octet octets.now) reply.old reply.new }
{
    for &o in octets {
        reply.octet(in_line(o));
    }
}

// The lines of a sheet: each behind a space, without the last line feed.
pub fn sheet_text(sheet: &[u8], reply: &mut Text)
    ensures { Typed (sheet_text sheet.now) reply.old reply.new }
{
    ok(reply);
    reply.octet(b' ');
    line_words(leaves::front(sheet, sheet.len().saturating_sub(1)), reply);
}
