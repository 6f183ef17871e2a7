// The C interface: each operation as a function whose arguments and answer a program in C can pass. exports_c gives them to C.
// Promises: the word that is answered, and every element of lent memory afterwards, are those of the definitions of 01 and 02, for every input; a refusal writes nothing.
// Stands on arrays, views, desk, visitors, sheet and rebuild, which it knows by their contracts.
#![tactic(auto)]

ghost use Rattle.std.specs.Prelude.{◌≡◌, length};
ghost use Rattle.codec.specs.Change.{remove, put};
ghost use Rattle.layout.specs.Answer.{by_number, view_by_number, reason_number, place_of, length_of, view_place, view_length};
ghost use Rattle.scope.specs.Reading.{read_of};
ghost use Rattle.scope.specs.Outputs.{with_room};
ghost use Rattle.scope.specs.Sheet.{sheet_of};
ghost use Rattle.scope.specs.Views.{view_of, choose_of};
ghost use Rattle.scope.specs.Desk.{edit_of};
ghost use Rattle.scope.specs.Visitors.{copy_of};
ghost use Rattle.guess.specs.Guess.{rebuild_of};
ghost use Rattle.interface.specs.Packed.{word_of, Fit, beside_word, answer_word, side_word, view_word, choice_word, Hands, HandsRebuilt};
ghost use Rattle.interface.specs.Arrays.{Fills, write_array};

use layout::{Answer, Refusal, View};

// Four numbers of 16 bits each, the refusal's number highest: a program in C gets one word back (C interface).
#[tactic(auto, unfolding(interface::specs::Packed::word_of))]
fn word(number: u8, which: u8, place: usize, size: usize) -> u64
    requires { Fit place size }
    ensures { result ≡ word_of number which place size }
{
    u64::from(number) * 0x1_0000_0000_0000
        + u64::from(which) * 0x1_0000_0000
        + (place as u64) * 0x1_0000
        + (size as u64)
}

fn refused_word(which: u8, refusal: Refusal) -> u64
    requires { Fit refusal.place 0 }
    ensures { result ≡ word_of (reason_number refusal.reason) which refusal.place 0 }
{
    word(u8::from(refusal.reason), which, refusal.place, 0)
}

// Of where something stands in one of two fields.
fn side_word(which: u8, v: View) -> u64
    requires { Fit (view_place (view_by_number v)) (view_length (view_by_number v)) }
    ensures { result ≡ side_word which (view_by_number v) }
{
    match v {
        Ok(part) => word(0, which, part.start, part.length),
        Err(refusal) => refused_word(which, refusal),
    }
}

fn answer_word(a: Answer) -> u64
    requires { Fit (place_of (by_number a)) (length_of (by_number a)) }
    ensures { result ≡ answer_word (by_number a) }
{
    match a {
        Ok(n) => word(0, 0, 0, n),
        Err(refusal) => refused_word(0, refusal),
    }
}

// The field's record into an array of 87; LEN is the length that is answered.
pub fn ref_read(cat: u8, field: &[u8], out: &mut [i32]) -> u64
    ensures { Fills (read_of cat field.now) out.old result out.new }
{
    answer_word(arrays::read_array(cat, field, out))
}

// The field of a record's array, into the front of the output.
pub fn ref_write(a: &[i32], out: &mut [u8]) -> u64
    ensures { Hands (write_array a.now (length out.old)) out.old result out.new }
{
    answer_word(arrays::write_array(a, out))
}

// Where an item stands in its field.
pub fn ref_view(cat: u8, field: &[u8], item: u8) -> u64
    ensures { result ≡ view_word (view_of cat field.now item) }
{
    side_word(0, views::view_answer(cat, field, item))
}

// Where an item stands in the correction, or else in the base.
pub fn ref_choose(cat: u8, base: &[u8], correction: &[u8], item: u8) -> u64
    ensures { result ≡ choice_word (choose_of cat base.now correction.now item) }
{
    let c = views::choose_answer(cat, base, correction, item);
    side_word(u8::from(c.which), c.view)
}

// A field without an item, into the front of the output.
pub fn ref_remove(cat: u8, field: &[u8], list: u8, item: u8, out: &mut [u8]) -> u64
    ensures { Hands (edit_of cat field.now list item remove (length out.old)) out.old result out.new }
{
    answer_word(desk::remove(cat, field, list, item, out))
}

// A field with an item of new octets, into the front of the output.
pub fn ref_replace(cat: u8, field: &[u8], list: u8, item: u8, new: &[u8], out: &mut [u8]) -> u64
    ensures { Hands (edit_of cat field.now list item (put new.now) (length out.old)) out.old result out.new }
{
    answer_word(desk::replace(cat, field, list, item, new, out))
}

// A field without the items that are withheld, into the front of the output.
pub fn ref_copy(cat: u8, field: &[u8], withheld: u8, out: &mut [u8]) -> u64
    ensures { Hands (copy_of cat field.now withheld (length out.old)) out.old result out.new }
{
    answer_word(visitors::copy(cat, field, withheld, out))
}

// The sheet of a category octet and a field, into the front of the output.
pub fn ref_sheet(input: &[u8], out: &mut [u8]) -> u64
    ensures { Hands (with_room (length out.old) (sheet_of input.now)) out.old result out.new }
{
    answer_word(sheet::sheet(input, out))
}

// The field whose sheet a text is, into the front of the output, and its category.
pub fn ref_rebuild(text: &[u8], out: &mut [u8]) -> u64
    ensures { HandsRebuilt (rebuild_of text.now (length out.old)) out.old result out.new }
{
    match rebuild::rebuild(text, out) {
        Ok(rebuilt) => word(0, rebuilt.cat, 0, rebuilt.len),
        Err(refusal) => refused_word(0, refusal),
    }
}
