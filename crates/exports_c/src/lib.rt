// The C interface as a program in C finds it: the functions that include/refdesk.h declares, under their names, in the archive librefdesk.a.
// Promises: what the function of the same name in exports promises, word for word, since each calls that one and does nothing else.
// A static library, on which no crate can stand. Stands on exports, which it knows by its contracts.
#![tactic(auto)]

ghost use Rattle.std.specs.Prelude.{◌≡◌, length};
ghost use Rattle.codec.specs.Change.{remove, put};
ghost use Rattle.scope.specs.Reading.{read_of};
ghost use Rattle.scope.specs.Outputs.{with_room};
ghost use Rattle.scope.specs.Sheet.{sheet_of};
ghost use Rattle.scope.specs.Views.{view_of, choose_of};
ghost use Rattle.scope.specs.Desk.{edit_of};
ghost use Rattle.scope.specs.Visitors.{copy_of};
ghost use Rattle.guess.specs.Guess.{rebuild_of};
ghost use Rattle.interface.specs.Packed.{view_word, choice_word, Hands, HandsRebuilt};
ghost use Rattle.interface.specs.Arrays.{Fills, write_array};

// The field's record into an array of 87; LEN is the length that is answered.
#[unsafe(no_mangle)]
pub extern "C" fn ref_read(cat: u8, field: &[u8], out: &mut [i32]) -> u64
    ensures { Fills (read_of cat field.now) out.old result out.new }
{
    exports::ref_read(cat, field, out)
}

// The field of a record's array, into the front of the output.
#[unsafe(no_mangle)]
pub extern "C" fn ref_write(a: &[i32], out: &mut [u8]) -> u64
    ensures { Hands (write_array a.now (length out.old)) out.old result out.new }
{
    exports::ref_write(a, out)
}

// Where an item stands in its field.
#[unsafe(no_mangle)]
pub extern "C" fn ref_view(cat: u8, field: &[u8], item: u8) -> u64
    ensures { result ≡ view_word (view_of cat field.now item) }
{
    exports::ref_view(cat, field, item)
}

// Where an item stands in the correction, or else in the base.
#[unsafe(no_mangle)]
pub extern "C" fn ref_choose(cat: u8, base: &[u8], correction: &[u8], item: u8) -> u64
    ensures { result ≡ choice_word (choose_of cat base.now correction.now item) }
{
    exports::ref_choose(cat, base, correction, item)
}

// A field without an item, into the front of the output.
#[unsafe(no_mangle)]
pub extern "C" fn ref_remove(cat: u8, field: &[u8], list: u8, item: u8, out: &mut [u8]) -> u64
    ensures { Hands (edit_of cat field.now list item remove (length out.old)) out.old result out.new }
{
    exports::ref_remove(cat, field, list, item, out)
}

// A field with an item of new octets, into the front of the output.
#[unsafe(no_mangle)]
pub extern "C" fn ref_replace(
    cat: u8,
    field: &[u8],
    list: u8,
    item: u8,
    new: &[u8],
    out: &mut [u8],
) -> u64
    ensures { Hands (edit_of cat field.now list item (put new.now) (length out.old)) out.old result out.new }
{
    exports::ref_replace(cat, field, list, item, new, out)
}

// A field without the items that are withheld, into the front of the output.
#[unsafe(no_mangle)]
pub extern "C" fn ref_copy(cat: u8, field: &[u8], withheld: u8, out: &mut [u8]) -> u64
    ensures { Hands (copy_of cat field.now withheld (length out.old)) out.old result out.new }
{
    exports::ref_copy(cat, field, withheld, out)
}

// The sheet of a category octet and a field, into the front of the output.
#[unsafe(no_mangle)]
pub extern "C" fn ref_sheet(input: &[u8], out: &mut [u8]) -> u64
    ensures { Hands (with_room (length out.old) (sheet_of input.now)) out.old result out.new }
{
    exports::ref_sheet(input, out)
}

// The field whose sheet a text is, into the front of the output, and its category.
#[unsafe(no_mangle)]
pub extern "C" fn ref_rebuild(text: &[u8], out: &mut [u8]) -> u64
    ensures { HandsRebuilt (rebuild_of text.now (length out.old)) out.old result out.new }
{
    exports::ref_rebuild(text, out)
}
