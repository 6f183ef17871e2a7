// What says that something is there: for an item its bit in the indicator, for a subfield a number of the chain.
// Promises: each is one equation, for every indicator, item, index and number. Stands on codec's definitions and on leaves.
#![tactic(auto)]

ghost use Rattle.std.specs.Prelude.{◌≡◌, ◌-◌, ◌^◌, ◌/◌, eqb, get_or};
ghost use Rattle.codec.specs.Item.{is_one};
ghost use Rattle.codec.specs.Field.{flags};
ghost use Rattle.codec.specs.Change.{set_flag};

// The index of an item; items are counted from 1.
pub fn index(item: u8) -> usize
    ensures { result ≡ item - 1 }
{
    leaves::less(leaves::wide(item), 1)
}

// Whether an indicator has the item with index i, the first item's bit being the highest.
pub fn present(items: u8, i: usize) -> bool
    ensures { result ≡ eqb (get_or (flags items) i 0) 1 }
{
    if i < 8 {
        return (items >> ((7 - i) as u8)) % 2 == 1;
    }
    false
}

// The bit of the item with index i, none where there is no such index.
fn bit(i: usize) -> u8
    ensures { result ≡ 128 / 2 ^ i }
{
    if i < 8 {
        return 128u8 >> (i as u8);
    }
    0
}

// An indicator with the item of index i, and without it.
pub fn with_item(items: u8, i: usize) -> u8
    ensures { result ≡ set_flag items i 1 }
{
    items | bit(i)
}

pub fn without_item(items: u8, i: usize) -> u8
    ensures { result ≡ set_flag items i 0 }
{
    items & !bit(i)
}

// Whether a number of a chain says that a subfield is there.
pub fn is_one(z: i32) -> bool
    ensures { result ≡ is_one z }
{
    z == 1
}
