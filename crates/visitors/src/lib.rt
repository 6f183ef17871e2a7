// The visitors' copy (02, Ask 5): a field without the items that are withheld from buyers of rival sets.
// Promises: `copy` answers and leaves what scope defines, for every input: the field written afresh without the items on the list, or a refusal that writes
// nothing. So it tells nothing of what is withheld (demands: Visitors). It promises nothing of how long it takes.
// Stands on desk, reader and outputs, which it knows by their contracts.
#![tactic(auto)]

ghost use Rattle.std.specs.Prelude.{◌≡◌};
ghost use Rattle.layout.specs.Answer.{by_number};
ghost use Rattle.scope.specs.Visitors.{Copied};
ghost use Rattle.visitors.specs.Passing.{passed_of};

use layout::Answer;

// The field in front of an array, without an item that is there and withheld. The desk refuses nothing: the field was accepted, the list has every place,
// and the array has room for every LEN.
#[tactic(auto, using(crate::specs::Laws::Passing::passed_shown, crate::specs::Laws::Passing::passed_absent))]
fn passed(cat: u8, kept: [u8; 255], withheld: u8, item: u8) -> [u8; 255]
    ensures { result ≡ passed_of cat kept withheld item }
{
    let i = flags::index(item);
    if flags::present(withheld, i) {
        if flags::present(kept[1], i) {
            let mut next = kept;
            let _ = desk::remove(cat, &kept, 255, item, &mut next);
            return next;
        }
    }
    kept
}

// The field without the items that are withheld, into the front of an output.
pub fn copy(cat: u8, field: &[u8], withheld: u8, out: &mut [u8]) -> Answer
    ensures { Copied cat field.now withheld out.old (by_number result) out.new }
{
    let len = reader::survey(cat, field)?.len;
    let mut kept = [0u8; 255];
    kept[..len].copy_from_slice(&field[..len]);
    let items = layout::items_of(cat);
    for item in 1..=items {
        kept = passed(cat, kept, withheld, leaves::octet(item));
    }
    let n = leaves::wide(kept[0]);
    outputs::deliver(leaves::front(&kept, n), out)
}
