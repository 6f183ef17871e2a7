// The view of an item and the choice between two fields (01, 'Views and the choice between two fields').
// Promises: the answers and the parts are those that 01 defines, for every input. Stands on reader, which it knows by its contracts.
#![tactic(auto)]

ghost use Rattle.std.specs.Prelude.{◌≡◌, ℕ, ◌+◌, ◌-◌, ◌≤◌, ◌<◌, length};
ghost use Rattle.layout.specs.Answer.{Shown, view_by_number, choice_by_number};
ghost use Rattle.scope.specs.Views.{view_of, part_of, choose_of, chosen_of};
ghost use Rattle.views.specs.Standing.{Rising, stands_at};
ghost use Rattle.views.specs.Choosing.{chosen_view};
ghost use Rattle.views.specs.Parts.{part_at, chosen_at};

use layout::{Choice, Part, Reason, Survey, View, Which};

// Where an item of a category stands in an accepted field, by its indicator and where each item begins.
fn standing(cat: u8, found: Survey, item: u8) -> View
    requires { Rising cat found.starts }
    ensures { view_by_number result ≡ stands_at cat found.items found.starts item }
{
    if layout::is_item(cat, item) {
        let i = leaves::wide(item);
        if flags::present(found.items, i - 1) {
            let starts = found.starts;
            let from = leaves::wide(starts[i - 1]);
            let to = leaves::wide(starts[i]);
            return Ok(Part {
                start: from,
                length: to - from,
            });
        }
        return Err(Reason::Absent.at(0));
    }
    Err(Reason::Item.at(0))
}

// The first offset and the length of an item, or the refusal.
pub fn view_answer(cat: u8, field: &[u8], item: u8) -> View
    ensures { view_by_number result ≡ view_of cat field.now item }
{
    let found = reader::survey(cat, field)?;
    standing(cat, found, item)
}

// The part of a field that a view shows.
fn part<'a>(field: &'a [u8], view: View) -> &'a [u8]
    requires { (a m : ℕ) → view_by_number view ≡ Shown a m → a + m ≤ length field.now }
    ensures { (result.now ≡ part_of field.now (view_by_number view)) × (result.ref_ptr ≡ part_at field.entry.ref_ptr (view_by_number view)) }
{
    let Ok(shown) = view else {
        return &field[..0];
    };
    &field[shown.start..shown.start + shown.length]
}

// The item's part of the field; the empty part where nothing can be shown.
pub fn view<'a>(cat: u8, field: &'a [u8], item: u8) -> &'a [u8]
    ensures result_value { result.now ≡ part_of field.now (view_of cat field.now item) }
    ensures ref_ptr_value { result.ref_ptr ≡ part_at field.entry.ref_ptr (view_of cat field.now item) }
{
    let v = view_answer(cat, field, item);
    part(field, v)
}

// The view of an item in the correction where it is there, else in the base.
fn chosen(base: View, correction: View) -> Choice
    ensures { choice_by_number result ≡ chosen_view (view_by_number base) (view_by_number correction) }
{
    if let Ok(_) = correction {
        return Choice {
            which: Which::Correction,
            view: correction,
        };
    }
    if let Ok(_) = base {
        return Choice {
            which: Which::Base,
            view: base,
        };
    }
    Choice {
        which: Which::Neither,
        view: base,
    }
}

// Where the item stands in the correction, or else in the base; or the refusal, and which field it is of.
pub fn choose_answer(cat: u8, base: &[u8], correction: &[u8], item: u8) -> Choice
    ensures { choice_by_number result ≡ choose_of cat base.now correction.now item }
{
    if layout::is_known(cat) {
        let b = match reader::survey(cat, base) {
            Ok(found) => found,
            Err(refusal) => {
                return Choice {
                    which: Which::Base,
                    view: Err(refusal),
                };
            }
        };
        let c = match reader::survey(cat, correction) {
            Ok(found) => found,
            Err(refusal) => {
                return Choice {
                    which: Which::Correction,
                    view: Err(refusal),
                };
            }
        };
        let x = standing(cat, b, item);
        let y = standing(cat, c, item);
        return chosen(x, y);
    }
    Choice {
        which: Which::Neither,
        view: Err(Reason::Category.at(0)),
    }
}

// The item's part of the correction where it is there, else of the base; the empty part where nothing can be shown.
pub fn choose<'a>(cat: u8, base: &'a [u8], correction: &'a [u8], item: u8) -> &'a [u8]
    ensures result_value { result.now ≡ chosen_of base.now correction.now (choose_of cat base.now correction.now item) }
    ensures ref_ptr_value { result.ref_ptr ≡ chosen_at base.entry.ref_ptr correction.entry.ref_ptr (choose_of cat base.now correction.now item) }
{
    let c = choose_answer(cat, base, correction, item);
    let v = c.view;
    let w = c.which;
    match w {
        Which::Neither => &base[..0],
        Which::Base => part(base, v),
        Which::Correction => part(correction, v),
    }
}
