// The numbers of a field that was surveyed, item by item, each from where the survey found it.
// Promises: `row` puts the numbers of every item into their slots and gives the count of the parts of each; it can't refuse. Stands on taking.
// The numbers of lines and slots stand here as literals, so that the rows of the table are constants.
ghost use Rattle.std.specs.Prelude.{◌≡◌, true, ◌<◌, get_or};
ghost use Rattle.codec.specs.Field.{flags};
ghost use Rattle.papers.specs.Papers.{known, items_of};
ghost use Rattle.spots.specs.Spots.{spot_of};
ghost use Rattle.reader.specs.Rows.{row_from};
ghost use Rattle.reader.specs.Seen.{flag_at};
ghost use Rattle.reader.specs.Taking.{start_of, RowFits, RowTaken};

use crate::taking;
use layout::{Cat021, Cat048, Numbers, Survey};

// Where the item of index i begins, if it is there.
fn start(found: &Survey, i: usize) -> Option<usize>
    requires { i < 9 }
    ensures { result ≡ start_of (flag_at found.now.items i) (get_or found.now.starts i 0) }
{
    flags::present(found.items, i).then_some(leaves::wide(found.starts[i]))
}

fn row_048(s: &[u8], found: &Survey, numbers: &mut Numbers) -> [u8; 8]
    requires { RowFits 0 5 (flags found.now.items) s.now found.now.starts }
    ensures { RowTaken numbers.old 5 (row_from 0 5 (flags found.now.items) s.now 2) result numbers.new }
{
    let md5 = taking::md5(s, start(found, 0), 0, numbers);
    let m5n = taking::m5n(s, start(found, 1), 33, numbers);
    let m4e = taking::m4e(s, start(found, 2), 67, numbers);
    let rpc = taking::rpc(s, start(found, 3), 68, numbers);
    let err = taking::line(s, start(found, 4), 24, 76, numbers);
    [md5, m5n, m4e, rpc, err, 0, 0, 0]
}

fn row_021(s: &[u8], found: &Survey, numbers: &mut Numbers) -> [u8; 8]
    requires { RowFits 5 8 (flags found.now.items) s.now found.now.starts }
    ensures { RowTaken numbers.old 8 (row_from 5 8 (flags found.now.items) s.now 2) result numbers.new }
{
    let bps = taking::line(s, start(found, 0), 25, 0, numbers);
    let selh = taking::line(s, start(found, 1), 26, 1, numbers);
    let nav = taking::line(s, start(found, 2), 27, 4, numbers);
    let gao = taking::line(s, start(found, 3), 28, 10, numbers);
    let sgv = taking::sgv(s, start(found, 4), 12, numbers);
    let sta = taking::sta(s, start(found, 5), 18, numbers);
    let tnh = taking::line(s, start(found, 6), 37, 44, numbers);
    let mes = taking::mes(s, start(found, 7), 45, numbers);
    [bps, selh, nav, gao, sgv, sta, tnh, mes]
}

fn row_007(s: &[u8], found: &Survey, numbers: &mut Numbers) -> [u8; 8]
    requires { RowFits 13 5 (flags found.now.items) s.now found.now.starts }
    ensures { RowTaken numbers.old 5 (row_from 13 5 (flags found.now.items) s.now 2) result numbers.new }
{
    let ta = taking::line(s, start(found, 0), 45, 0, numbers);
    let m5n = taking::m5n(s, start(found, 1), 2, numbers);
    let m4e = taking::m4e(s, start(found, 2), 36, numbers);
    let rpc = taking::rpc(s, start(found, 3), 37, numbers);
    let err = taking::line(s, start(found, 4), 24, 45, numbers);
    [ta, m5n, m4e, rpc, err, 0, 0, 0]
}

// The row of a category.
pub fn row(s: &[u8], cat: u8, found: &Survey, numbers: &mut Numbers) -> [u8; 8]
    requires { (known cat ≡ true) × RowFits (spot_of cat) (items_of cat) (flags found.now.items) s.now found.now.starts }
    ensures { RowTaken numbers.old (items_of cat) (row_from (spot_of cat) (items_of cat) (flags found.now.items) s.now 2) result numbers.new }
{
    match cat {
        Cat048::NUMBER => row_048(s, found, numbers),
        Cat021::NUMBER => row_021(s, found, numbers),
        _ => row_007(s, found, numbers),
    }
}
