// The constant table of spots: where each category keeps its items.
// Promises: `spot_at` and `spot_of` say what the papers' data say; past the table stands the first spot.
// Stands on papers, and on shapes for the numbers of the items.
#![tactic(auto)]

ghost use Rattle.std.specs.Prelude.{◌≡◌, ◌<◌};
ghost use Rattle.spots.specs.Spots.{spot_at, spot_of};

use layout::{Cat021, Cat048};

// Which item it is, and the slot where its numbers begin.
#[derive(Clone, Copy)]
pub struct Spot(pub u8, pub u8);

// The items of each category, in the order of their bits.
static SPOTS: [Spot; 18] = [
    // 048
    Spot(0, 0), // MD5
    Spot(1, 33), // M5N
    Spot(2, 67), // M4E
    Spot(3, 68), // RPC
    Spot(4, 76), // ERR
    // 021
    Spot(5, 0), // BPS
    Spot(6, 1), // SelH
    Spot(7, 4), // NAV
    Spot(8, 10), // GAO
    Spot(9, 12), // SGV
    Spot(10, 18), // STA
    Spot(11, 44), // TNH
    Spot(12, 45), // MES
    // 007
    Spot(13, 0), // TA
    Spot(1, 2), // M5N
    Spot(2, 36), // M4E
    Spot(3, 37), // RPC
    Spot(4, 45), // ERR
];

pub fn spot_at(k: usize) -> Spot
    ensures { result ≡ spot_at k }
{
    SPOTS.get(k).copied().unwrap_or(Spot(0, 0))
}

// Behind the items of 048 stand those of 021, and behind these those of 007.
const SPOTS_021: usize = Cat048::ITEMS;

const SPOTS_007: usize = Cat048::ITEMS + Cat021::ITEMS;

// A category's first spot.
pub fn spot_of(cat: u8) -> usize
    ensures { result ≡ spot_of cat }
{
    match cat {
        Cat048::NUMBER => 0,
        Cat021::NUMBER => SPOTS_021,
        _ => SPOTS_007,
    }
}
