// The constant table of shapes: the lines of each item that some paper has.
// Promises: `shape_at` says what the papers' data say; past the table stands an item of one empty line.
// Stands on papers, and on lengths for the numbers of the lines.
#![tactic(auto)]

ghost use Rattle.std.specs.Prelude.{◌≡◌, ◌<◌};
ghost use Rattle.shapes.specs.Shapes.{shape_at};

// The first line of an item, the parts of its chain, 0 for one subfield without a chain, and its subfields.
#[derive(Clone, Copy)]
pub struct Shape(pub usize, pub usize, pub usize);

static SHAPES: [Shape; 14] = [
    Shape(0, 1, 7), // MD5
    Shape(8, 2, 8), // M5N
    Shape(18, 1, 0), // M4E
    Shape(19, 1, 4), // RPC
    Shape(24, 0, 0), // ERR
    Shape(25, 0, 0), // BPS
    Shape(26, 0, 0), // SelH
    Shape(27, 0, 0), // NAV
    Shape(28, 0, 0), // GAO
    Shape(29, 2, 0), // SGV
    Shape(31, 6, 0), // STA
    Shape(37, 0, 0), // TNH
    Shape(38, 1, 6), // MES
    Shape(45, 0, 0), // TA
];

// An item that no paper has is one line that no paper has: its number is behind every line that a later edition may add.
pub const NO_LINE: usize = 255;

pub fn shape_at(k: usize) -> Shape
    ensures { result ≡ shape_at k }
{
    SHAPES.get(k).copied().unwrap_or(Shape(NO_LINE, 0, 0))
}
