// The angle of a latitude or longitude (01, 'The sheet'; 02, Ask 7), whose numbers are steps of 180/8,388,608 degree.
// Promises: the angle and what it leaves over are those that 01 and 02 define, for every number. Stands on scope's definitions and on no code.
#![tactic(auto)]

ghost use Rattle.std.specs.Prelude.{◌≡◌};
ghost use Rattle.scope.specs.Angle.{udeg_of, left_of};
ghost use Rattle.angle.specs.Half.{half_of};

// Both are i64: those of a 24-bit number would fit an i32, the millionths of any i32 would not.
#[derive(Clone, Copy)]
pub struct Angle {
    // Millionths of a degree, nearest, halves away from zero.
    pub udeg: i64,
    // What is left over of the exact angle, in parts of 32,768 of a millionth.
    pub left: i64,
}

// Half of the divisor, on the product's own side of zero: a quotient of i64 drops what is left over, toward zero.
#[tactic(auto, unfolding(crate::specs::Half::half_of))]
fn half(product: i64) -> i64
    ensures { result ≡ half_of product }
{
    if product < 0 {
        return -16_384;
    }
    16_384
}

// The millionths are the product's nearest whole part, and the leftover is what remains of that very product.
#[tactic(auto, unfolding(crate::specs::Half::half_of))]
pub fn exact(n: i32) -> Angle
    ensures { (result.udeg ≡ udeg_of n) × (result.left ≡ left_of n) }
{
    let product = i64::from(n) * 703_125;
    let udeg = (product + half(product)) / 32_768;
    Angle {
        udeg,
        left: product - udeg * 32_768,
    }
}
