// Small total functions on octets and numbers that the layers above share.
// Promises: each is one equation. Stands on nothing.
// What may not change: the theorems one_leaves_wide and one_leaves_wide64, and so for octet and less, speak of a function for each of the two widths; a trait for
// both would have the same two bodies again.
#![tactic(auto)]

ghost use Rattle.std.specs.Prelude.{◌≡◌, ◌-◌, ◌%◌, ◌<◌, take};

// An octet as a number.
pub fn wide(o: u8) -> usize
    ensures { (result ≡ o) × (result < 256) }
{
    usize::from(o)
}

pub fn wide64(o: u8) -> u64
    ensures { (result ≡ o) × (result < 256) }
{
    u64::from(o)
}

// The lowest octet of a number.
pub fn octet(n: usize) -> u8
    ensures { result ≡ n % 256 }
{
    (n % 256) as u8
}

pub fn octet64(n: u64) -> u8
    ensures { result ≡ n % 256 }
{
    let low = n % 256;
    low as u8
}

// What is left of a number after another is taken away, nothing where the other is larger.
pub fn less(a: usize, b: usize) -> usize
    ensures { result ≡ a - b }
{
    usize::saturating_sub(a, b)
}

pub fn less64(a: u64, b: u64) -> u64
    ensures { result ≡ a - b }
{
    u64::saturating_sub(a, b)
}

// At most so many octets in front.
pub fn front<'a>(s: &'a [u8], n: usize) -> &'a [u8]
    ensures { result.now ≡ take n s.now }
{
    if n < s.len() {
        return &s[..n];
    }
    s
}
