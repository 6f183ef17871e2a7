// Octets as a word writes them: pairs of hex digits in either case, `-` for none; and a list, which is one octet as two digits.
// Promises: for every word the octets or the list that it writes, and whether it writes such; the octets taken are the octets written. Stands on text.
#![tactic(auto)]

ghost use Rattle.std.specs.Prelude.{◌≡◌, ◌≤◌, length};
ghost use Rattle.std.specs.Bool.{then_some};
ghost use Rattle.std.proofs.lemmas.List.Edits.{sets};
ghost use Rattle.hex_words.specs.Octets.{digit_in, hex_digit, are_hex, is_octets, octet_of, octets_of, octets_in, is_list, list_in};

// The most octets that a word of hex digits may stand for.
pub const MOST: usize = 4096;

// The value of a hex digit in either case.
#[tactic(auto, using(crate::specs::Laws::Octets::hex_ways))]
fn hex_digit(o: u8) -> Option<u8>
    ensures { result ≡ digit_in (hex_digit o) }
{
    match o {
        b'0'..=b'9' => Some(o - b'0'),
        b'A'..=b'F' => Some(o - b'A' + 10),
        b'a'..=b'f' => Some(o - b'a' + 10),
        _ => None,
    }
}

fn are_hex(word: &[u8]) -> bool
    ensures { result ≡ are_hex word.now }
{
    word.iter().all(|o| hex_digit(*o).is_some())
}

// What may not change: `one_hex_is_octets` and `one_hex_is_list` (promises) speak of the two tests, which the parser asks without an array.
#[tactic(auto, using(crate::specs::Laws::Octets::octets_ways))]
pub fn is_octets(word: &[u8]) -> bool
    ensures { result ≡ is_octets word.now }
{
    match word {
        [] => false,
        [o] => *o == b'-',
        _ => word.len() <= 2 * MOST && word.len() % 2 == 0 && are_hex(word),
    }
}

// The octet of two digits, the high one first.
fn octet(high: u8, low: u8) -> u8
    ensures { result ≡ octet_of high low }
{
    hex_digit(high).unwrap_or(0) * 16 + hex_digit(low).unwrap_or(0)
}

// The octets of a word into the front of an array.
fn lay(word: &[u8], out: &mut [u8; MOST])
    requires { length word.now ≤ 8192 }
    ensures { out.new ≡ sets out.old 0 (octets_of word.now) }
{
    for (i, pair) in word.chunks_exact(2).enumerate() {
        out[i] = octet(pair[0], pair[1]);
    }
}

// The octets that a word writes, into the front of an array, and how many.
pub fn octets(word: &[u8], out: &mut [u8; MOST]) -> Option<usize>
    ensures { (result ≡ then_some (is_octets word.now) (length (octets_in word.now))) × (out.new ≡ sets out.old 0 (octets_in word.now)) }
{
    if !is_octets(word) {
        return None;
    }
    lay(word, &mut *out);
    Some(word.len() / 2)
}

// ---- a list: one octet as two hex digits

#[tactic(auto, using(crate::specs::Laws::Octets::list_ways))]
pub fn is_list(word: &[u8]) -> bool
    ensures { result ≡ is_list word.now }
{
    word.len() == 2 && are_hex(word)
}

// The octet of a list.
pub fn list(word: &[u8]) -> Option<u8>
    ensures { result ≡ then_some (is_list word.now) (list_in word.now) }
{
    if is_list(word) {
        Some(octet(word[0], word[1]))
    } else {
        None
    }
}
