// The record as an array of 87 numbers, as it crosses to C: filled by reading a field, and written.
// Promises: the answer, and every element of lent memory afterwards; an array that has not 87 places is refused, and a refusal writes nothing.
// Stands on reader, which reads the numbers into the array itself, and on writer.
#![tactic(auto)]

ghost use Rattle.std.specs.Prelude.{◌≡◌, map, pos, length};
ghost use Rattle.layout.specs.Answer.{by_number};
ghost use Rattle.scope.specs.Outputs.{Leaves};
ghost use Rattle.scope.specs.Reading.{read_of};
ghost use Rattle.interface.specs.Arrays.{PLACES, Filled, are_octets, octet_of, of_array, write_array};

use layout::{Answer, Reason, Record, SLOTS};

// The places of a record's array.
const PLACES: usize = 10 + SLOTS;

fn are_octets(numbers: &[i32]) -> bool
    ensures { result ≡ are_octets numbers.now }
{
    for z in numbers {
        if u8::try_from(*z).is_err() {
            return false;
        }
    }
    true
}

// The octet that a number is; 0 for one that is none, as `octet_of` has it.
fn octet(z: i32) -> u8
    ensures { result ≡ octet_of z }
{
    u8::try_from(z).unwrap_or(0)
}

// Octets as numbers, and numbers as octets, from one slice into another that is as long. One function for both is no plainer: over a closure it could promise
// only what the closure may return at each place, and not the numbers.
fn widen(octets: &[u8], numbers: &mut [i32])
    requires { length octets.now ≡ length numbers.old }
    ensures { numbers.new ≡ map pos octets.now }
{
    for (i, o) in octets.iter().enumerate() {
        numbers[i] = i32::from(*o);
    }
}

fn narrow(numbers: &[i32], octets: &mut [u8])
    requires { length numbers.now ≡ length octets.old }
    ensures { octets.new ≡ map octet_of numbers.now }
{
    for (i, z) in numbers.iter().enumerate() {
        octets[i] = octet(*z);
    }
}

// The record of an array.
fn record_of(a: &[i32]) -> Record
    requires { length a.now ≡ PLACES }
    ensures { result ≡ of_array a.now }
{
    let mut parts = [0u8; 8];
    let mut numbers = [0i32; SLOTS];
    narrow(&a[2..10], &mut parts);
    numbers.copy_from_slice(&a[10..]);
    Record {
        cat: octet(a[0]),
        items: octet(a[1]),
        parts,
        numbers,
    }
}

// What a refused array answers, or what the writer does.
pub fn write_array(a: &[i32], out: &mut [u8]) -> Answer
    ensures { Leaves (write_array a.now (length out.old)) out.old (by_number result) out.new }
{
    if a.len() != PLACES {
        return Err(Reason::Unwritable.at(0));
    }
    if !layout::is_known(octet(a[0])) {
        return Err(Reason::Category.at(0));
    }
    if !are_octets(&a[1..10]) {
        return Err(Reason::Unwritable.at(0));
    }
    writer::write(record_of(a), out)
}

// The record of a field into an array, unless the field or the array is refused: an array of another length lends no places.
pub fn read_array(cat: u8, field: &[u8], out: &mut [i32]) -> Answer
    ensures { Filled (read_of cat field.now) out.old (by_number result) out.new }
{
    let mut parts = [0u8; 8];
    if out.len() != PLACES {
        return reader::read_into(cat, field, &mut parts, &mut out[..0]);
    }
    let len = reader::read_into(cat, field, &mut parts, &mut out[10..])?;
    out[0] = i32::from(cat);
    out[1] = i32::from(field[1]);
    widen(&parts, &mut out[2..10]);
    Ok(len)
}
