// The program of 01 ('The sheet'): reads one category octet and a field from standard input, at most 256 octets, and writes their sheet to
// standard output. A read or a write that fails ends it, with a line on standard error.
// Promises: what it hands to be written is the sheet of what it was handed, to the octet; what is read and written nothing can promise.
// Stands on sheet, and on inputs for what is read.
#![tactic(auto)]

ghost use Rattle.std.specs.Prelude.{◌≡◌, ◌≤◌, length, take};
ghost use Rattle.scope.specs.Sheet.{sheet_of};
ghost use Rattle.longest.specs.Longest.{longest_sheet};

// The octets of the input that count: a category, and a field as long as LEN can say.
const MOST: usize = 256;

// Room for every sheet: the contract of `listed` asks for it.
const ROOM: usize = 2048;

fn main(rt: HostRuntime) {
    let mut input = [0u8; MOST];
    let Ok(n) = inputs::read_in(&mut rt.stdin(), &mut input) else {
        let _ = rt.eprintln("listing: standard input can't be read");
        return;
    };
    let mut output = [0u8; ROOM];
    if rt.write_all(listed(&input[..n], &mut output)).is_err() {
        let _ = rt.eprintln("listing: the sheet can't be written");
    }
}

// The sheet, in the front of the output. With so much room it is never refused.
fn listed<'a>(input: &[u8], output: &'a mut [u8]) -> &'a [u8]
    requires { longest_sheet ≤ length output.old }
    ensures { result.now ≡ sheet_of input.now }
{
    let len = sheet::sheet(input, output).unwrap();
    &output[..len]
}
