// Two texts beside each other: whether one begins with the other, and the first line in which they differ.
// Promises: each is one equation of guess's definitions, for any two texts. Stands on no code.
#![tactic(auto)]

ghost use Rattle.std.specs.Prelude.{◌≡◌};
ghost use Rattle.guess.specs.Guess.{begins, first_wrong};
ghost use Rattle.compare.specs.Lines.{line_of};

// Whether a text begins with a word.
pub fn opens(w: &[u8], t: &[u8]) -> bool
    ensures { result ≡ begins w.now t.now }
{
    t.starts_with(w)
}

// The line, from 1, in which two texts differ first.
pub fn first_wrong(s: &[u8], t: &[u8]) -> Option<usize>
    ensures { result ≡ line_of (first_wrong 1 s.now t.now) }
{
    let mut line = 1;
    for (a, b) in s.iter().zip(t) {
        if a != b {
            return Some(line);
        }
        if *a == b'\n' {
            line += 1;
        }
    }
    if s.len() == t.len() {
        return None;
    }
    Some(line)
}
