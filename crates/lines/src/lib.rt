// Joins the lines of an input from what each read brings.
// Promises: what is held of a line after every octet, and where each line ends; so the lines are those of the whole input, however it was cut into
// reads. Stands on nothing.
#![tactic(auto)]

ghost use Rattle.std.specs.Prelude.{◌≡◌, max, length};
ghost use Rattle.lines.specs.Joining.{Keeps, Joins, joined};

// The room for a line, one octet more than a line of the protocol may have: one that is too long is held so far, and so is seen to be too long.
pub const ROOM: usize = 16385;

// A line so far: the array that it is held in, and how many octets of it are held there.
#[derive(Drop)]
pub struct Line<'a> {
    pub octets: &'a mut [u8],
    pub held: usize,
}

impl Line<'_> {
    // An octet behind those that are held; one that has no room is left out.
    fn keep(&mut self, o: u8)
        ensures same { self.new.octets.ghost_name ≡ self.old.octets.ghost_name }
        ensures kept { Keeps self.old.octets.now self.old.held o self.new.held self.new.octets.now }
    {
        if self.held < self.octets.len() {
            self.octets[self.held] = o;
            self.held += 1;
        }
    }

    // Goes on with the line from a place of the octets on, up to its line feed or to the end of the octets; the place behind the line feed, where the line
    // ended.
    pub fn join(&mut self, octets: &[u8], from: usize) -> Option<usize>
        ensures same { self.new.octets.ghost_name ≡ self.old.octets.ghost_name }
        ensures joined { Joins octets.now from self.old.held self.old.octets.now (joined (max from (length octets.now)) self.new.held result) self.new.octets.now }
    {
        for i in from..octets.len() {
            let o = octets[i];
            if o == b'\n' {
                return Some(i + 1);
            }
            self.keep(o);
        }
        None
    }
}
