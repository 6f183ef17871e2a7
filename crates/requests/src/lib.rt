// Answers a line of the co-process (docs/PROTOCOL.md): the parser says which request it is and where its words start, and a handler answers by the words.
// Promises: for every line the answer that the protocol defines, and of `reply` that all of it is there. Stands on protocol, words and replies, and on
// the operations, which it knows by their contracts.
#![tactic(auto)]

ghost use Rattle.std.specs.Prelude.{◌≡◌, ◌∷◌, ◌<◌, ◌≤◌, length, take};
ghost use Rattle.scope.specs.Reading.{read_of};
ghost use Rattle.scope.specs.Sheet.{sheet_of};
ghost use Rattle.text.specs.Typed.{Typed};
ghost use Rattle.text.specs.Typing.{Types};
ghost use Rattle.words.specs.Numbers.{value_in};
ghost use Rattle.hex_words.specs.Octets.{octets_in, list_in};
ghost use Rattle.answers.specs.Answers.{listed, read_answer, write_answer, sheet_answer, view_answer, choose_answer, remove_answer, replace_answer, copy_answer, rebuild_answer, asked, answer_of};
ghost use Rattle.protocol.specs.Requests.{number_of};
ghost use Rattle.replies.specs.Told.{with_told};
ghost use Rattle.requests.specs.Laws.Requests.{word_in, words_from};

use layout::Refusal;
use protocol::Request;
use replies::Told;
use text::Text;

// A line that asks for something, and where its words start; its name is word 0.
#[derive(Clone, Copy)]
struct Asked<'a> {
    line: &'a [u8],
    starts: &'a [usize; 10],
}

// ---- its words, by their kinds

impl<'a> Asked<'a> {
    fn word(&self, k: usize) -> &'a [u8]
        requires { k < 10 }
        ensures { result.now ≡ word_in self.now.line.now self.now.starts.now k }
    {
        words::word_at(self.line, self.starts[k])
    }

    fn small(&self, k: usize) -> u8
        requires { k < 10 }
        ensures { result ≡ value_in 255 (word_in self.now.line.now self.now.starts.now k) }
    {
        words::small(self.word(k))
    }

    fn list(&self, k: usize) -> u8
        requires { k < 10 }
        ensures { result ≡ list_in (word_in self.now.line.now self.now.starts.now k) }
    {
        hex_words::list(self.word(k)).unwrap_or(0)
    }

    // The octets that a word writes, which are lent room for them.
    fn octets<'b>(&self, k: usize, room: &'b mut [u8; 4096]) -> &'b [u8]
        requires { k < 10 }
        ensures { result.now ≡ octets_in (word_in self.now.line.now self.now.starts.now k) }
    {
        let n = hex_words::octets(self.word(k), room).unwrap_or(0);
        &room[..n]
    }

    // As much of an output as a word says.
    fn output<'b>(&self, k: usize, room: &'b mut [u8; 300]) -> &'b mut [u8]
        requires { k < 10 }
        ensures { length result.now ≡ value_in 300 (word_in self.now.line.now self.now.starts.now k) }
    {
        let n = words::room(self.word(k));
        &mut room[..n]
    }
}

// What an operation answered, with its refusal as replies tells it.
fn told<T>(answer: Result<T, Refusal>) -> Result<T, Told>
    ensures { result ≡ with_told answer }
{
    match answer {
        Ok(given) => Ok(given),
        Err(refused) => Err(Told::from(refused)),
    }
}

// ---- a handler for each request, by the words of the line

impl Asked<'_> {
    fn read(&self, reply: &mut Text)
        ensures { Typed (read_answer (word_in self.now.line.now self.now.starts.now)) reply.old reply.new }
    {
        let mut room = [0; 4096];
        let cat = self.small(1);
        let field = self.octets(2, &mut room);
        let reading = reader::read(cat, field);
        replies::reading_text(told(reading.answer), &reading.kept, reply);
    }

    fn write(&self, reply: &mut Text)
        requires { length self.now.line.now ≤ 16384 }
        ensures { Typed (write_answer (word_in self.now.line.now self.now.starts.now) (words_from self.now.line.now self.now.starts.now)) reply.old reply.new }
    {
        let mut room = [0; 300];
        let out = self.output(1, &mut room);
        let kept = protocol::record_at(self.line, self.starts[2]);
        let answer = writer::write(kept, out);
        replies::left(told(answer), out, reply);
    }

    fn sheet(&self, reply: &mut Text)
        ensures { Typed (sheet_answer (word_in self.now.line.now self.now.starts.now)) reply.old reply.new }
    {
        let mut room = [0; 4096];
        let cat = self.small(1);
        let field = self.octets(2, &mut room);
        listed(cat, field, reply);
    }

    fn view(&self, reply: &mut Text)
        ensures { Typed (view_answer (word_in self.now.line.now self.now.starts.now)) reply.old reply.new }
    {
        let mut room = [0; 4096];
        let cat = self.small(1);
        let field = self.octets(2, &mut room);
        let item = self.small(3);
        let view = views::view_answer(cat, field, item);
        replies::view_text(told(view), views::view(cat, field, item), reply);
    }

    fn choose(&self, reply: &mut Text)
        ensures { Typed (choose_answer (word_in self.now.line.now self.now.starts.now)) reply.old reply.new }
    {
        let mut room_base = [0; 4096];
        let mut room_correction = [0; 4096];
        let cat = self.small(1);
        let base = self.octets(2, &mut room_base);
        let correction = self.octets(3, &mut room_correction);
        let item = self.small(4);
        let choice = views::choose_answer(cat, base, correction, item);
        let part = views::choose(cat, base, correction, item);
        replies::choice_text(choice.which, told(choice.view), part, reply);
    }

    fn remove(&self, reply: &mut Text)
        ensures { Typed (remove_answer (word_in self.now.line.now self.now.starts.now)) reply.old reply.new }
    {
        let mut room = [0; 4096];
        let mut room_out = [0; 300];
        let cat = self.small(1);
        let field = self.octets(2, &mut room);
        let list = self.list(3);
        let item = self.small(4);
        let out = self.output(5, &mut room_out);
        let answer = desk::remove(cat, field, list, item, out);
        replies::left(told(answer), out, reply);
    }

    fn replace(&self, reply: &mut Text)
        ensures { Typed (replace_answer (word_in self.now.line.now self.now.starts.now)) reply.old reply.new }
    {
        let mut room = [0; 4096];
        let mut room_new = [0; 4096];
        let mut room_out = [0; 300];
        let cat = self.small(1);
        let field = self.octets(2, &mut room);
        let list = self.list(3);
        let item = self.small(4);
        let new = self.octets(5, &mut room_new);
        let out = self.output(6, &mut room_out);
        let answer = desk::replace(cat, field, list, item, new, out);
        replies::left(told(answer), out, reply);
    }

    fn copy(&self, reply: &mut Text)
        ensures { Typed (copy_answer (word_in self.now.line.now self.now.starts.now)) reply.old reply.new }
    {
        let mut room = [0; 4096];
        let mut room_out = [0; 300];
        let cat = self.small(1);
        let field = self.octets(2, &mut room);
        let withheld = self.list(3);
        let out = self.output(4, &mut room_out);
        let answer = visitors::copy(cat, field, withheld, out);
        replies::left(told(answer), out, reply);
    }

    fn rebuild(&self, reply: &mut Text)
        ensures { Typed (rebuild_answer (word_in self.now.line.now self.now.starts.now)) reply.old reply.new }
    {
        let mut room = [0; 4096];
        let mut room_out = [0; 300];
        let text = self.octets(1, &mut room);
        let out = self.output(2, &mut room_out);
        let rebuilt = rebuild::rebuild(text, out);
        replies::rebuilt_text(told(rebuilt), out, reply);
    }

    fn answer(&self, request: Request, reply: &mut Text)
        requires { length self.now.line.now ≤ 16384 }
        ensures { Typed (asked (number_of request) (word_in self.now.line.now self.now.starts.now) (words_from self.now.line.now self.now.starts.now)) reply.old reply.new }
    {
        match request {
            Request::Read => self.read(reply),
            Request::Write => self.write(reply),
            Request::Sheet => self.sheet(reply),
            Request::View => self.view(reply),
            Request::Choose => self.choose(reply),
            Request::Remove => self.remove(reply),
            Request::Replace => self.replace(reply),
            Request::Copy => self.copy(reply),
            Request::Rebuild => self.rebuild(reply),
        }
    }
}

// The lines of a field's sheet, or the refusal of the field. Of its own: in the handler, which holds an array, the proof of the refusal did not close.
fn listed(cat: u8, field: &[u8], reply: &mut Text)
    ensures { Typed (listed (read_of cat field.now).answer (sheet_of (cat ∷ field.now))) reply.old reply.new }
{
    let reading = reader::read(cat, field);
    match reading.answer {
        Ok(_) => {
            let mut sheet = Text::new();
            sheet::listed(cat, field, &mut sheet);
            replies::sheet_text(sheet.as_slice(), reply);
        }
        Err(refused) => replies::refusal(Told::from(refused), reply),
    }
}

// ---- a line

// The answer to a line, which comes without its line feed.
pub fn answer(line: &[u8], reply: &mut Text)
    ensures { Typed (answer_of line.now) reply.old reply.new }
{
    let parsed = protocol::parse(line);
    let asked = Asked {
        line,
        starts: &parsed.starts,
    };
    match parsed.judged {
        Ok(request) => asked.answer(request, reply),
        Err(wrong) => replies::bad_request(wrong, reply),
    }
    reply.line_end();
}

// The same from the start of a text on, whatever stands there, and so all of it.
pub fn reply(line: &[u8], text: &mut Text)
    ensures typed { Types (answer_of line.now) text.old.octets 0 text.new.octets text.new.end }
    ensures whole { take text.new.end text.new.octets ≡ answer_of line.now }
{
    text.end = 0;
    answer(line, text);
}
