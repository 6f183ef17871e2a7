// The program of 01's edges: lists each row of its table 'Octets tried at each edge', in that order, then views and chooses items and says angles.
// Each row is a line of the protocol (docs/PROTOCOL.md) behind which its answer stands. The file `stdout` is from outside: the answers by
// tests/refdesk.py, the angles by hand from the line below the table and, where it has none, from 'The sheet', and what they leave from 02, Ask 7.

#![tactic(auto)]

use text::Text;

fn main(rt: HostRuntime) {
    list_rows_of_parts(&rt);
    list_rows_of_numbers(&rt);
    view_items(&rt);
    view_refusals(&rt);
    choose_items(&rt);
    choose_refusals(&rt);
    say_angles(&rt);
    say_more_angles(&rt);
    read_worked_field(&rt);
}

// The table down to its row of FOM, whose second variant has a line of its own.
fn list_rows_of_parts(rt: &impl Print) {
    ask(rt, b"sheet 48 0200");
    ask(rt, b"sheet 48 0280");
    ask(rt, b"sheet 48 032006");
    ask(rt, b"sheet 48 03200F");
    ask(rt, b"sheet 48 032007");
    ask(rt, b"sheet 48 04400100");
    ask(rt, b"sheet 48 04400101");
    ask(rt, b"sheet 48 04400180");
    ask(rt, b"sheet 48 054001801F");
    ask(rt, b"sheet 48 0540018020");
}

// The rest of the table, whose last row is of two categories.
fn list_rows_of_numbers(rt: &impl Print) {
    ask(rt, b"sheet 48 0580103FD8");
    ask(rt, b"sheet 48 0580103FD7");
    ask(rt, b"sheet 48 048004FF");
    ask(rt, b"sheet 48 098020400000800000");
    ask(rt, b"sheet 48 098020400001800000");
    ask(rt, b"sheet 48 060801000000");
    ask(rt, b"sheet 48 030100");
    ask(rt, b"sheet 21 030100");
}

// The views of the present items cover a field from offset 2 on, and what stands behind LEN is in none.
fn view_items(rt: &impl Print) {
    ask(rt, b"view 48 0838068007010000FF 3");
    ask(rt, b"view 48 0838068007010000FF 4");
    ask(rt, b"view 48 0838068007010000FF 5");
    ask(rt, b"view 48 04400100 2");
    ask(rt, b"view 21 030100 8");
}

// The reader's refusals come first, then 12, then 15.
fn view_refusals(rt: &impl Print) {
    ask(rt, b"view 48 062806010000 1");
    ask(rt, b"view 48 062806010000 0");
    ask(rt, b"view 48 062806010000 6");
    ask(rt, b"view 21 030100 9");
    ask(rt, b"view 48 0280 1");
    ask(rt, b"view 48 032007 9");
    ask(rt, b"view 48 - 3");
    ask(rt, b"view 49 062806010000 3");
}

// The correction's own part if it has the item, else the base's.
fn choose_items(rt: &impl Print) {
    ask(rt, b"choose 48 062806010000 032004 3");
    ask(rt, b"choose 48 062806010000 032004 5");
    ask(rt, b"choose 48 062806010000 0200 5");
    ask(rt, b"choose 48 0200 062806010000 5");
    ask(rt, b"choose 48 062806010000 0838068007020000 5");
}

// 1, the base's refusal, the correction's, 12, 15; what the correction has doesn't save a refused base.
fn choose_refusals(rt: &impl Print) {
    ask(rt, b"choose 48 062806010000 032004 4");
    ask(rt, b"choose 48 062806010000 032004 6");
    ask(rt, b"choose 48 062806010000 032004 0");
    ask(rt, b"choose 48 0280 062806010000 3");
    ask(rt, b"choose 48 062806010000 032007 3");
    ask(rt, b"choose 48 03200F 0280 9");
    ask(rt, b"choose 49 0280 0280 9");
}

// The angles that 01 gives below its table, and what they leave: "so 16,384 leaves -16,384".
fn say_angles(rt: &impl Print) {
    say_angle(rt, 1);
    say_angle(rt, 16_384);
    say_angle(rt, -16_384);
    say_angle(rt, 4_194_304);
}

// The neighbours of a half, the other end of the latitude, both ends of the longitude, and zero between them.
fn say_more_angles(rt: &impl Print) {
    say_angle(rt, 16_383);
    say_angle(rt, 16_385);
    say_angle(rt, -4_194_304);
    say_angle(rt, -8_388_608);
    say_angle(rt, 8_388_607);
    say_angle(rt, 0);
}

// The field of README: M4E is 3, ERR is 65,536 steps.
fn read_worked_field(rt: &impl Print) {
    ask(rt, b"read 48 062806010000");
}

fn ask(rt: &impl Print, line: &[u8]) {
    let mut reply = Text::new();
    requests::reply(line, &mut reply);
    say(rt, line);
    say(rt, b" -> ");
    say(rt, reply.as_slice());
}

fn say_angle(rt: &impl Print, n: i32) {
    let angle = angle::exact(n);
    let mut words = Text::new();
    words.word(b"angle ");
    words.signed(i64::from(n));
    words.word(b" -> ");
    words.signed(angle.udeg);
    words.word(b" left ");
    words.signed(angle.left);
    words.line_end();
    say(rt, words.as_slice());
}

fn say(rt: &impl Print, words: &[u8]) {
    let _ = rt.write_all(words);
}
