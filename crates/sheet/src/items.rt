// The items of a field: the lines of an item that are there, with the keys of their numbers.
// Promises: `named` types the text of an item, of those that some paper has. Stands on lengths and shapes for the lines of an item, and on its numbers.
ghost use Rattle.std.specs.Prelude.{◌≡◌, [], ◌+◌, ◌-◌, ◌≤◌, ◌<◌, length, MatchOption};
ghost use Rattle.scope.specs.Sheet.{key_line, decimal, chain_text};
ghost use Rattle.shapes.specs.Shapes.{item_at};
ghost use Rattle.text.specs.Typed.{Typed};
ghost use Rattle.sheet.specs.Keys.{span};
ghost use Rattle.sheet.specs.Lines.{is_there, line_keyed, lines_keyed, item_keyed};
ghost use Rattle.sheet.specs.Items.{named_at, ItemTyped, KeysOf};

use crate::numbers;
use layout::Numbers;
use text::Text;

// The octets of the first group of keys, with its space.
fn span(keys: &[u8]) -> usize
    ensures { (result ≡ span keys.now) × (result ≤ length keys.now) }
{
    match keys.iter().position(|&o| o == b' ') {
        Some(i) => i + 1,
        None => keys.len(),
    }
}

// What a record holds of an item: the parts of its chain, and its numbers, the first of them in slot base.
#[derive(Clone, Copy)]
pub struct Held<'a> {
    pub count: usize,
    pub numbers: &'a Numbers,
    pub base: usize,
}

impl Held<'_> {
    // Whether line b is there, the i-th of the item's: a chain part if the count reaches it, a subfield if its flag is 1.
    fn has(&self, b: usize, i: usize, parts: usize) -> bool
        requires { self.now.base ≤ 255 }
        ensures { result ≡ is_there self.now.numbers.now (self.now.count - i) b (parts - i) self.now.base }
    {
        if i < parts {
            return i < self.count;
        }
        let format = lengths::format_of(b);
        flags::is_one(layout::number_at(self.numbers, self.base + format.flag))
    }

    // Line b with its group of keys, if it is there.
    fn line(&self, keys: &[u8], b: usize, i: usize, parts: usize, sheet: &mut Text)
        requires { (self.now.base ≤ 255) × (length keys.now ≤ 1000) }
        ensures { Typed (line_keyed keys.now self.now.numbers.now (self.now.count - i) b (parts - i) self.now.base) sheet.old sheet.new }
    {
        if self.has(b, i, parts) {
            let format = lengths::format_of(b);
            numbers::group(keys, self.numbers, self.base + format.first, sheet);
        }
    }

    // So many lines from line b on, parts of them chain parts.
    fn lines(&self, keys: &[u8], b: usize, parts: usize, all: usize, sheet: &mut Text)
        requires { (self.now.base ≤ 255) × (b + all ≤ 300) × (length keys.now ≤ 1000) }
        ensures { Typed (lines_keyed keys.now self.now.numbers.now self.now.count b parts all self.now.base) sheet.old sheet.new }
    {
        let mut rest = keys;
        for i in 0..all {
            let (own, behind) = rest.split_at(span(rest));
            self.line(own, b + i, i, parts, sheet);
            rest = behind;
        }
    }

    // Item k of those that some paper has, by its keys. One without a chain is one line that is there.
    fn item(&self, keys: &[u8], k: usize, sheet: &mut Text)
        requires { (self.now.base ≤ 255) × (length keys.now ≤ 1000) }
        ensures { Typed (item_keyed keys.now self.now.numbers.now self.now.count k self.now.base) sheet.old sheet.new }
    {
        let shape = shapes::shape_at(k);
        let b = shape.0;
        let parts = shape.1;
        if parts == 0 {
            let one = Held { count: 1, ..*self };
            return one.lines(keys, b, 1, 1, sheet);
        }
        self.lines(keys, b, parts, parts + shape.2, sheet);
    }

    // Item k of those that some paper has, how many parts there are before a chain that can have several; past the last item nothing.
    pub fn named(&self, k: usize, sheet: &mut Text)
        requires { self.now.base ≤ 255 }
        ensures { ItemTyped k self.now.count self.now.numbers.now self.now.base sheet.old.octets sheet.old.end sheet.new.octets sheet.new.end }
    {
        let Some(keys) = keys_of(k) else { return };
        if let Some(key) = chain_of(k) {
            sheet.pair(key, self.count);
        }
        self.item(keys, k, sheet);
    }
}

// The key of how many parts the chain of item k has, if it can have several.
#[tactic(auto, using(crate::specs::Laws::Items::no_chain), unfolding(crate::specs::Items::named_at, crate::specs::Items::named, papers::specs::Names::names048, papers::specs::Names::names021, papers::specs::Names::names007, shapes::specs::Shapes::item_at, lengths::specs::Lines::items, papers::specs::Cat048::cat048, papers::specs::Cat021::cat021, papers::specs::Cat007::cat007, scope::specs::Sheet::chain_text))]
fn chain_of(k: usize) -> Option<&'static [u8]>
    ensures { (n : _) → MatchOption result (chain_text (item_at k) (named_at k) n ≡ []) (λ key. chain_text (item_at k) (named_at k) n ≡ key_line key.now (decimal n)) }
{
    match k {
        1 => Some(b"M5N.chain"),
        9 => Some(b"SGV.chain"),
        10 => Some(b"STA.chain"),
        _ => None,
    }
}

// The keys of item k: a group for each of its lines, ended by a space. The mark behind a key says what stands there: `=` one number, `@` a position, `>` an
// altitude, `<` an offset, `?` a pressure, `:` a flag that is not listed. The names are those of document 000, 2.3 to 2.7 (048), of document 003, 2.3 to 2.10
// (021), and of document 004, 2.3 (007).
fn keys_of(k: usize) -> Option<&'static [u8]>
    ensures { MatchOption result (14 ≤ k) (λ keys. KeysOf k keys.now) }
{
    match k {
        // 048
        0 => Some(
            b"::::::: MD5.SUM.M5=MD5.SUM.ID=MD5.SUM.DA=MD5.SUM.M1=MD5.SUM.M2=MD5.SUM.M3=MD5.SUM.MC= MD5.PMN.PIN=MD5.PMN.NAV=MD5.PMN.NAT=MD5.PMN.MIS= MD5.POS@ MD5.GA> MD5.EM1.V=MD5.EM1.G=MD5.EM1.L=MD5.EM1.EM1= MD5.TOS< MD5.XP.XP=MD5.XP.X5=MD5.XP.XC=MD5.XP.X3=MD5.XP.X2=MD5.XP.X1= ",
        ),
        1 => Some(
            b"::::::: : M5N.SUM.M5=M5N.SUM.ID=M5N.SUM.DA=M5N.SUM.M1=M5N.SUM.M2=M5N.SUM.M3=M5N.SUM.MC= M5N.PMN.PIN=M5N.PMN.NOV=M5N.PMN.NO= M5N.POS@ M5N.GA> M5N.EM1.V=M5N.EM1.G=M5N.EM1.L=M5N.EM1.EM1= M5N.TOS< M5N.XP.XP=M5N.XP.X5=M5N.XP.XC=M5N.XP.X3=M5N.XP.X2=M5N.XP.X1= M5N.FOM= ",
        ),
        2 => Some(b"M4E= "),
        3 => Some(b":::: RPC.SCO= RPC.SCR= RPC.RW= RPC.AR= "),
        4 => Some(b"ERR= "),
        // 021
        5 => Some(b"BPS? "),
        6 => Some(b"SelH.HRD=SelH.Stat=SelH.SelH= "),
        7 => Some(b"NAV.AP=NAV.VN=NAV.AH=NAV.AM=NAV.MFM#EP=NAV.MFM#VAL= "),
        8 => Some(b"GAO.Lateral=GAO.Longitudinal= "),
        9 => Some(b"SGV.STP=SGV.HTS=SGV.HTT=SGV.HRD=SGV.GSS= SGV.HGT= "),
        10 => Some(
            b"STA.ES=STA.UAT=STA.RCE#EP=STA.RCE#VAL=STA.RRL#EP=STA.RRL#VAL= STA.PS3#EP=STA.PS3#VAL=STA.TPW#EP=STA.TPW#VAL= STA.TSI#EP=STA.TSI#VAL=STA.MUO#EP=STA.MUO#VAL=STA.RWC#EP=STA.RWC#VAL= STA.DAA#EP=STA.DAA#VAL=STA.DF17CA#EP=STA.DF17CA#VAL= STA.SVH#EP=STA.SVH#VAL=STA.CATC#EP=STA.CATC#VAL= STA.TAO#EP=STA.TAO#VAL= ",
        ),
        11 => Some(b"TNH= "),
        12 => Some(
            b":::::: MES.SUM.M5=MES.SUM.ID=MES.SUM.DA=MES.SUM.M1=MES.SUM.M2=MES.SUM.M3=MES.SUM.MC=MES.SUM.PO= MES.PNO.PIN=MES.PNO.NO= MES.EM1.V=MES.EM1.L=MES.EM1.EM1= MES.XP.XP=MES.XP.X5=MES.XP.XC=MES.XP.X3=MES.XP.X2=MES.XP.X1= MES.FOM= MES.M2.V=MES.M2.L=MES.M2.M2= ",
        ),
        // 007
        13 => Some(b"TA.TAmax=TA.TAmin= "),
        _ => None,
    }
}
