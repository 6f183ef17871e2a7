// The constant table of lengths: every chain part and subfield of the papers with its octets, its spare bits and its pieces.
// Promises: `format_of` says of a line what the papers' data say, and of a line behind the last that it is empty. Stands on papers.
#![tactic(auto)]

ghost use Rattle.std.specs.Prelude.{◌≡◌, ◌<◌};
ghost use Rattle.lengths.specs.Lines.{placed_at, format_of};

// The format of a line, a chain part or a subfield.
#[derive(Clone, Copy, Default)]
pub struct Format {
    // How many octets it has, and which bits of them are spare.
    pub octets: usize,
    pub spare: u64,
    // Its pieces, an octet each, the first lowest: kind × 32 + bits, kind 1 plain, 2 signed, 3 a latitude, 4 an altitude, 0 for bits that hold no number; and how
    // many there are.
    pub pieces: u64,
    pub runs: usize,
    // The bits below its pieces: 1 in a chain part, for FX, and 0 in a subfield.
    pub below: u64,
    // The slot of its first number, counted from its item's first.
    pub first: usize,
    // Which number of the chain says that it is there, if it is a subfield.
    pub flag: usize,
}

// The table of item and subfield lengths, beside the papers: of each chain part and subfield its octets, and its mask, the spare bits in the order in which the
// paper prints its bits, an octet's together. Behind it stand the document and section of each paper that prints it, its item, and its part or its subfield's
// number and name. An item's chain parts come first. The tables are statics, which a lookup reads where they stand: it builds the whole of a const first.
#[derive(Clone, Copy)]
struct Length(usize, u64);

static LENGTHS: [Length; 46] = [
    Length(1, 0b00000000), // 000 2.3 MD5 part 1
    Length(1, 0b00000001), // 000 2.3 MD5 #1 SUM
    Length(4, 0b11000000_00000000_11000000_11000000), // 000 2.3 MD5 #2 PMN
    Length(6, 0b00000000_00000000_00000000_00000000_00000000_00000000), // 000 2.3 MD5 #3 POS
    Length(2, 0b10000000_00000000), // 000 2.3 MD5 #4 GA
    Length(2, 0b00010000_00000000), // 000 2.3 MD5 #5 EM1
    Length(1, 0b00000000), // 000 2.3 MD5 #6 TOS
    Length(1, 0b11000000), // 000 2.3 MD5 #7 XP
    Length(1, 0b00000000), // 000 2.4, 004 2.4 M5N part 1
    Length(1, 0b01111110), // 000 2.4, 004 2.4 M5N part 2
    Length(1, 0b00000001), // 000 2.4, 004 2.4 M5N #1 SUM
    Length(4, 0b11000000_00000000_11110000_00000000), // 000 2.4, 004 2.4 M5N #2 PMN
    Length(6, 0b00000000_00000000_00000000_00000000_00000000_00000000), // 000 2.4, 004 2.4 M5N #3 POS
    Length(2, 0b10000000_00000000), // 000 2.4, 004 2.4 M5N #4 GA
    Length(2, 0b00010000_00000000), // 000 2.4, 004 2.4 M5N #5 EM1
    Length(1, 0b00000000), // 000 2.4, 004 2.4 M5N #6 TOS
    Length(1, 0b11000000), // 000 2.4, 004 2.4 M5N #7 XP
    Length(1, 0b11100000), // 000 2.4, 004 2.4 M5N #8 FOM
    Length(1, 0b11111000), // 000 2.5, 004 2.5 M4E part 1
    Length(1, 0b00001110), // 000 2.6, 004 2.6 RPC part 1
    Length(1, 0b00000000), // 000 2.6, 004 2.6 RPC #1 SCO
    Length(2, 0b00000000_00000000), // 000 2.6, 004 2.6 RPC #2 SCR
    Length(2, 0b00000000_00000000), // 000 2.6, 004 2.6 RPC #3 RW
    Length(2, 0b00000000_00000000), // 000 2.6, 004 2.6 RPC #4 AR
    Length(3, 0b00000000_00000000_00000000), // 000 2.7, 004 2.7 ERR
    Length(2, 0b11110000_00000000), // 003 2.3 BPS
    Length(2, 0b11110000_00000000), // 003 2.4 SelH
    Length(1, 0b00000011), // 003 2.5 NAV
    Length(1, 0b00000000), // 003 2.6 GAO
    Length(2, 0b00000000_00000000), // 003 2.7 SGV part 1
    Length(1, 0b00000000), // 003 2.7 SGV part 2
    Length(1, 0b00000000), // 003 2.8 STA part 1
    Length(1, 0b00000000), // 003 2.8 STA part 2
    Length(1, 0b00000000), // 003 2.8 STA part 3
    Length(1, 0b00000000), // 003 2.8 STA part 4
    Length(1, 0b00000000), // 003 2.8 STA part 5
    Length(1, 0b00000010), // 003 2.8 STA part 6
    Length(2, 0b00000000_00000000), // 003 2.9 TNH
    Length(1, 0b00000010), // 003 2.10 MES part 1
    Length(1, 0b00000000), // 003 2.10 MES #1 SUM
    Length(4, 0b11000000_00000000_11111000_00000000), // 003 2.10 MES #2 PNO
    Length(2, 0b01010000_00000000), // 003 2.10 MES #3 EM1
    Length(1, 0b11000000), // 003 2.10 MES #4 XP
    Length(1, 0b11100000), // 003 2.10 MES #5 FOM
    Length(2, 0b01010000_00000000), // 003 2.10 MES #6 M2
    Length(4, 0b11000000_00000000_11000000_00000000), // 004 2.3 TA
];

// The same lines by their pieces, in the order of the fields of a format: pieces, runs, bits below, first slot, flag. They are a table of their own: a row of
// both, its fields named, would take nine lines of this file, and a paper's rows could not be laid beside the paper.
#[derive(Clone, Copy)]
struct Pieces(u64, usize, u64, usize, usize);

static PIECES: [Pieces; 46] = [
    // document 000, 2.3 MD5
    Pieces(0x21_21_21_21_21_21_21, 7, 1, 0, 0), // part 1
    Pieces(0x01_21_21_21_21_21_21_21, 8, 0, 7, 0), // SUM
    Pieces(0x26_02_25_21_02_2E_02, 7, 0, 14, 1), // PMN
    Pieces(0x58_78, 2, 0, 18, 2), // POS
    Pieces(0x8E_21_01, 3, 0, 20, 3), // GA
    Pieces(0x2C_01_21_21_21, 5, 0, 22, 4), // EM1
    Pieces(0x48, 1, 0, 26, 5), // TOS
    Pieces(0x21_21_21_21_21_21_02, 7, 0, 27, 6), // XP
    // document 000, 2.4 M5N; document 004, 2.4
    Pieces(0x21_21_21_21_21_21_21, 7, 1, 0, 0), // part 1
    Pieces(0x06_21, 2, 1, 7, 0), // part 2
    Pieces(0x01_21_21_21_21_21_21_21, 8, 0, 8, 0), // SUM
    Pieces(0x2B_21_04_2E_02, 5, 0, 15, 1), // PMN
    Pieces(0x58_78, 2, 0, 18, 2), // POS
    Pieces(0x8E_21_01, 3, 0, 20, 3), // GA
    Pieces(0x2C_01_21_21_21, 5, 0, 22, 4), // EM1
    Pieces(0x48, 1, 0, 26, 5), // TOS
    Pieces(0x21_21_21_21_21_21_02, 7, 0, 27, 6), // XP
    Pieces(0x25_03, 2, 0, 33, 7), // FOM
    // document 000, 2.5 M4E; document 004, 2.5
    Pieces(0x22_05, 2, 1, 0, 0), // part 1
    // document 000, 2.6 RPC; document 004, 2.6
    Pieces(0x03_21_21_21_21, 5, 1, 0, 0), // part 1
    Pieces(0x28, 1, 0, 4, 0), // SCO
    Pieces(0x30, 1, 0, 5, 1), // SCR
    Pieces(0x30, 1, 0, 6, 2), // RW
    Pieces(0x30, 1, 0, 7, 3), // AR
    // document 000, 2.7 ERR; document 004, 2.7
    Pieces(0x38, 1, 0, 0, 0),
    // document 003, 2.3 BPS
    Pieces(0x2C_04, 2, 0, 0, 0),
    // document 003, 2.4 SelH
    Pieces(0x2A_21_21_04, 4, 0, 0, 0),
    // document 003, 2.5 NAV
    Pieces(0x02_21_21_21_21_21_21, 7, 0, 0, 0),
    // document 003, 2.6 GAO
    Pieces(0x25_23, 2, 0, 0, 0),
    // document 003, 2.7 SGV
    Pieces(0x2B_21_21_21_21, 5, 1, 0, 0), // part 1
    Pieces(0x27, 1, 1, 5, 0), // part 2
    // document 003, 2.8 STA
    Pieces(0x21_21_22_21_21_21, 6, 1, 0, 0), // part 1
    Pieces(0x22_21_23_21, 4, 1, 6, 0), // part 2
    Pieces(0x21_21_21_21_22_21, 6, 1, 10, 0), // part 3
    Pieces(0x23_21_22_21, 4, 1, 16, 0), // part 4
    Pieces(0x23_21_22_21, 4, 1, 20, 0), // part 5
    Pieces(0x01_25_21, 3, 1, 24, 0), // part 6
    // document 003, 2.9 TNH
    Pieces(0x30, 1, 0, 0, 0),
    // document 003, 2.10 MES
    Pieces(0x01_21_21_21_21_21_21, 7, 1, 0, 0), // part 1
    Pieces(0x21_21_21_21_21_21_21_21, 8, 0, 6, 0), // SUM
    Pieces(0x2B_05_2E_02, 4, 0, 14, 1), // PNO
    Pieces(0x2C_01_21_01_21, 5, 0, 16, 2), // EM1
    Pieces(0x21_21_21_21_21_21_02, 7, 0, 19, 3), // XP
    Pieces(0x25_03, 2, 0, 25, 4), // FOM
    Pieces(0x2C_01_21_01_21, 5, 0, 26, 5), // M2
    // document 004, 2.3 TA
    Pieces(0x4E_02_4E_02, 4, 0, 0, 0),
];

// A line of the table by its number. Behind the last line there is an empty one.
pub fn format_of(line: usize) -> Format
    ensures { result ≡ format_of (placed_at line) }
{
    if line < LENGTHS.len() {
        let Length(octets, spare) = LENGTHS[line];
        let Pieces(pieces, runs, below, first, flag) = PIECES[line];
        return Format {
            octets,
            spare,
            pieces,
            runs,
            below,
            first,
            flag,
        };
    }
    Format::default()
}
