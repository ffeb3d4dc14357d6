// UTF-8 by RFC 3629, a byte at a time: the classes of bytes, and what a text still needs to end its character.
// Every byte and every state is taken.
ghost use Rattle.std.specs.Prelude.{◌≡◌, List, ◌∷◌, ℕ, ◌<◌};
ghost use Rattle.model.specs.Utf8.{rows, after_in, characters};
ghost use Rattle.base_paths.specs.Classes.{row_in, after_row};
ghost use Rattle.base_paths.specs.Scan.{pending};

// The class of each byte from C0 to FF: the number of the row of RFC 3629's grammar that begins with it, in the order
// UTF8-1, UTF8-2, UTF8-3 (four rows), UTF8-4 (three); 9 where no character begins with it.
const CLASS: [u8; 64] = [
    // C0 and C1: no row
    9, 9,
    // C2 to DF: UTF8-2
    1, 1, 1, 1, 1, 1, 1, 1, 1, 1, 1, 1, 1, 1, 1, 1, 1, 1, 1, 1, 1, 1, 1, 1, 1, 1, 1, 1, 1, 1,
    // E0 to EF: UTF8-3, four rows
    2, // E0
    3, // E1
    3, // E2
    3, // E3
    3, // E4
    3, // E5
    3, // E6
    3, // E7
    3, // E8
    3, // E9
    3, // EA
    3, // EB
    3, // EC
    4, // ED
    5, // EE
    5, // EF
    // F0 to F4: UTF8-4, three rows
    6, // F0
    7, // F1
    7, // F2
    7, // F3
    8, // F4
    // F5 to FF: no row
    9, 9, 9, 9, 9, 9, 9, 9, 9, 9, 9,
];

// What a text still needs to end its character: need bytes, the next from low to high, the others from 80 to BF.
#[derive(Clone, Copy)]
pub struct Tail {
    pub need: u8,
    pub low: u8,
    pub high: u8,
}

// The class of a byte.
pub fn class_of(b: u8) -> u8
    ensures value { result ≡ row_in rows b }
    ensures upper_bound { result < 10 }
{
    // Below the table by comparison. ASCII first: it is most of what paths have.
    if b < 0x80 {
        return 0;
    }
    if b < 0xC0 {
        return 9;
    }
    CLASS[usize::from(b - 0xC0)]
}

fn tail_of(need: u8, low: u8, high: u8) -> Tail
    ensures { result ≡ record { need = need; low = low; high = high } }
{
    Tail { need, low, high }
}

// What must follow a first byte of class k. After one that begins no character nothing can. A match and no tables: each
// use of a table builds the whole of it.
fn after_class(k: u8) -> Tail
    ensures { pending result ≡ after_row rows k }
{
    match k {
        0 => tail_of(0, 0, 0),
        1 => tail_of(1, 0x80, 0xBF),
        2 => tail_of(2, 0xA0, 0xBF),
        3 | 5 => tail_of(2, 0x80, 0xBF),
        4 => tail_of(2, 0x80, 0x9F),
        6 => tail_of(3, 0x90, 0xBF),
        7 => tail_of(3, 0x80, 0xBF),
        8 => tail_of(3, 0x80, 0x8F),
        _ => tail_of(1, 1, 0),
    }
}

// What must follow the first byte of a character.
pub fn after_first(b: u8) -> Tail
    ensures { pending result ≡ after_in rows b }
{
    after_class(class_of(b))
}

// What is needed after one more byte.
pub fn next_tail(t: Tail, b: u8) -> Tail
    ensures { (s : List ℕ) → characters (pending result) s ≡ characters (pending t) (b ∷ s) }
{
    if t.need == 0 {
        return after_first(b);
    }
    if (t.low <= b) & (b <= t.high) {
        return tail_of(t.need - 1, 0x80, 0xBF);
    }
    tail_of(1, 1, 0)
}
