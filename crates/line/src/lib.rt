// The program's work without its input and output: a file checked, and the line that says what the check answered. Nothing is asked of what
// is lent.
#![tactic(auto)]

ghost use Rattle.std.specs.Prelude.{Some, ◌≡◌, [], ◌∷◌, ◌++◌, ◌+◌, ◌≤◌, ◌%◌, length};
ghost use Rattle.line.specs.Decimal.{digit_zero, most_digits, digits, places, decimal};
ghost use Rattle.line.specs.Lines.{longest_line, line_of, text_of, over_from, Shows, Prints};

use std::fmt;

// The most digits of a number of 64 bits.
const DIGITS: usize = 20;

// The most bytes of a line: three numbers, and one byte behind each.
pub const LONGEST: usize = 3 * (DIGITS + 1);

// How many bytes of an input decide its line: one more than the longest file has, so that a longer one is seen to be too long.
pub const ROOM: usize = template::LONGEST + 1;

// What the check of a file answered; its text is the program's line.
#[derive(Clone, Copy, Debug, PartialEq, Eq)]
pub struct Line {
    pub answer: u32,
    pub number: u64,
    pub images: u64,
}

impl fmt::Display for Line {
    ghost output = { λ l. Some (text_of l) };

    fn fmt<W: fmt::Write>(&self, f: &mut fmt::Formatter<W>) -> fmt::Result {
        let answer = self.answer;
        let number = self.number;
        let images = self.images;
        write!(f, "{answer} {number} {images}\n")
    }
}

// A line's text: its bytes, and how many they are; zeros behind them.
#[derive(Clone, Copy, Debug, PartialEq, Eq)]
pub struct Text {
    pub bytes: [u8; LONGEST],
    pub len: usize,
}

impl Line {
    // The line's text. Nothing can fail here, where a formatter may.
    pub fn text(&self) -> Text
        ensures { Shows result (text_of self.now) }
    {
        line_of(u64::from(self.answer), self.number, self.images)
    }
}

// The last digit of a number.
fn digit(n: u64) -> u8
    ensures { result ≡ digit_zero + n % 10 }
{
    b'0' + (n % 10) as u8
}

// How many digits a number has.
#[tactic(auto, using(crate::proofs::DecimalLaws::counts))]
fn count(n: u64) -> usize
    ensures { (result ≡ places n) × (result ≤ most_digits) }
{
    let mut rest = n;
    for k in 1..DIGITS {
        if rest < 10 {
            return k;
        }
        rest /= 10;
    }
    DIGITS
}

// Writes the last k digits of a number from a place on, the last one first.
#[tactic(auto, using(crate::proofs::LineLaws::spells))]
fn put_digits(out: &mut [u8], at: usize, k: usize, n: u64)
    requires { at + k ≤ length out.old }
    ensures { out.new ≡ over_from at (digits k n) out.old }
{
    let mut rest = n;
    for i in (at..at + k).rev() {
        out[i] = digit(rest);
        rest /= 10;
    }
}

// Writes a number and the byte that ends it from a place on, and gives the place behind them.
#[tactic(auto, using(crate::proofs::LineLaws::ends))]
fn put_number(out: &mut [u8], at: usize, n: u64, last: u8) -> usize
    requires { at + (most_digits + 1) ≤ length out.old }
    ensures out_after { out.new ≡ over_from at (decimal n ++ (last ∷ [])) out.old }
    ensures value { (result ≡ at + length (decimal n ++ (last ∷ []))) × (result ≤ at + (most_digits + 1)) }
{
    let k = count(n);
    let end = at + k;
    out[end] = last;
    put_digits(out, at, k, n);
    end + 1
}

// The text of three numbers.
fn line_of(answer: u64, number: u64, images: u64) -> Text
    ensures { Shows result (line_of answer number images) }
{
    let mut bytes = [0u8; LONGEST];
    let second = put_number(&mut bytes, 0, answer, b' ');
    let third = put_number(&mut bytes, second, number, b' ');
    let len = put_number(&mut bytes, third, images, b'\n');
    Text {
        bytes: bytes,
        len: len,
    }
}

// Checks a template file with the largest budget, which always decides, over a lent worktable.
pub fn checked(file: &[u8], table: &mut [u64]) -> Line
    ensures prints { Prints file.now table.old result table.new }
    ensures fits { length (text_of result) ≤ longest_line }
{
    let reply = rounds::check(file, table, rounds::ROUNDS);
    Line {
        answer: rounds::answer(reply),
        number: rounds::number(reply),
        images: rounds::images(reply),
    }
}
