// Numbers and fields of lines as bytes, written into a lent buffer from a place on. Each function that writes gives the place after the bytes that it wrote.
#![tactic(auto)]

ghost use Rattle.std.specs.Prelude.{◌≡◌, ◌∷◌, ◌++◌, ◌+◌, ◌%◌, ◌≤◌, ◌<◌, length, drop};
ghost use Rattle.definitions.specs.Text.{decimal};
ghost use Rattle.writing.specs.Writing.{Wrote};
ghost use Rattle.text.specs.Fields.{separator};

// Writes what stands before field `i` of a line: a space, but nothing before the first.
pub fn separate(out: &mut [u8], at: usize, i: usize) -> usize
    requires { at + length (separator i) ≤ length out.old }
    ensures { Wrote out.old at (separator i) out.new result }
{
    if i == 0 {
        return at;
    }
    writing::byte(b' ', out, at)
}

// The last digit of a number.
fn digit(number: usize) -> u8
    ensures { result ≡ 48 + number % 10 }
{
    b'0' + (number % 10) as u8
}

// Writes a number's digits at the end of `room`, and gives the place of the first.
fn fill_digits(room: &mut [u8], number: usize) -> usize
    requires { length room.old ≡ 20 }
    ensures { (drop result room.new ≡ decimal number) × (result ≤ 20) }
{
    let mut left = number;
    for i in (0..20).rev() {
        room[i] = digit(left);
        left /= 10;
        if left == 0 {
            return i;
        }
    }
    0
}

// The number of bytes of a number in decimal.
pub fn decimal_length(number: usize) -> usize
    ensures { result ≡ length (decimal number) }
{
    let mut room = [0u8; 20];
    let first = fill_digits(&mut room, number);
    20 - first
}

// Writes a number in decimal.
pub fn write_decimal(out: &mut [u8], at: usize, number: usize) -> usize
    requires { at + length (decimal number) ≤ length out.old }
    ensures { Wrote out.old at (decimal number) out.new result }
{
    let mut room = [0u8; 20];
    let first = fill_digits(&mut room, number);
    writing::write(&room[first..], out, at)
}

// Writes a number as a field after another.
pub fn write_number(out: &mut [u8], at: usize, number: usize) -> usize
    requires { at + length (32 ∷ decimal number) ≤ length out.old }
    ensures { Wrote out.old at (32 ∷ decimal number) out.new result }
{
    let to = writing::byte(b' ', out, at);
    write_decimal(out, to, number)
}

// Writes a word, and a number as the field after it.
pub fn write_named(out: &mut [u8], at: usize, word: &[u8], number: usize) -> usize
    requires { at + length (word.now ++ (32 ∷ decimal number)) ≤ length out.old }
    ensures { Wrote out.old at (word.now ++ (32 ∷ decimal number)) out.new result }
{
    let to = writing::write(word, out, at);
    write_number(out, to, number)
}
