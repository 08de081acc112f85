// Hexadecimal digits: 0 to 9 and a to f.
#![tactic(auto)]

ghost use Rattle.std.specs.Prelude.{◌≡◌, ◌%◌};
ghost use Rattle.digits.specs.Digits.{hex_digit, digit_in, ValuesOfBytes};

// The value of a character 0-9 or a-f; none for any other byte.
pub fn value(c: u8) -> Option<u8>
    ensures { result ≡ digit_in c }
{
    match c {
        b'0'..=b'9' => Some(c - b'0'),
        b'a'..=b'f' => Some(c - b'a' + 10),
        _ => None,
    }
}

// The character of the lowest digit of d.
pub fn character(d: u8) -> u8
    ensures { result ≡ hex_digit (d % 16) }
{
    let low = d % 16;
    if low < 10 { 48 + low } else { 87 + low }
}

// The values of all bytes: 16 but for the digits. A table of bytes and not of options: digits come at random, a processor guesses no branch on them, and one look-up
// tells all. It is made for each chunk of input, so it is written out, with no loop.
pub fn values() -> [u8; 256]
    ensures { ValuesOfBytes result }
{
    let mut table = [16u8; 256];
    table[48] = 0;
    table[49] = 1;
    table[50] = 2;
    table[51] = 3;
    table[52] = 4;
    table[53] = 5;
    table[54] = 6;
    table[55] = 7;
    table[56] = 8;
    table[57] = 9;
    table[97] = 10;
    table[98] = 11;
    table[99] = 12;
    table[100] = 13;
    table[101] = 14;
    table[102] = 15;
    table
}
