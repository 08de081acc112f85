// What a drawn number gives.

// The character of a digit below 16.
fn digit(d: u64) -> u8 {
    b"0123456789abcdef"[(d % 16) as usize]
}

// A byte to put into a text: in eight cases one of any value, one 0a, and else a digit.
pub(crate) fn byte_of(x: u64) -> u8 {
    match x % 8 {
        0 => (x / 8 % 256) as u8,
        1 => b'\n',
        _ => digit(x / 8),
    }
}

// A place below the bound, or 0 where there is none.
pub(crate) fn place_of(x: u64, below: usize) -> usize {
    (x % (below.max(1) as u64)) as usize
}
