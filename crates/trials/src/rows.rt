// Rows of standard input: fields parted by `|`, the words of a field parted by blanks, numbers in decimal.
ghost use Rattle.std.specs.Prelude.{◌≤◌, length};

// Part k of a row, from 0, where its parts are parted by a byte; empty where there is none.
pub fn part(row: &[u8], byte: u8, k: usize) -> &[u8]
    ensures { length result.now ≤ length row.now }
{
    row.split(|b| *b == byte).nth(k).unwrap_or(&[])
}

// What stands behind the first blank; nothing where there is none.
pub fn behind(bytes: &[u8]) -> &[u8]
    ensures { length result.now ≤ length bytes.now }
{
    match bytes.iter().position(|b| *b == b' ') {
        Some(at) => &bytes[at + 1..],
        None => &[],
    }
}

// The value that digits write, as far as it has 32 bits.
fn decimal(digits: &[u8]) -> u32 {
    let mut value: u64 = 0;
    for byte in digits {
        if *byte >= b'0' && value < 429_496_730 {
            value = 10 * value + u64::from(*byte - b'0');
        }
    }
    u32::try_from(value).unwrap_or(0)
}

// Part k of a row as a number.
pub fn number(row: &[u8], byte: u8, k: usize) -> u32 {
    decimal(part(row, byte, k))
}
