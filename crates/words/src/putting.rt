// Bytes and numbers put into a lent buffer from a place on: what fits is written, and the place where all of it would end is returned.
ghost use Rattle.std.specs.Prelude.{[], ◌∷◌, ◌++◌, ◌≡◌, ◌+◌, ◌≤◌};
ghost use Rattle.words.specs.Digits.{digits};
ghost use Rattle.words.specs.Writing.{Put};

fn digit(x: u64) -> u8
    requires { x ≤ 9 }
    ensures { result ≡ 48 + x }
{
    b'0' + x as u8
}

pub fn put_byte(buffer: &mut [u8], at: usize, byte: u8) -> usize
    ensures { Put at (byte ∷ []) buffer.old buffer.new result }
{
    if at < buffer.len() {
        buffer[at] = byte;
    }
    at.saturating_add(1)
}

pub fn put_bytes(buffer: &mut [u8], at: usize, bytes: &[u8]) -> usize
    ensures { Put at bytes.now buffer.old buffer.new result }
{
    let mut next = at;
    for &byte in bytes {
        next = put_byte(buffer, next, byte);
    }
    next
}

// A number in decimal: the digits of its tenth part, then the last.
pub fn put_number(buffer: &mut [u8], at: usize, n: u64) -> usize
    ensures { Put at (digits n) buffer.old buffer.new result }
{
    if n < 10 {
        return put_byte(buffer, at, digit(n));
    }
    let last = put_number(buffer, at, n / 10);
    put_byte(buffer, last, digit(n % 10))
}

// A number so far below zero.
pub fn put_below(buffer: &mut [u8], at: usize, n: u64) -> usize
    ensures { Put at (45 ∷ digits n) buffer.old buffer.new result }
{
    let next = put_byte(buffer, at, b'-');
    put_number(buffer, next, n)
}

// A number and the byte after it.
pub fn put_item(buffer: &mut [u8], at: usize, n: u64, end: u8) -> usize
    ensures { Put at (digits n ++ end ∷ []) buffer.old buffer.new result }
{
    let last = put_number(buffer, at, n);
    put_byte(buffer, last, end)
}
