// The number that a word means, by document 01's form: 0, or 1 to 9 digits without a leading zero, with or without a minus before them.
ghost use Rattle.std.specs.Prelude.{◌≡◌, ◌≤◌, length};
ghost use Rattle.words.specs.Numbers.{is_digit, spelled_in, count_in, number as number_of, number_in};

const MOST_DIGITS: usize = 9;

pub fn is_digit(b: u8) -> bool
    ensures { result ≡ is_digit b }
{
    b.is_ascii_digit()
}

// The number that at most nine bytes spell; none where one of them is no digit.
fn spell(word: &[u8]) -> Option<u32>
    requires { length word.now ≤ 9 }
    ensures { result ≡ spelled_in 0 word.now }
{
    let mut n: u32 = 0;
    for &b in word {
        if !is_digit(b) {
            return None;
        }
        n = 10 * n + u32::from(b - b'0');
    }
    Some(n)
}

// The number of 1 to 9 digits, the first of them no zero.
fn count(word: &[u8]) -> Option<u32>
    ensures { result ≡ count_in word.now }
{
    let (first, rest) = word.split_first()?;
    if *first == b'0' {
        return None;
    }
    if MOST_DIGITS <= rest.len() {
        return None;
    }
    spell(word)
}

pub fn number(word: &[u8]) -> Option<i32>
    ensures { result ≡ number_in (number_of word.now) }
{
    let (first, rest) = word.split_first()?;
    if (*first == b'0') & rest.is_empty() {
        return Some(0);
    }
    if *first == b'-' {
        let below = count(rest)?;
        return Some(-(below as i32));
    }
    let n = count(word)?;
    Some(n as i32)
}
