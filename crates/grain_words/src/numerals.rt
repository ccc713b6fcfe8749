//! Numbers and integers in decimal digits.

ghost use Rattle.std.specs.Prelude.{◌≡◌, ◌-◌, ◌^◌, ◌≤◌, ◌*◌, ◌+◌, MatchOption};
ghost use Rattle.grain_words.specs.Numerals.{is_numeral, are_digits, number, integer, minus, is_letter, begins_letter};

fn are_digits(word: &[char]) -> bool
    ensures { result ≡ are_digits word.now }
{
    for c in word {
        if !c.is_ascii_digit() {
            return false;
        }
    }
    true
}

fn is_numeral(word: &[char]) -> bool
    ensures { result ≡ is_numeral word.now }
{
    match word.split_first() {
        None => false,
        Some((first, others)) => are_digits(word) && (*first != '0' || others.is_empty()),
    }
}

/// The number with one more digit, where that fits.
fn grown(number: u64, digit: char) -> Option<u64>
    ensures { MatchOption result (2 ^ 64 ≤ number * 10 + (digit - 48)) (λ n. n ≡
        number * 10 + (digit - 48)) }
{
    let digit = u64::from(u32::from(digit).saturating_sub(48));
    number.checked_mul(10)?.checked_add(digit)
}

/// The number that the word says, where it is one of at most `most`.
pub fn number(most: u64, word: &[char]) -> Option<u64>
    ensures { result ≡ number most word.now }
{
    if !is_numeral(word) {
        return None;
    }
    let mut number = 0u64;
    let mut rest = word;
    'digits: while let Some((c, after)) = rest.split_first() {
        let Some(more) = grown(number, *c) else {
            return None;
        };
        number = more;
        rest = after;
    }
    if number > most { None } else { Some(number) }
}

fn minus(number: u64) -> i64
    requires { number ≤ 2 ^ 63 }
    ensures { result ≡ minus number }
{
    if number == 1 << 63 {
        i64::MIN
    } else {
        -(number as i64)
    }
}

/// The integer that the word says, where it is one of 64 bits.
pub fn integer(word: &[char]) -> Option<i64>
    ensures { result ≡ integer word.now }
{
    match word.split_first() {
        None => None,
        Some((first, digits)) => {
            if *first == '-' {
                let distance = number(1 << 63, digits)?;
                Some(minus(distance))
            } else {
                let number = number(i64::MAX as u64, word)?;
                Some(number as i64)
            }
        }
    }
}

fn is_letter(c: char) -> bool
    ensures { result ≡ is_letter c }
{
    ('A'..='Z').contains(&c) || ('a'..='z').contains(&c)
}

/// Whether the word begins with an ASCII letter.
pub fn begins_letter(word: &[char]) -> bool
    ensures { result ≡ begins_letter word.now }
{
    match word.split_first() {
        None => false,
        Some((c, _)) => is_letter(*c),
    }
}
