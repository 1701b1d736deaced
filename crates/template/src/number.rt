// Numbers at the front of bytes.
ghost use Rattle.std.specs.Prelude.{◌≡◌, ◌≤◌, true, length, take_while};
ghost use Rattle.std.specs.Char.{is_ascii_digit};
ghost use Rattle.std.specs.Str.{all_ascii_digits};
ghost use Rattle.template.specs.Numbers.{read_on, LedPlain, Led};

// How many digits the bytes begin with.
fn leading_digits(bytes: &[u8]) -> usize
    ensures value { result ≡ length (take_while is_ascii_digit bytes.now) }
    ensures within { result ≤ length bytes.now }
{
    bytes.iter().take_while(|b| b.is_ascii_digit()).count()
}

// The value of at most ten digits. (Not by `parse`: that takes text, which these bytes would first have to be shown to be.)
fn value(digits: &[u8]) -> u64
    requires digits { all_ascii_digits digits.now ≡ true }
    requires few { length digits.now ≤ 10 }
    ensures { result ≡ read_on 0 digits.now }
{
    let mut n: u64 = 0;
    for d in digits {
        n = n * 10 + (*d - b'0') as u64;
    }
    n
}

// The number of at most ten digits that the bytes begin with, and what comes after it.
fn read_plain(bytes: &[u8]) -> Option<(u64, &[u8])>
    ensures { LedPlain bytes.now result }
{
    let (digits, rest) = bytes.split_at(leading_digits(bytes));
    match digits {
        [] | [b'0', _, ..] => None,
        _ if digits.len() > 10 => None,
        _ => Some((value(digits), rest)),
    }
}

// The number of at most ten digits that the bytes begin with, with its sign, and what comes after it.
pub fn read_number(bytes: &[u8]) -> Option<(i64, &[u8])>
    ensures { Led bytes.now result }
{
    if let [b'-', digits @ ..] = bytes {
        let (n, rest) = read_plain(digits)?;
        if n == 0 {
            return None;
        }
        return Some((-(n as i64), rest));
    }
    let (n, rest) = read_plain(bytes)?;
    Some((n as i64, rest))
}
