// "plain digits without a leading zero (zero itself is `0`), names to 65,535, values to 4,294,967,295".
ghost use Rattle.std.specs.Prelude.{◌≡◌};
ghost use Rattle.text.specs.Numerals.{read_number};
ghost use Rattle.lines.specs.Places.{read_digits};

// The number that a word of digits gives; it stops once the number is past the most that it may be.
fn digits_in(word: &[u8], most: u32) -> Option<u32>
    ensures { result ≡ read_digits most 0 word.now }
{
    let mut value: u64 = 0;
    for &b in word {
        if !b.is_ascii_digit() {
            return None;
        }
        value = value * 10 + u64::from(b - b'0');
        if value > u64::from(most) {
            return None;
        }
    }
    Some(value as u32)
}

// The number that a word gives.
pub fn number_in(word: &[u8], most: u32) -> Option<u32>
    ensures { result ≡ read_number most word.now }
{
    let [first, ..] = word else {
        return None;
    };
    let several = word.len() > 1;
    if *first == b'0' && several {
        return None;
    }
    digits_in(word, most)
}
