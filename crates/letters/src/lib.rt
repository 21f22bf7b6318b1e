#![tactic(auto)]
// "Operator letters are compared as they stand, in capitals": the number of an operator's letters.
// A word is compared with the operators that begin with its first letter, for D and S with its first two.
ghost use Rattle.std.specs.Prelude.{true, ◌≡◌};
ghost use Rattle.text.specs.Bytes.{D, S};
ghost use Rattle.letters.specs.Letters.{number_among, begins};
ghost use Rattle.letters.specs.OperatorWords.{operator_number};

// "numbers | operators": the letters of the operators with their numbers, by their first letter, and for D and S by their second; those of 57 are SUS too.
const CREATE: [(&[u8], u32); 5] = [
    (b"COP", 1),
    (b"CIP", 2),
    (b"CAP", 3),
    (b"CUN", 45),
    (b"CUS", 51),
];

const BIND: [(&[u8], u32); 5] = [
    (b"BOP", 4),
    (b"BIP", 5),
    (b"BAP", 6),
    (b"BUN", 46),
    (b"BUS", 52),
];

const VALUE: [(&[u8], u32); 4] = [(b"VOP", 7), (b"VIP", 8), (b"VUN", 47), (b"VUS", 53)];

const EXISTS: [(&[u8], u32); 5] = [
    (b"XOP", 9),
    (b"XIP", 10),
    (b"XAP", 11),
    (b"XUN", 48),
    (b"XUS", 54),
];

const DESTROY_OUTPOINTING: [(&[u8], u32); 6] = [
    (b"DOP", 12),
    (b"DOG", 15),
    (b"DOGG", 18),
    (b"DOGN", 21),
    (b"DON", 24),
    (b"DONG", 27),
];

const DESTROY_INPOINTING: [(&[u8], u32); 6] = [
    (b"DIP", 13),
    (b"DIG", 16),
    (b"DIGG", 19),
    (b"DIGN", 22),
    (b"DIN", 25),
    (b"DING", 28),
];

const DESTROY_ADJACENT: [(&[u8], u32); 6] = [
    (b"DAP", 14),
    (b"DAG", 17),
    (b"DAGG", 20),
    (b"DAGN", 23),
    (b"DAN", 26),
    (b"DANG", 29),
];

const DESTROY_ONE: [(&[u8], u32); 2] = [(b"DUN", 49), (b"DUS", 55)];

const LIST_OUTPOINTING: [(&[u8], u32); 5] = [
    (b"SOP", 30),
    (b"SOG", 33),
    (b"SOGN", 36),
    (b"SON", 39),
    (b"SONG", 42),
];

const LIST_INPOINTING: [(&[u8], u32); 5] = [
    (b"SIP", 31),
    (b"SIG", 34),
    (b"SIGN", 37),
    (b"SIN", 40),
    (b"SING", 43),
];

const LIST_ADJACENT: [(&[u8], u32); 5] = [
    (b"SAP", 32),
    (b"SAG", 35),
    (b"SAGN", 38),
    (b"SAN", 41),
    (b"SANG", 44),
];

const LIST_ALL: [(&[u8], u32); 2] = [(b"SUN", 50), (b"SUS", 56)];

// The number of the first of some operators with these letters.
fn number_among(operators: &[(&[u8], u32)], word: &[u8]) -> Option<u32>
    ensures { result ≡ number_among operators.now word.now }
{
    for &(letters, number) in operators {
        if word == letters {
            return Some(number);
        }
    }
    None
}

// The operators of D, by their second letter.
fn destroy_number(word: &[u8]) -> Option<u32>
    requires { begins D word.now ≡ true }
    ensures { result ≡ operator_number word.now }
{
    if word.len() < 2 {
        return None;
    }
    match word[1] {
        b'O' => number_among(&DESTROY_OUTPOINTING, word),
        b'I' => number_among(&DESTROY_INPOINTING, word),
        b'A' => number_among(&DESTROY_ADJACENT, word),
        b'U' => number_among(&DESTROY_ONE, word),
        _ => None,
    }
}

// The operators of S, by their second letter.
fn list_number(word: &[u8]) -> Option<u32>
    requires { begins S word.now ≡ true }
    ensures { result ≡ operator_number word.now }
{
    if word.len() < 2 {
        return None;
    }
    match word[1] {
        b'O' => number_among(&LIST_OUTPOINTING, word),
        b'I' => number_among(&LIST_INPOINTING, word),
        b'A' => number_among(&LIST_ADJACENT, word),
        b'U' => number_among(&LIST_ALL, word),
        _ => None,
    }
}

// The number of the operator with these letters.
pub fn operator_number(word: &[u8]) -> Option<u32>
    ensures { result ≡ operator_number word.now }
{
    if word.len() == 0 {
        return None;
    }
    match word[0] {
        b'C' => number_among(&CREATE, word),
        b'B' => number_among(&BIND, word),
        b'V' => number_among(&VALUE, word),
        b'X' => number_among(&EXISTS, word),
        b'D' => destroy_number(word),
        b'S' => list_number(word),
        _ => None,
    }
}
