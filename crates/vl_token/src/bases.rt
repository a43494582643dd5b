// The bases of constants, and their digits.
ghost use Rattle.std.specs.Prelude.{◌≡◌, Option};
ghost use Rattle.vl_token.specs.Constants.{base_of, hex_value, is_x, is_z, is_bits_digit, is_digit_of};

/// The base that a constant's digits are of.
#[derive(Clone, Copy, Debug, PartialEq, Eq)]
pub enum Base {
    Binary,
    Octal,
    Decimal,
    Hexadecimal,
}

// The value of a hexadecimal digit, 16 where it is none.
pub fn hex_value(digit: u8) -> u8
    ensures { result ≡ hex_value digit }
{
    match digit {
        b'0'..=b'9' => digit - b'0',
        b'a'..=b'f' => digit - b'a' + 10,
        b'A'..=b'F' => digit - b'A' + 10,
        _ => 16,
    }
}

pub fn is_x(digit: u8) -> bool
    ensures { result ≡ is_x digit }
{
    digit == b'x' || digit == b'X'
}

pub fn is_z(digit: u8) -> bool
    ensures { result ≡ is_z digit }
{
    digit == b'z' || digit == b'Z'
}

fn is_bits_digit(base: u8, digit: u8) -> bool
    ensures { result ≡ is_bits_digit base digit }
{
    is_x(digit) || is_z(digit) || hex_value(digit) < base
}

impl Base {
    /// The base that a letter names (IEEE 1364-2005, the clause on integer constants).
    pub fn of_letter(letter: u8) -> Option<Base>
        ensures { result ≡ base_of letter }
    {
        match letter {
            b'b' | b'B' => Some(Base::Binary),
            b'o' | b'O' => Some(Base::Octal),
            b'd' | b'D' => Some(Base::Decimal),
            b'h' | b'H' => Some(Base::Hexadecimal),
            _ => None,
        }
    }

    /// Whether a byte is a digit of the base. In all bases but the decimal one x and z are.
    pub fn has_digit(self, digit: u8) -> bool
        ensures { result ≡ is_digit_of self digit }
    {
        match self {
            Base::Binary => is_bits_digit(2, digit),
            Base::Octal => is_bits_digit(8, digit),
            Base::Decimal => digit.is_ascii_digit(),
            Base::Hexadecimal => is_bits_digit(16, digit),
        }
    }
}
