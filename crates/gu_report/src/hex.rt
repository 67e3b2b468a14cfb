//! Numbers in base 16.

ghost use Rattle.std.specs.Prelude.{◌≡◌, ◌<◌, ◌≤◌, drop, false};
ghost use Rattle.std.specs.Fmt.{digit_glyph};
ghost use Rattle.gu_report.specs.Lines.{hexadecimal};

/// Room for the digits of a number of 32 bits in base 16.
#[derive(Clone, Copy)]
pub(crate) struct HexBuffer {
    digits: [u8; 8],
}

impl HexBuffer {
    /// Room that holds no number yet.
    pub(crate) fn new() -> HexBuffer {
        HexBuffer { digits: [0; 8] }
    }

    /// The digits of a number, in lower case and without leading zeros.
    pub(crate) fn format(&mut self, number: u32) -> &[u8]
        ensures { result.now ≡ hexadecimal number }
    {
        let start = self.write(number);
        &self.digits[start..]
    }

    /// Writes the digits of a number at the end of the room, and gives where they begin.
    fn write(&mut self, number: u32) -> usize
        ensures inside { result ≤ 8 }
        ensures digits { drop result self.new.digits ≡ hexadecimal number }
    {
        let mut rest = number;
        let mut start = 8;
        'digits: loop {
            start -= 1;
            self.digits[start] = digit((rest % 16) as u8);
            rest /= 16;
            if rest == 0 {
                return start;
            }
        }
    }
}

/// The digit of a number below 16, as a letter of ASCII.
fn digit(number: u8) -> u8
    requires { number < 16 }
    ensures { result ≡ digit_glyph false number }
{
    if number < 10 {
        b'0' + number
    } else {
        b'a' + (number - 10)
    }
}
