// Characters of a text: hexadecimal, with white space between the bytes, and lines that are passed over.
ghost use Rattle.std.specs.Prelude.{◌≡◌};
ghost use Rattle.trace_text.specs.Chars.{between, with_char, may_end};

use basics::Refusal;
use text::hex::byte;

// Where in a text the reading is.
#[derive(Clone, Copy, Debug, PartialEq, Eq)]
pub enum Mode {
    // nothing but white space so far on this line
    LineStart,
    // behind a byte
    InLine,
    // on a line that is passed over
    Comment,
    // behind the first digit of a byte
    Half(u8),
}

impl Mode {
    // One character more: where the reading is then, and the byte that it makes, if any.
    pub fn next_char(self, c: u8) -> Result<(Mode, Option<u8>), Refusal>
        ensures { result ≡ with_char self c }
    {
        match self {
            Mode::LineStart if c == b'#' => Ok((Mode::Comment, None)),
            Mode::LineStart | Mode::InLine => Ok((self.between(c), None)),
            Mode::Comment if c == b'\n' => Ok((Mode::LineStart, None)),
            Mode::Comment => Ok((Mode::Comment, None)),
            Mode::Half(high) => {
                let made = byte(high, c).ok_or(Refusal::Malformed)?;
                Ok((Mode::InLine, Some(made)))
            }
        }
    }

    // Between two bytes white space is passed over, and anything else is the first digit of a byte.
    fn between(self, c: u8) -> Mode
        ensures { result ≡ between self c }
    {
        match c {
            b'\n' => Mode::LineStart,
            b' ' | b'\t' | b'\r' => self,
            _ => Mode::Half(c),
        }
    }

    // A text does not end within a byte.
    pub fn may_end(self) -> bool
        ensures { result ≡ may_end self }
    {
        !matches!(self, Mode::Half(_))
    }
}
