// The words of a line, and the lines that the program `home` reads.
ghost use Rattle.std.specs.Prelude.{◌≡◌, Some, MatchResult};
ghost use Rattle.text.specs.Faults.{Refuses};
ghost use Rattle.text.specs.Line.{white, first_word, after_word, meaning_of, meant};

use crate::Fault;
use crate::hex::unhex;
use crate::numbers::number;
use std::alloc::Global;

// A line of the program `home`: passed over, a word to be shown, or the bytes of a message. Three kinds with a name each
// say more than an `Option` would.
#[derive(Debug, PartialEq, Eq, Drop)]
pub enum HomeLine {
    Blank,
    Show(u32),
    Message(Vec<u8>),
}

fn is_white(c: u8) -> bool
    ensures { result ≡ white c }
{
    matches!(c, b' ' | b'\t' | b'\r')
}

// The first word of a line, which is empty where there is none, and what follows it.
pub fn next_word(line: &[u8]) -> (&[u8], &[u8])
    ensures word { result.0.now ≡ first_word line.now }
    ensures rest { result.1.now ≡ after_word line.now }
{
    let white = line.iter().take_while(|c| is_white(**c)).count();
    let (_, line) = line.split_at(white);
    let word = line.iter().take_while(|c| !is_white(**c)).count();
    line.split_at(word)
}

// Reads a line of the program `home`.
pub fn home_line(heap: Global, line: &[u8]) -> Result<HomeLine, Fault>
    ensures { MatchResult result (λ l. meaning_of line.now ≡ Some (meant l)) (λ e. Refuses e (meaning_of line.now)) }
{
    let (word, rest) = next_word(line);
    // before the rest of the line is looked at, which may be long where it is a comment
    if let [] | [b'#', ..] = word {
        return Ok(HomeLine::Blank);
    }
    let (second, rest) = next_word(rest);
    match second {
        [] => unhex(heap, word).map(HomeLine::Message),
        _ if word == b"show".as_slice() && next_word(rest).0.is_empty() => {
            number(second).map(HomeLine::Show).ok_or(Fault::Malformed)
        }
        _ => Err(Fault::Malformed),
    }
}
