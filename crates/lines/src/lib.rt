// Lines of output: numbers behind words, and the values and refusals that `home` prints; and any value that prints, as a line.
#![tactic(auto)]

ghost use Rattle.std.specs.Prelude.{◌≡◌, ◌++◌, decimal, IfSome, OnOk, OnErr};
ghost use Rattle.basics.specs.Lines.{line, numbered, refusal_line};

use basics::Refusal;
use std::alloc::AllocError;
use std::fmt::Display;
use text::push_number;

// Words with a number behind them. Where memory gives no room some of it may be there, as of a value and a refusal.
pub fn push_numbered(out: &mut Vec<u8>, words: &[u8], n: u32) -> Result<(), AllocError>
    ensures printed { OnOk result (out.new.items ≡ out.old.items ++ numbered words.now n) }
{
    push_parts(out, words, n, b"")
}

// A number and the end of the line.
pub fn push_value(out: &mut Vec<u8>, value: u32) -> Result<(), AllocError>
    ensures printed { OnOk result (out.new.items ≡ out.old.items ++ line (decimal value)) }
{
    push_parts(out, b"", value, b"\n")
}

// What is said of a refusal, and the end of the line.
#[tactic(auto, unfolding(basics::specs::Refusals::in_words))]
pub fn push_refusal(out: &mut Vec<u8>, why: Refusal) -> Result<(), AllocError>
    ensures printed { OnOk result (out.new.items ≡ out.old.items ++ refusal_line why) }
{
    push_parts(out, b"turned away ", u32::from(why.number()), b"\n")
}

// Words, a number, and what stands behind it: straight to where it goes, so that no line takes memory of its own.
fn push_parts(out: &mut Vec<u8>, words: &[u8], n: u32, end: &[u8]) -> Result<(), AllocError>
    ensures { OnOk result (out.new.items ≡ out.old.items ++ (numbered words.now n ++ end.now)) }
{
    out.extend_from_slice(words)?;
    push_number(out, n)?;
    out.extend_from_slice(end)
}

// Appends what a value prints, and the end of the line. It appends nothing where memory gives no room.
pub fn push_line<D: Display + Drop>(out: &mut Vec<u8>, value: D) -> Result<(), AllocError>
    ensures printed { IfSome (D.output value) (λ text. OnOk result (out.new.items ≡ out.old.items ++ line text)) }
    ensures kept { OnErr result (out.new.items ≡ out.old.items) }
{
    let text = format!(in *out.allocator(); "{value}\n")?;
    out.extend_from_slice(text.as_bytes())
}
