// The lines that the program `home` prints, for each line that it reads.
#![tactic(auto)]

ghost use Rattle.std.specs.Prelude.{◌≡◌, ◌++◌, IfErr, Some, OnOk};
ghost use Rattle.home_node.specs.Answers.{refusal_of, told_of, sent_of};
ghost use Rattle.home_node.specs.Homes.{home_of};
ghost use Rattle.text.specs.Line.{meaning_of, meant};
ghost use Rattle.text.specs.declared.Fault.TheVariants.{Memory};
ghost use Rattle.home_lines.specs.Output.{message_line, message_lines, answer_lines, shown, followed};

use basics::Refusal;
use home_node::{Home, Refused, Sent};
use lines::{push_refusal, push_value};
use model::Message;
use std::alloc::{AllocError, Global};
use text::{Fault, HomeLine, home_line, push_hex};
use wire::encode;

// Answers one line of input, without its newline: what is printed goes behind what `out` holds already.
// It fails for want of memory only; then the answer may be incomplete. Its error is that of reading a line, which has two cases.
pub fn respond(heap: Global, home: &mut Home, input: &[u8], out: &mut Vec<u8>) -> Result<(), Fault>
    ensures printed { OnOk result (out.new.items ≡ out.old.items ++ shown (home_of home.old) (meaning_of input.now)) }
    ensures after { OnOk result (home_of home.new ≡ followed (home_of home.old) (meaning_of input.now)) }
    ensures memory { IfErr result (λ e. e ≡ Memory) }
{
    match home_line(heap, input) {
        Ok(line) => follow(home, &line, out)?,
        Err(Fault::Malformed) => push_refusal(out, Refusal::Malformed)?,
        Err(Fault::Memory) => return Err(Fault::Memory),
    }
    Ok(())
}

// Does what a line says.
fn follow(home: &mut Home, line: &HomeLine, out: &mut Vec<u8>) -> Result<(), AllocError>
    ensures printed { OnOk result (out.new.items ≡ out.old.items ++ shown (home_of home.old) (Some (meant line.now))) }
    ensures after { home_of home.new ≡ followed (home_of home.old) (Some (meant line.now)) }
{
    match line {
        HomeLine::Blank => Ok(()),
        HomeLine::Show(word) => match home.word(*word) {
            Ok(value) => push_value(out, value),
            Err(why) => push_refusal(out, why),
        },
        HomeLine::Message(bytes) => push_answer(home.receive(bytes.as_slice()), out),
    }
}

// A refusal first, then what is sent; pushed, as its messages are.
fn push_answer(answer: Result<Sent, Refused>, out: &mut Vec<u8>) -> Result<(), AllocError>
    ensures { OnOk result (out.new.items ≡ out.old.items ++ answer_lines (refusal_of answer) (told_of answer)) }
{
    match answer {
        Ok(sent) => push_sent(&sent, out),
        Err(refused) => {
            push_refusal(out, refused.why)?;
            push_sent(&refused.sent, out)
        }
    }
}

fn push_sent(sent: &Sent, out: &mut Vec<u8>) -> Result<(), AllocError>
    ensures { OnOk result (out.new.items ≡ out.old.items ++ message_lines (sent_of sent.now)) }
{
    match sent {
        Sent::Nothing => Ok(()),
        Sent::One(message) => push_message(message, out),
        Sent::Two(first, second) => {
            push_message(first, out)?;
            push_message(second, out)
        }
    }
}

// A message's bytes in hexadecimal, on a line. Not a `Display`: the bytes take memory, and the digits of a page go straight behind the others.
fn push_message(message: &Message, out: &mut Vec<u8>) -> Result<(), AllocError>
    ensures { OnOk result (out.new.items ≡ out.old.items ++ message_line message.now) }
{
    let bytes = encode(*out.allocator(), message)?;
    push_hex(out, bytes.as_slice())?;
    out.push(b'\n')?;
    Ok(())
}
