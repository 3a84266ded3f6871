// The home as a program: messages in hexadecimal come in, one to a line, and what the home sends goes out.
#![tactic(auto)]

use home_lines::respond;
use home_node::Home;
use std::io::{BufRead, BufReader, BufWriter, Write};

// Answers line by line until the input ends. What is printed is written out before the program waits for more input.
fn main(rt: HostRuntime) -> anyhow::Result<()> {
    let heap = rt.alloc();
    let mut home = Home::new(heap)?;
    let mut input = BufReader::new(heap, rt.stdin())?;
    let mut output = BufWriter::new(heap, rt.stdout())?;
    let mut line = Vec::new(heap);
    let mut answer = Vec::new(heap);
    // counted, since a loop that waits on input needs a bound; `lines` would keep the reader, whose buffer tells when to write out
    for _ in 0..u64::MAX {
        line.clear();
        if input.read_until(b'\n', &mut line)? == 0 {
            break;
        }
        answer.clear();
        let text = line.as_slice();
        respond(
            heap,
            &mut home,
            text.strip_suffix(b"\n").unwrap_or(text),
            &mut answer,
        )?;
        output.write_all(answer.as_slice())?;
        if input.buffer().is_empty() {
            output.flush()?;
        }
    }
    output.flush()?;
    Ok(())
}
