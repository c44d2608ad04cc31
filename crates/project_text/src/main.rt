// Reads a project that a person has typed from standard input, and writes its project file to standard output. A line that cannot be
// understood is named on standard error, and then nothing is written to standard output.
#![tactic(auto)]

use std::io;

fn translate(rt: &(impl Print + Eprint), text: &[u8]) -> io::Result<()> {
    match typed::parse(text) {
        Ok(file) => rt.write_all(file.as_slice()),
        Err(bad) => eprintln!(rt; "{bad}"),
    }
}

fn main(rt: HostRuntime) -> io::Result<()> {
    let mut text = [0u8; 65_536];
    let size = reading::read_full(&mut rt.stdin(), &mut text)?;
    if size == text.len() {
        return eprintln!(rt; "the text has 65,536 bytes or more");
    }
    translate(&rt, &text[..size])
}
