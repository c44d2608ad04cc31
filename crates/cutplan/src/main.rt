// Reads a project file from standard input and prints its plan, or `refused N`. No project has more than 3,104 bytes, so no more than one byte
// past that is read.
#![tactic(auto)]

use std::io;
use words::append::Buffer;

fn main(rt: HostRuntime) -> io::Result<()> {
    let mut file = [0u8; 3105];
    let size = reading::read_full(&mut rt.stdin(), &mut file)?;
    let mut text = Buffer::<65_536>::new();
    text::put_answer(&file[..size], &mut text);
    rt.write_all(text.as_slice())
}
