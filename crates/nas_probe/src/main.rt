//! A driver over the public calls of the codecs, for tests and benches: of elements, messages, QoS rules, keys, frames and timers.
//! Each line of standard input is a call and its arguments, as in `cmac KEY OCTETS`, and gets one line of answer on standard output,
//! or `?` where it can't be read.
//!
//! Octets are written as hex digits, two for each, and none of them as `-`. Each library has a file of its calls, which lists
//! them. The program makes no claim of its own: what a call answers is in the library's contracts.
#![tactic(auto)]

mod aes_calls;
mod answers;
mod element_calls;
mod frame_calls;
mod frame_times;
mod key_calls;
mod message_calls;
mod milenage_calls;
mod qos_calls;
mod session_calls;
mod timer_calls;
mod walk_calls;

use std::io::{self, BufRead, BufReader, BufWriter, Write};

fn main(rt: HostRuntime) -> io::Result<()> {
    let input = BufReader::new(rt.alloc(), rt.reader())?;
    let mut output = BufWriter::new(rt.alloc(), io::writer(&rt))?;
    for line in input.split(rt.alloc(), b'\n') {
        let text = answers::answer(rt.alloc(), line?.as_slice())?;
        writeln!(output, "{text}")?;
    }
    output.flush()
}
