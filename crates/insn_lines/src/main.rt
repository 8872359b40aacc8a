//! Runs worked examples of the decoder and of the printed instruction, a line each.
//!
//! A line has an act, numbers in hexadecimal and bytes, and what comes of it stands in the line behind.
//! `decode BITS BYTE ..` decodes the bytes as code of 16 or 32 bits: the length and the instruction, or
//! why they begin none. `print BITS AT BYTE ..` prints the instruction that they spell, where AT is the
//! address behind it. `fetch BITS BYTE ..` decodes from a page that ends with the bytes: the answer, how
//! many bytes are taken, and how often the end of the page is met. A line that begins with `#` says what
//! the lines below it show. Each value of `stdout` is worked out by hand from the manual's opcode map.
#![tactic(auto)]

mod line;
mod page;

use insn_decode::{decode, decode_slice};
use insn_print::print;
use line::{Act, Line};
use page::Page;
use std::io;

fn main(rt: HostRuntime) -> io::Result<()> {
    for text in rt.lines(rt.alloc()) {
        let text = text?;
        println!(rt; "{}", text.as_str())?;
        let line = Line::read(text.as_str());
        let bytes = line.bytes();
        match line.act {
            Act::Decode => match decode_slice(bytes, line.big) {
                Ok((insn, length)) => println!(rt; "{length} {insn:?}")?,
                Err(error) => println!(rt; "{error:?}")?,
            },
            Act::Print => {
                if let Ok((insn, _)) = decode_slice(bytes, line.big) {
                    println!(rt; "{}", print(&insn, line.at).as_str())?;
                }
            }
            Act::Fetch => {
                let mut page = Page::ending_with(bytes);
                match decode(&mut page, line.big) {
                    Ok((_, length)) => print!(rt; "{length}")?,
                    Err(error) => print!(rt; "{error:?}")?,
                }
                println!(rt; " taken {} ends {}", page.taken, page.ends)?;
            }
            Act::Nothing => {}
        }
    }
    Ok(())
}
