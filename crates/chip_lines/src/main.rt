//! Runs worked examples of the board's chips, a line each.
//!
//! A line has a chip, an act and numbers in hexadecimal. It is printed again, and behind it what the
//! chip answers, in hexadecimal too. A line that begins with `#` says what the lines below it show. Each
//! value of `stdout` is worked out by hand, from the chips' data sheets and docs/DECISIONS.md.
#![tactic(auto)]

mod answers;
mod board;
mod disk;
mod keyboard;
mod line;
mod pic;
mod pit;
mod screen;

use board::Board;
use line::Line;
use std::io;

fn main(rt: HostRuntime) -> io::Result<()> {
    let Ok(mut board) = Board::new(rt.alloc()) else {
        println!(rt; "memory")?;
        return Ok(());
    };
    for text in rt.lines(rt.alloc()) {
        let text = text?;
        let line = Line::read(text.as_str());
        let answer = board.answer(rt.alloc(), &line)?;
        print!(rt; "{}", text.as_str())?;
        if !answer.is_empty() {
            print!(rt; " =")?;
        }
        for number in answer.iter() {
            print!(rt; " {number:x}")?;
        }
        println!(rt; "")?;
    }
    Ok(())
}
