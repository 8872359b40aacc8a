//! A line of an example.

ghost use Rattle.std.specs.Prelude.{◌≤◌};

/// The most bytes of a line.
const MOST: usize = 16;

/// What a line asks for.
#[derive(Clone, Copy)]
pub enum Act {
    Decode,
    Print,
    Fetch,
    Nothing,
}

/// An act on bytes, as code of 32 or of 16 bits, and the address behind them.
#[derive(Clone, Copy)]
pub struct Line {
    pub act: Act,
    pub big: bool,
    pub at: u32,
    bytes: [u8; MOST],
    count: usize,
}

fn number(word: Option<&str>) -> u32 {
    match word {
        Some(word) => u32::from_str_radix(word, 16).unwrap_or(0),
        None => 0,
    }
}

fn act_of(word: &str) -> Act {
    match word {
        "decode" => Act::Decode,
        "print" => Act::Print,
        "fetch" => Act::Fetch,
        _ => Act::Nothing,
    }
}

impl Line {
    pub fn read(text: &str) -> Line {
        let mut words = text.split_whitespace();
        let act = act_of(words.next().unwrap_or(""));
        let big = number(words.next()) == 0x32;
        let at = match act {
            Act::Print => number(words.next()),
            _ => 0,
        };
        let mut bytes = [0; MOST];
        let mut count = 0;
        for word in words {
            if count < MOST {
                bytes[count] = (number(Some(word)) % 0x100) as u8;
                count += 1;
            }
        }
        Line {
            act,
            big,
            at,
            bytes,
            count,
        }
    }

    pub fn bytes(&self) -> &[u8] {
        self.bytes.get(..self.count).unwrap_or(&[])
    }
}
