//! A line of an example.

/// The most numbers of a line.
const MOST: usize = 8;

/// A chip, an act, and the numbers behind them; zeros where it has fewer.
#[derive(Clone, Copy)]
pub struct Line<'a> {
    pub chip: &'a str,
    pub act: &'a str,
    pub numbers: [u32; MOST],
    pub count: usize,
}

impl<'a> Line<'a> {
    pub fn read(text: &'a str) -> Line<'a> {
        let mut words = text.split_whitespace();
        let chip = words.next().unwrap_or("");
        let act = words.next().unwrap_or("");
        let mut numbers = [0; MOST];
        let mut count = 0;
        for word in words {
            if count < MOST {
                numbers[count] = u32::from_str_radix(word, 16).unwrap_or(0);
                count += 1;
            }
        }
        Line {
            chip,
            act,
            numbers,
            count,
        }
    }

    /// A number as a port.
    pub fn port(&self) -> u16 {
        (self.numbers[0] % 0x1_0000) as u16
    }

    /// A number as a byte.
    pub fn byte(&self, at: usize) -> u8 {
        if at < MOST {
            (self.numbers[at] % 0x100) as u8
        } else {
            0
        }
    }

    /// An image with other bytes at some places: the numbers are a place and its byte, each in turn.
    pub fn change(&self, image: &mut [u8]) {
        for pair in 0..MOST / 2 {
            let place = self.numbers[2 * pair] as usize;
            if 2 * pair < self.count && place < image.len() {
                image[place] = self.byte(2 * pair + 1);
            }
        }
    }
}
