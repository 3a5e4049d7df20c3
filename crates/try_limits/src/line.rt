// A line of the script: a mark of two letters, up to three numbers, and a sentence if the line is a case that is told.

// What stands before the sentence of a case, before that of a case on a table that was spoiled, and before a remark.
#[derive(Clone, Copy)]
pub enum Told {
    Case,
    Spoiled,
    Remark,
}

impl Told {
    fn by(byte: u8) -> Option<Told> {
        match byte {
            b':' => Some(Told::Case),
            b'!' => Some(Told::Spoiled),
            b'#' => Some(Told::Remark),
            _ => None,
        }
    }
}

// What stands before the sentence. The mark ends in its letters, of which a third one tells that it is none. The numbers follow the
// spaces before them, so the first of the four places is not used.
#[derive(Clone, Copy, Default)]
pub struct Head {
    pub mark: [u8; 3],
    pub numbers: [u32; 4],
    spaces: usize,
}

// Every number of the script is below 4,000,000,000.
fn with_digit(n: u32, digit: u8) -> u32 {
    if n < 400000000 {
        10 * n + u32::from(digit)
    } else {
        n
    }
}

impl Head {
    // One byte more.
    pub fn read(&mut self, byte: u8) {
        match byte {
            b' ' => self.spaces = self.spaces.saturating_add(1),
            b'0'..=b'9' => {
                if let Some(number) = self.numbers.get_mut(self.spaces) {
                    *number = with_digit(*number, byte - b'0');
                }
            }
            _ => {
                if let [0, second, third] = self.mark {
                    self.mark = [second, third, byte];
                }
            }
        }
    }
}

// The two parts of a line, without its end.
#[derive(Clone, Copy)]
pub struct Line<'a> {
    pub head: &'a [u8],
    pub told: Option<Told>,
    pub sentence: &'a [u8],
}

impl<'a> Line<'a> {
    pub fn of(text: &'a [u8]) -> Line<'a> {
        let length = text
            .iter()
            .take_while(|byte| Told::by(**byte).is_none())
            .count();
        let sign = text.get(length).copied();
        Line {
            head: text.get(..length).unwrap_or(text),
            told: sign.and_then(Told::by),
            sentence: text.get(length + 2..).unwrap_or(b""),
        }
    }
}
