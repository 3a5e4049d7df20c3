// A schedule in comma-separated text, read into the bytes of a session (§18): byte by byte, or a whole text at once.

#![tactic(auto)]

ghost use Rattle.std.specs.Prelude.{◌≡◌, None, Some};
ghost use Rattle.session_text.specs.Text.{stored};
ghost use Rattle.sheet_text.specs.Read as spec;

use session_split::MOST_BYTES;
use session_text::Out;
use sheet_text::{Cause, Done, Line, NEWLINE, RETURN, Refused, Spot, TextFault, Turn};

// A text so far: the line that is read, how many bytes of the session there are, how many lines were good, what refuses the text, if
// anything does, and where the next byte stands. Its numbers are small, whatever was read.
#[derive(Clone, Copy)]
pub struct Reader {
    line: Line,
    length: usize,
    lines: usize,
    fault: Option<TextFault>,
    spot: Spot,
    ghost small: { spec.Small (spec.reader spot line length lines fault) },
}

impl Reader {
    ghost use Rattle.sheet_read.specs.Shown.{shown};

    // Nothing was read yet.
    pub fn begin() -> Reader
        ensures { shown result ≡ spec.begin }
    {
        Reader {
            line: sheet_line::blank(),
            length: 0,
            lines: 0,
            fault: None,
            spot: Spot::Fresh,
        }
    }

    // A text so far, made of its five parts. It has to be small: else its numbers might leave their types while more is read.
    pub fn of(
        spot: Spot,
        line: Line,
        length: usize,
        lines: usize,
        fault: Option<TextFault>,
    ) -> Reader
        requires { spec.Small (spec.reader spot line length lines fault) }
        ensures { shown result ≡ spec.reader spot line length lines fault }
    {
        Reader {
            line,
            length,
            lines,
            fault,
            spot,
        }
    }

    // Where the next byte stands.
    pub fn spot(self) -> Spot
        ensures { result ≡ (shown self).spot }
    {
        self.spot
    }

    // The line that is read. It and the two counts below also say that the reader is small: who makes one of changed parts has to show it.
    pub fn line(self) -> Line
        ensures { (result ≡ (shown self).line) × spec.Small (shown self) }
    {
        self.line
    }

    // How many bytes of the session there are. Those of a line that was refused are among them.
    pub fn length(self) -> usize
        ensures { (result ≡ (shown self).length) × spec.Small (shown self) }
    {
        self.length
    }

    // How many lines were good.
    pub fn lines(self) -> usize
        ensures { (result ≡ (shown self).lines) × spec.Small (shown self) }
    {
        self.lines
    }

    // What refuses the text, if anything does.
    pub fn fault(self) -> Option<TextFault>
        ensures { result ≡ (shown self).fault }
    {
        self.fault
    }

    // Such a fault refuses the text, and the next byte would stand at such a spot.
    fn refused(self, spot: Spot, fault: TextFault) -> Reader
        ensures { shown result ≡ spec.reader spot self.line self.length self.lines (Some fault) }
    {
        Reader {
            line: self.line,
            length: self.length,
            lines: self.lines,
            fault: Some(fault),
            spot,
        }
    }

    // §18.8: the line that is read has ended.
    #[tactic(auto, unfolding(sheet_text::specs::Read::line_ended))]
    fn line_ended(self) -> Reader
        ensures { shown result ≡ spec.line_ended self.line self.length self.lines }
    {
        let spot = Spot::Fresh;
        if let Some(fault) = sheet_line::verdict(self.line) {
            return self.refused(spot, fault);
        }
        if MOST_BYTES < self.length {
            return self.refused(spot, TextFault::TooLong);
        }
        Reader {
            line: sheet_line::blank(),
            length: self.length,
            lines: self.lines + 1,
            fault: None,
            spot,
        }
    }

    // The field that is read has ended. The bytes of the session go into the buffer as far as it reaches.
    fn field_over(self, out: &mut [u8]) -> Reader
        requires { self.fault ≡ None }
        ensures { (shown result ≡ spec.act (shown self) Turn.FieldEnds 0)
            × (out.new ≡ stored out.old (shown self).length (spec.act_bytes (shown self) Turn.FieldEnds)) }
    {
        let mut out = Out {
            buffer: out,
            at: self.length,
        };
        let line = sheet_line::end_field(&mut out, self.line);
        Reader {
            line,
            length: out.at,
            lines: self.lines,
            fault: None,
            spot: Spot::Fresh,
        }
    }

    // What a byte does that is such a turn, in a text that was not refused. What ends a field is one call, so that the compiler can put all
    // of this into the loop that goes over the bytes, and keep the reader in registers; and that nothing refuses it is written out, so that
    // no fault is carried from byte to byte. A stray byte has its reader written out as well: `refused` makes the loop slower here.
    #[tactic(auto, unfolding(sheet_text::specs::Line::with_byte))]
    fn act(self, turn: Turn, byte: u8, out: &mut [u8]) -> Reader
        requires { self.fault ≡ None }
        ensures { (shown result ≡ spec.act (shown self) turn byte)
            × (out.new ≡ stored out.old (shown self).length (spec.act_bytes (shown self) turn)) }
    {
        match turn {
            Turn::Content(spot) => Reader {
                line: sheet_line::with_byte(self.line, byte),
                length: self.length,
                lines: self.lines,
                fault: None,
                spot,
            },
            Turn::Beside(spot) => Reader {
                line: self.line,
                length: self.length,
                lines: self.lines,
                fault: None,
                spot,
            },
            Turn::Stray => Reader {
                line: self.line,
                length: self.length,
                lines: self.lines,
                fault: Some(TextFault::BadQuoting),
                spot: self.spot,
            },
            Turn::FieldEnds | Turn::LineEnds => {
                let over = self.field_over(out);
                if turn == Turn::LineEnds {
                    over.line_ended()
                } else {
                    over
                }
            }
        }
    }

    // Reads a part of a text, the next one after what was read before. The bytes of the session go into the buffer as far as it reaches. A
    // text that was refused stays so.
    pub fn feed(self, text: &[u8], out: &mut [u8]) -> Reader
        ensures { (shown result ≡ spec.feed (shown self) text.now)
            × (out.new ≡ stored out.old (shown self).length (spec.feed_bytes (shown self) text.now)) }
    {
        let mut next = self;
        for &byte in text {
            if next.fault.is_some() {
                return next;
            }
            let turn = sheet_turn::turn(next.spot, byte);
            next = next.act(turn, byte, out);
        }
        next
    }

    // §18.4: the end of the text. A last line that lacks its CR LF is given them, and not ended by a call of its own: with one call alone
    // the compiler puts all of it into the loop that goes over the bytes.
    #[tactic(auto, unfolding(sheet_text::specs::Read::finish, sheet_text::specs::Read::finish_bytes))]
    pub fn finish(self, out: &mut [u8]) -> Reader
        ensures { (shown result ≡ spec.finish (shown self))
            × (out.new ≡ stored out.old (shown self).length (spec.finish_bytes (shown self))) }
    {
        if self.fault.is_some() {
            return self;
        }
        match sheet_turn::ending(self.spot, self.line.fields) {
            Turn::LineEnds => self.feed(&[RETURN, NEWLINE], out),
            Turn::Stray => self.refused(self.spot, TextFault::BadQuoting),
            _ => self,
        }
    }

    // §18.9: what is answered at the end of the text, if the buffer has room.
    pub fn known(self) -> Result<Done, Refused>
        ensures { result ≡ spec.known (shown self) }
    {
        let lines = self.lines;
        match self.fault {
            None => Ok(Done {
                length: self.length,
                lines,
            }),
            Some(fault) => Err(Refused {
                cause: Cause::Text(fault),
                lines,
            }),
        }
    }
}

// Reads a whole text: what is known at its end.
fn read_into(text: &[u8], out: &mut [u8]) -> Result<Done, Refused>
    ensures { (result ≡ spec.known (spec.read_of text.now))
        × (out.new ≡ stored out.old 0 (spec.session_of text.now)) }
{
    Reader::begin().feed(text, out).finish(out).known()
}

// §18.9: reads a text into a lent buffer, once to learn its length, or what refuses it, and once to write. Nothing is written if it is
// refused. It and `sheet_write::write` stay two: one for both would take the reading as a closure, and say what that does to the buffer.
pub fn read(text: &[u8], out: &mut [u8]) -> Result<Done, Refused>
    ensures { spec.reading text.now out.old ≡ (result, out.new) }
{
    let mut nowhere = [0u8; 1];
    let known = read_into(text, &mut nowhere)?;
    if out.len() < known.length {
        return Err(Refused {
            cause: Cause::NoRoom,
            lines: known.lines,
        });
    }
    read_into(text, out)
}
