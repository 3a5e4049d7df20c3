// A session written as comma-separated text (§18.10), into a lent buffer.

#![tactic(auto)]

ghost use Rattle.std.specs.Prelude.{◌≡◌, ◌<◌, take};
ghost use Rattle.session_marks.specs.Marks.{mark};
ghost use Rattle.session_split.specs.Session as split;
ghost use Rattle.session_split.specs.Session.{piece, body};
ghost use Rattle.session_text.specs.Out.{Puts};
ghost use Rattle.session_text.specs.Text.{stored};
ghost use Rattle.sheet_text.specs.Write as spec;
ghost use Rattle.sheet_write.specs.Contract.{field_room, line_room, known};

use session_marks::Kind;
use session_text::Out;
use sheet_text::{COMMA, Cause, Done, Refused};

// Puts a field with its comma: its number, or nothing if it is not used.
#[tactic(auto, unfolding(sheet_text::specs::Write::field_text))]
fn put_field(out: &mut Out<'_>, kind: Kind, field: usize, body: &[u8])
    requires { (out.old.at < 1000000000) × (field < 4) }
    ensures { Puts field_room out.old out.new (spec.field_text kind field body.now) }
{
    out.put_byte(COMMA);
    if session_fields::width(kind, field) != 0 {
        out.put_number(session_fields::number(body, kind, field));
    }
}

// Puts the line of a record. Its mark stands in the session.
#[tactic(auto, using(crate::proofs::Fields::few))]
fn put_line(out: &mut Out<'_>, kind: Kind, rest: &[u8])
    requires { (out.old.at < 900000000) × (take 2 rest.now ≡ mark kind) }
    ensures { Puts line_room out.old out.new (spec.line_text (piece kind (body kind rest.now))) }
{
    let body = session_split::body(rest, kind);
    out.put_byte(session_fields::byte_at(rest, 0));
    out.put_byte(session_fields::byte_at(rest, 1));
    for field in 0..sheet_line::numbers_of(kind) {
        put_field(out, kind, field, body);
    }
    out.put_byte(sheet_text::RETURN);
    out.put_byte(sheet_text::NEWLINE);
}

// Puts the lines of a session's records, as far as the buffer reaches: what is known at its end.
fn put_lines(session: &[u8], out: &mut [u8]) -> Result<Done, Refused>
    ensures { (result ≡ known session.now)
        × (out.new ≡ stored out.old 0 (spec.text_of (split.session session.now).pieces)) }
{
    let mut from: usize = 0;
    let mut lines: usize = 0;
    let mut out = Out { buffer: out, at: 0 };
    // Stays a loop that counts: the records say where the next one begins, and a `for` would need an end that no session reaches.
    loop {
        let rest = &session[from..];
        match session_split::split_off(rest, lines == 0) {
            Ok(Some(kind)) => {
                put_line(&mut out, kind, rest);
                from += session_split::record_length(kind);
                lines += 1;
            }
            Ok(None) => {
                return Ok(Done {
                    length: out.at,
                    lines,
                });
            }
            Err(fault) => {
                return Err(Refused {
                    cause: Cause::Session(fault),
                    lines,
                });
            }
        }
    }
}

// §18.10: writes a session as text into a lent buffer, once to learn its length, or what refuses it, and once to write. Nothing is
// written if it is refused.
pub fn write(session: &[u8], out: &mut [u8]) -> Result<Done, Refused>
    ensures { spec.writing session.now out.old ≡ (result, out.new) }
{
    let mut nowhere = [0u8; 1];
    let known = put_lines(session, &mut nowhere)?;
    if out.len() < known.length {
        return Err(Refused {
            cause: Cause::NoRoom,
            lines: known.lines,
        });
    }
    put_lines(session, out)
}
