// What is printed of a judged entry.
ghost use Rattle.std.specs.Prelude.{Some};
ghost use Rattle.worksheet.specs.Line.{line_text};

use book::Entry;
use std::fmt;

// The number and the grams, or the number and the refusal.
#[derive(Drop)]
pub struct JudgedLine<'a>(pub &'a Entry);

impl fmt::Display for JudgedLine<'_> {
    ghost output = { λ line. Some (line_text line.0.now) };

    fn fmt<W: fmt::Write>(&self, f: &mut fmt::Formatter<W>) -> fmt::Result {
        let number = self.0.number;
        match self.0.judge() {
            Ok(lawful) => {
                let grams = lawful.grams;
                writeln!(f, "{number}\tgrams\t{grams}")
            }
            Err(refusal) => {
                let field = refusal.field;
                let ground = u8::from(refusal.ground);
                writeln!(f, "{number}\tfield\t{field}\tground\t{ground}")
            }
        }
    }
}
