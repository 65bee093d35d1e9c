// The characters of a frame, one line each: its number, its mark and its bytes.
use crate::hex::Hex;
use frame::frame::Frame;
use std::fmt;

#[derive(Drop)]
pub struct Characters<'a>(pub &'a Frame);

impl fmt::Display for Characters<'_> {
    fn fmt<W: fmt::Write>(&self, f: &mut fmt::Formatter<W>) -> fmt::Result {
        let marks = self.0.marks().iter();
        let parts = self.0.bytes().chunks(16);
        for (number, (mark, bytes)) in marks.zip(parts).enumerate() {
            if number > 0 {
                f.write_str("\n")?;
            }
            write!(f, "{number} {mark} {}", Hex(bytes))?;
        }
        Ok(())
    }
}
