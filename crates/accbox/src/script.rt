// Runs a script line by line.
use crate::misread::Misread;
use crate::parse;
use commands::answer::Answer;
use commands::session::Session;
use commands::trouble::Trouble;
use std::alloc::Global;
use std::{fmt, io};

// What is wrong with a line.
#[derive(Clone, Copy)]
pub(crate) enum LineFault<'a> {
    Misread(Misread<'a>),
    Trouble(Trouble),
}

// Why a script was not run to its end.
#[derive(Drop)]
pub(crate) enum Stop<'a> {
    Line { number: usize, fault: LineFault<'a> },
    Output(io::Error),
}

impl<'a> From<Misread<'a>> for LineFault<'a> {
    fn from(misread: Misread<'a>) -> LineFault<'a> {
        LineFault::Misread(misread)
    }
}

impl From<Trouble> for LineFault<'_> {
    fn from(trouble: Trouble) -> Self {
        LineFault::Trouble(trouble)
    }
}

impl From<io::Error> for Stop<'_> {
    fn from(error: io::Error) -> Self {
        Stop::Output(error)
    }
}

impl fmt::Display for LineFault<'_> {
    fn fmt<W: fmt::Write>(&self, f: &mut fmt::Formatter<W>) -> fmt::Result {
        match self {
            LineFault::Misread(misread) => write!(f, "{misread}"),
            LineFault::Trouble(trouble) => write!(f, "{trouble}"),
        }
    }
}

impl fmt::Display for Stop<'_> {
    fn fmt<W: fmt::Write>(&self, f: &mut fmt::Formatter<W>) -> fmt::Result {
        match self {
            Stop::Line { number, fault } => write!(f, "line {number}: {fault}"),
            Stop::Output(error) => write!(f, "accbox: cannot write an answer: {error}"),
        }
    }
}

// The answer to a line; none if the line is blank.
fn answer<'a>(
    session: &mut Session,
    heap: Global,
    line: &'a str,
) -> Result<Option<Answer>, LineFault<'a>> {
    let Some(command) = parse::command(heap, line)? else {
        return Ok(None);
    };
    Ok(Some(session.run(heap, command)?))
}

pub(crate) fn run<'a>(rt: &HostRuntime, text: &'a str) -> Result<(), Stop<'a>> {
    let mut session = Session::new();
    for (index, line) in text.split('\n').enumerate() {
        let number = index.saturating_add(1);
        let answer = answer(&mut session, rt.alloc(), line).map_err(|fault| Stop::Line {
            number,
            fault,
        })?;
        if let Some(answer) = answer {
            rt.println(answer)?;
        }
    }
    Ok(())
}

#[cfg(test)]
mod tests {
    use super::*;
    use std::alloc::AllocError;
    use std::test::Fail;

    // Lines, and what is said of them where there is neither a frame nor a carrier.
    const LINES: [(&str, &str); 23] = [
        ("flop", "\"flop\" is no command"),
        ("Read", "\"Read\" is no command"),
        ("read x # y", "read takes no more words, but here is \"x\""),
        (
            "read",
            "there is no frame yet: make one by seal, reply or raw",
        ),
        ("seal", "seal lacks its ID"),
        ("seal 300 128 5a", "ID must be 0 to 255, not \"300\""),
        ("seal +3 128 5a", "ID must be 0 to 255, not \"+3\""),
        (
            "seal 3 12x 5a",
            "length must be a number of bytes or the word hex, not \"12x\"",
        ),
        ("seal 3 128 5", "fill must be two hex digits, not \"5\""),
        (
            "seal 3 hex 00f",
            "packet bytes must be pairs of hex digits, not \"00f\"",
        ),
        ("reply ok 3", "kind must be ack or nak, not \"ok\""),
        ("raw 00 4", "marks must be digits 0 to 3, not \"4\""),
        (
            "raw 00 1",
            "frame bytes must be 1 to 5 groups of 128, but their number is 1",
        ),
        ("flip 3\t", "flip lacks its mask"),
        ("mark 3 11", "mark must be 0 to 3, not \"11\""),
        (
            "unpack 1048577\r",
            "size must be 0 to 1048576, not \"1048577\"",
        ),
        ("carrier", "carrier lacks its kind"),
        ("carrier bent", "carrier must be straight, not \"bent\""),
        ("plan", "plan lacks its harm"),
        ("plan lose", "harm must be pass, drop or flip, not \"lose\""),
        ("plan flip 3", "plan lacks its mask"),
        (
            "put",
            "there is no frame yet: make one by seal, reply or raw",
        ),
        (
            "take",
            "there is no carrier yet: make one by carrier straight",
        ),
    ];

    fn said(heap: Global, line: &str) -> Result<String, AllocError> {
        let mut session = Session::new();
        let Err(fault) = answer(&mut session, heap, line) else {
            return String::from_str(heap, "understood");
        };
        format!(in heap; "{fault}")
    }

    #[test]
    fn says_what_is_wrong(rt: HostRuntime) -> Result<(), Fail> {
        for (line, message) in LINES {
            assert_eq!(rt; said(rt.alloc(), line)?.as_str(), message);
        }
        Ok(())
    }
}
