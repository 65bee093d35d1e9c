// A figure that is run.
use std::fmt;

#[derive(Clone, Copy)]
pub struct Figure {
    pub what: &'static str,
    pub expected: u64,
    // none where it could not be run
    pub found: Option<u64>,
}

impl Figure {
    pub(crate) fn is_right(&self) -> bool {
        self.found == Some(self.expected)
    }
}

impl fmt::Display for Figure {
    fn fmt<W: fmt::Write>(&self, f: &mut fmt::Formatter<W>) -> fmt::Result {
        let Figure {
            what,
            expected,
            found,
        } = self;
        match found {
            Some(found) => write!(f, "{what}: expected {expected:#x}, found {found:#x}"),
            None => write!(f, "{what}: expected {expected:#x}, found none"),
        }
    }
}
