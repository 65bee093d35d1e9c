// A number that stands for nothing.

#[derive(Clone, Copy, PartialEq, Eq, Debug)]
pub struct Unknown(pub u8);
