// Where the script comes from: a file that is named, or standard input.
use std::{env, fmt, fs, io};

// Why there is no script.
#[derive(Drop)]
pub(crate) enum Unread {
    Arguments(io::Error),
    TooMany,
    File { name: String, error: io::Error },
    Input(io::Error),
}

impl fmt::Display for Unread {
    fn fmt<W: fmt::Write>(&self, f: &mut fmt::Formatter<W>) -> fmt::Result {
        match self {
            Unread::Arguments(error) => write!(
                f,
                "accbox: cannot read the arguments as text: {error}"
            ),
            Unread::TooMany => f.write_str(
                "accbox: at most one argument is taken, the name of a script",
            ),
            Unread::File { name, error } => write!(f, "accbox: cannot read {name:?}: {error}"),
            Unread::Input(error) => write!(f, "accbox: cannot read standard input: {error}"),
        }
    }
}

// The file that the arguments name, if any.
fn named(rt: &HostRuntime) -> Result<Option<String>, Unread> {
    let mut args = env::args(rt).map_err(Unread::Arguments)?.skip(1);
    let name = args.next();
    if args.next().is_some() {
        return Err(Unread::TooMany);
    }
    Ok(name)
}

pub(crate) fn text(rt: &HostRuntime) -> Result<String, Unread> {
    match named(rt)? {
        Some(name) => fs::read_to_string(rt, name.as_str()).map_err(|error| Unread::File {
            name,
            error,
        }),
        None => io::read_to_string(rt.alloc(), rt.stdin()).map_err(Unread::Input),
    }
}
