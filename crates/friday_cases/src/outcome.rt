// The outcome of a call, and how it is told.

use friday_app::Status;
use std::alloc::{AllocError, Global};
use std::fmt::Write;
use std::str;

/// The status of a call, and what it printed.
#[derive(Drop)]
pub struct Outcome {
    pub status: Status,
    pub printed: Vec<u8>,
}

impl Outcome {
    // Where the bytes that were printed are no text, as they never are, this is said in their place.
    fn text(&self) -> &str {
        str::from_utf8(&self.printed).unwrap_or("(no text)")
    }

    /// The status in the line of the command, and each line that was printed below it.
    pub fn tell(&self, alloc: Global) -> Result<String, AllocError> {
        let status = self.status;
        let text = self.text();
        let mut told = format!(in alloc; "{status:?}\n")?;
        for line in text.split_inclusive('\n') {
            write!(told, "    {line}")?;
        }
        if !text.is_empty() && !text.ends_with('\n') {
            told.push_str("(no line feed)\n")?;
        }
        Ok(told)
    }

    /// The same in one line, with a bar for each line feed.
    pub fn tell_in_line(&self, alloc: Global) -> Result<String, AllocError> {
        let status = self.status;
        let mut told = format!(in alloc; "{status:?}: ")?;
        for line in self.text().split_inclusive('\n') {
            match line.strip_suffix('\n') {
                Some(whole) => write!(told, "{whole}|")?,
                None => told.push_str(line)?,
            }
        }
        told.push_str("\n")?;
        Ok(told)
    }
}
