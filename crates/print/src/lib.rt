// Standard output. A write that fails is passed over: the programs have nowhere else to say so.
#![tactic(auto)]

use std::fmt;

const STANDARD_OUTPUT: i32 = 1;

// Prints these bytes as they stand.
pub fn word(text: &[u8]) {
    io::write_all(STANDARD_OUTPUT, text);
}

// Standard output, as `write!` takes it.
#[derive(Clone, Copy)]
pub struct Output;

impl fmt::Write for Output {
    fn write_str(&mut self, text: &str) -> fmt::Result {
        word(text.as_bytes());
        Ok(())
    }
}
