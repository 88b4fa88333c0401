// Reads one day sheet from standard input and prints its day: a line for each slot and the verdict,
// or the refusal's number.

#![tactic(auto)]

// The longest input that is taken for a sheet, in bytes.
const LONGEST: usize = 4096;

fn main() {
    let mut input = [0u8; LONGEST + 1];
    let length = io::read_full(0, &mut input);
    if LONGEST < length {
        print::word(b"too long\n");
        return;
    }
    listing::print_day(&input[..length]);
}
