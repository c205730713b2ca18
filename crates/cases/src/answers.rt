// What the cases are printed to, and how an answer is printed.
use codes::Refusal;
use std::fmt;
use std::fmt::Write;

// Standard output, through the kit's `io`. A write that fails is passed over, and the next one is tried.
// Stays: in each program, since a crate more for twelve lines would be no plainer.
#[derive(Clone, Copy)]
pub struct Stdout;

impl fmt::Write for Stdout {
    fn write_str(&mut self, text: &str) -> fmt::Result {
        io::write_all(1, text.as_bytes());
        Ok(())
    }
}

// A refusal as the cases print it: document 01's number, and of refusal 4 its pair of places too.
// Stays: here and not in the library. What a Display promises says nothing of a write that fails, and a public function answers in every case.
#[derive(Clone, Copy)]
struct Printed(Refusal);

impl fmt::Display for Printed {
    fn fmt<W: fmt::Write>(&self, f: &mut fmt::Formatter<W>) -> fmt::Result {
        let number = self.0.number();
        match self.0 {
            Refusal::Points { first, second } => write!(f, "{number} at {first} and {second}"),
            _ => write!(f, "{number}"),
        }
    }
}

// An answer: 0 where it is done, else its refusal.
pub fn print_answer<T: Copy>(out: &mut Stdout, answer: Result<T, Refusal>) -> fmt::Result {
    match answer {
        Ok(_) => write!(out, "0"),
        Err(refusal) => write!(out, "{}", Printed(refusal)),
    }
}
