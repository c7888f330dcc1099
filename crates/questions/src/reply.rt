// What is said to each question, as text, and how many questions were answered, refused or not understood.
ghost use Rattle.std.specs.Prelude.{◌≡◌, IfOk, Some, string_bytes};
ghost use Rattle.questions.specs.Reply.{shown, none_counted, counted, tally_line};

use hexadecimal::Word;
use refusal::Refusal;
use std::alloc::{AllocError, Global};
use std::fmt;

// The answer to one question: bytes, a refusal, or that the line was no question.
// Not an `Option` of a `Result`: that a line is no question is an answer like the others, and is counted as one.
#[derive(Drop)]
pub enum Reply {
    Bytes(Vec<u8>),
    Refused(Refusal),
    NotUnderstood,
}

// A reply is printed as its bytes as a word, as `!` and the number of a refusal, or as `?`.
impl fmt::Display for Reply {
    ghost output = { λ reply. Some (shown reply) };

    fn fmt<W: fmt::Write>(&self, f: &mut fmt::Formatter<W>) -> fmt::Result {
        match self {
            Reply::Bytes(bytes) => write!(f, "{}", Word { bytes }),
            Reply::Refused(refusal) => write!(f, "!{}", refusal.number()),
            Reply::NotUnderstood => f.write_str("?"),
        }
    }
}

impl Reply {
    // The reply as it is printed.
    pub fn text(&self, heap: Global) -> Result<String, AllocError>
        ensures { IfOk result (λ s. string_bytes s ≡ shown self.now) }
    {
        self.to_string(heap)
    }
}

// How many questions had each kind of reply.
#[derive(Clone, Copy, Default)]
pub struct Tally {
    answered: u64,
    refused: u64,
    not_understood: u64,
}

impl Tally {
    // Nothing is counted yet.
    pub fn new() -> Tally
        ensures { result ≡ none_counted }
    {
        Tally::default()
    }

    // Counts one reply more, as what it is. A count that is full stays full.
    pub fn count(&mut self, reply: &Reply)
        ensures { self.new ≡ counted self.old reply.now }
    {
        match reply {
            Reply::Bytes(_) => self.answered = self.answered.saturating_add(1),
            Reply::Refused(_) => self.refused = self.refused.saturating_add(1),
            Reply::NotUnderstood => self.not_understood = self.not_understood.saturating_add(1),
        }
    }
}

impl fmt::Display for Tally {
    ghost output = { λ tally. Some (tally_line tally) };

    fn fmt<W: fmt::Write>(&self, f: &mut fmt::Formatter<W>) -> fmt::Result {
        write!(
            f,
            "{} answered, {} refused, {} not understood",
            self.answered, self.refused, self.not_understood
        )
    }
}
