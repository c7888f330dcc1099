// Why a call says no.

ghost use Rattle.std.specs.Prelude.{◌≡◌, ◌==◌, Decides, Some};
ghost use Rattle.refusal.specs.Numbers.{number_of};
ghost use Rattle.refusal.specs.Texts.{reason_of, text_of};
ghost use Rattle.std.specs.Cmp.Rules.{comparing};
ghost use Rattle.std.proofs.Common.{rules};

use std::error::Error;
use std::fmt;

// A cause for which a call says no.
#[derive(Clone, Copy, Debug)]
pub enum Refusal {
    // Because of what came in.

    // The cap of a head is outside 1 to 256.
    CapOutOfRange = 1,
    // The idle limit is outside 1 to 86,400 seconds.
    IdleLimitOutOfRange = 2,
    // The last session number used is above 1,099,511,627,775.
    LastSessionOutOfRange = 3,
    // The client number is 0.
    ClientIsZero = 4,
    // The sealing key and the check key have equal bytes.
    KeysEqual = 5,
    // The session number is 0 or above 1,099,511,627,775.
    SessionOutOfRange = 6,
    // The stratum of a record is outside 1 to 16, or its leap indicator outside 0 to 3.
    StratumOrLeapOutOfRange = 7,
    // The work buffer has under 40 bytes.
    WorkBufferTooShort = 8,
    // The frame buffer is too short for this frame.
    FrameBufferTooShort = 9,
    // The length of a frame is outside 24 to 56 bytes, or not whole blocks.
    FrameLengthWrong = 10,
    // The frame number is outside 1 to 1,048,576.
    FrameNumberOutOfRange = 11,
    // The tag is not that of the frame.
    TagDiffers = 12,
    // The body is no record: longer than needed or too short, a filling byte not zero, stratum or leap out of range.
    BodyIsNoRecord = 13,
    // The buffer is not whole blocks.
    NotWholeBlocks = 14,

    // Because of how things stand.

    // The time is before the latest time.
    TimeBeforeLatest = 21,
    // The client has a standing session.
    ClientHasSession = 22,
    // As many sessions stand as the cap allows.
    Full = 23,
    // The session numbers are used up.
    SessionNumbersUsedUp = 24,
    // The session does not stand.
    SessionNotStanding = 25,
    // 1,048,576 frames were posted in the session.
    FrameNumbersUsedUp = 26,
    // The frame is of another session, or was vouched for under other keys.
    OtherSessionOrKeys = 27,
    // A frame of this number was taken already.
    NumberTaken = 28,
    // The number is 64 or more below the highest taken.
    NumberTooOld = 29,
}

impl Refusal {
    // The number by which hosts know the cause.
    pub fn number(self) -> u8
        ensures { result ≡ number_of self }
    {
        self as u8
    }

    // The cause in words.
    fn reason(self) -> &'static str
        ensures { result.now ≡ reason_of self }
    {
        match self {
            Refusal::CapOutOfRange => "the cap of a head is outside 1 to 256",
            Refusal::IdleLimitOutOfRange => "the idle limit is outside 1 to 86,400 seconds",
            Refusal::LastSessionOutOfRange =>
                "the last session number used is above 1,099,511,627,775",
            Refusal::ClientIsZero => "the client number is 0",
            Refusal::KeysEqual => "the sealing key and the check key have equal bytes",
            Refusal::SessionOutOfRange => "the session number is 0 or above 1,099,511,627,775",
            Refusal::StratumOrLeapOutOfRange =>
                "the stratum is outside 1 to 16, or the leap indicator outside 0 to 3",
            Refusal::WorkBufferTooShort => "the work buffer has under 40 bytes",
            Refusal::FrameBufferTooShort => "the frame buffer is too short for this frame",
            Refusal::FrameLengthWrong =>
                "the length of a frame is outside 24 to 56 bytes, or not whole blocks",
            Refusal::FrameNumberOutOfRange => "the frame number is outside 1 to 1,048,576",
            Refusal::TagDiffers => "the tag is not that of the frame",
            Refusal::BodyIsNoRecord => "the body is no record",
            Refusal::NotWholeBlocks => "the buffer is not whole blocks",
            Refusal::TimeBeforeLatest => "the time is before the latest time",
            Refusal::ClientHasSession => "the client has a standing session",
            Refusal::Full => "as many sessions stand as the cap allows",
            Refusal::SessionNumbersUsedUp => "the session numbers are used up",
            Refusal::SessionNotStanding => "the session does not stand",
            Refusal::FrameNumbersUsedUp => "1,048,576 frames were posted in the session",
            Refusal::OtherSessionOrKeys =>
                "the frame is of another session, or was vouched for under other keys",
            Refusal::NumberTaken => "a frame of this number was taken already",
            Refusal::NumberTooOld => "the number is 64 or more below the highest taken",
        }
    }
}

// Two refusals are equal where they are the same cause: no two causes have one number.
// It is written by hand: a derive takes no clause, and `==` promises in its own contract what it compares (`value`) and what that
// tells (`same_cause`).
impl PartialEq for Refusal {
    ghost eq = { λ x y. number_of x == number_of y };

    ghost laws = { Prim.search (comparing, rules) };

    fn eq(&self, other: &Refusal) -> bool
        ensures value { result ≡ (number_of self.now == number_of other.now) }
        ensures same_cause { Decides result (self.now ≡ other.now) }
    {
        self.number() == other.number()
    }
}

impl Eq for Refusal {
    ghost laws = { Prim.search (comparing, rules) };
}

// A refusal is printed as its number and its cause in words.
// It is written by hand: a derive of `thiserror` prints the same, and a proof would know nothing of the text.
impl fmt::Display for Refusal {
    ghost output = { λ refusal. Some (text_of refusal) };

    fn fmt<W: fmt::Write>(&self, f: &mut fmt::Formatter<W>) -> fmt::Result {
        write!(f, "refusal {}: {}", self.number(), self.reason())
    }
}

impl Error for Refusal {}
