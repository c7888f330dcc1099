// Questions about known answers, as lines of text, and their answers.
//
// A line is `CIPHER OPERATION KEY START TEXT`. `answer::answer` says what is replied to it, whatever bytes it has.
#![tactic(auto)]

pub mod answer;
pub mod question;
pub mod reply;
pub mod words;
