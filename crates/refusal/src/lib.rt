// The refusals: every cause for which a call of this library says no, each with its number.
//
// A call that refuses answers one of these and changes nothing. The list is closed: where a call has several causes to
// refuse, it says which one counts first. Want of memory is no refusal; the few calls that reserve memory have an error
// of their own for it.
#![tactic(auto)]

mod cause;

pub use cause::Refusal;
