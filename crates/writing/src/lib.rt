// The text of an area put into bytes that are lent for it.
#![tactic(auto)]

pub mod form; // form.rt: the forms of a text, and the fields of its line 1
pub mod held; // held.rt: which levels have a line
pub mod lines; // lines.rt: the lines of a text
pub mod put; // put.rt: an area's text
