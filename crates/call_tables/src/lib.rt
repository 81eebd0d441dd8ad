//! One table of the requests of a job, one of the replies, and the keywords of both. Whatever has an arm for each of
//! them (copies, printer, readers, sizes) takes it from here by a macro of its own.
#![tactic(auto)]

mod keywords;
mod replies;
mod requests;
