//! Lines of the program and the replies to them.
mod faults;
mod replies;
mod streams;
