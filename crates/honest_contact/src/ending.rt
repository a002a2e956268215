// What is told of a contact.
use board::Event;

// How many of its calls were declined, how many events were logged, and the first two of them.
#[derive(Clone, Copy, Debug, PartialEq, Eq)]
pub struct Ending {
    pub declined: usize,
    pub logged: usize,
    pub first: Option<Event>,
    pub second: Option<Event>,
}
