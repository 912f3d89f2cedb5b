// What a packet is asked to do, the same at every node of its walk.
use net::{Failure, Node};

#[derive(Clone, Copy)]
pub struct Question {
    pub destination: Node,
    pub failure: Failure,
}
