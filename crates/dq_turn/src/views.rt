use dq_journal::Entry;
use std::collections::LinkedList;

/// What a seat of the table is.
pub enum Role {
    Keeper,
    Lane,
    /// It was joined.
    Spent,
}

/// Where the seat of a lane stands.
pub enum Stage<S> {
    Outside,
    /// It has drawn this ticket.
    Waiting(u64),
    /// It has the turn of this ticket, and the history is the journal of this state.
    Inside(u64, S),
}

/// What a keeper keeps of a lane whose seat was joined: what the seat has seen, and the entries that it made, with places.
pub struct Joined {
    pub lane: u32,
    pub seen: LinkedList<Entry>,
    pub own: LinkedList<(u64, Entry)>,
}

/// What a seat of the table knows. No value of it is made.
pub struct View<S> {
    pub role: Role,
    /// The state that the turnstile was given, so that what was loaded is known.
    pub given: Option<S>,
    /// The lane's number, from 1.
    pub lane: u32,
    pub stage: Stage<S>,
    pub seen: LinkedList<Entry>,
    /// The entries that the seat made, with their places from 1.
    pub own: LinkedList<(u64, Entry)>,
    /// Of the keeper: how many lanes were handed out.
    pub handed: u32,
    /// Of the keeper: what it had seen before the last join.
    pub before: LinkedList<Entry>,
    /// Of the keeper: the lanes that were joined, in the order of the joins.
    pub joined: LinkedList<Joined>,
}
