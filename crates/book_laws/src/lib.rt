//! What is heard in each message by the one who takes it, and in each answer; what each side has
//! learned of what it took, and of what the other side said; the books that both peers rebuild, and
//! that they are equal: definitions and laws, with no code. A journal is here what one session day
//! has of it, and the connections are those of that day, so each law holds of each day by itself.
//!
//! What is heard is `Heard` of `specs/Heard.antt`: of a body that was taken from a side, and of a
//! message that is given out to a side. What a side learns is `Learned` of `specs/Learned.antt`: a
//! client keeps a book of orders, and for the venue each request means something. What is set aside
//! is in `specs/SetAside.antt`, the books in `specs/Books.antt`, the conversation of a journal in
//! `specs/Pairs.antt`, what is asked of a peer in `specs/Keeps.antt`. Each law is a contract of
//! [`laws`].
#![tactic(auto)]

pub mod laws;
