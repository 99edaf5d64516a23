//! Examples of docs/LIBRARY.md, word for word: what they read or do, and what they answer. Each can be pasted as it is.

mod fields;
mod packets;
mod pieces;
mod prepares;
mod responses;
mod sealing;
mod texts;
