//! Examples of docs/LIBRARY.md, word for word: what they do and what they answer. Each can be pasted as it is.

mod passing;
mod tickets;
