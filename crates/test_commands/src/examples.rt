//! An example of docs/LIBRARY.md, word for word: what it does and what it answers. It can be pasted as it is.

mod lines;
