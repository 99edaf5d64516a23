//! Transfers over loopback: a receiver, a connector and a sender in one process, each in a thread, over inputs, outputs and listeners
//! that fail, with an abort, with books, and with the totals that each side reports. No contract covers bytes on a socket: these tests do,
//! and the runs of the program.
#![tactic(auto)]

#[cfg(test)]
mod aborts;
#[cfg(test)]
mod books;
#[cfg(test)]
mod counts;
#[cfg(test)]
mod devices;
#[cfg(test)]
mod links;
#[cfg(test)]
mod served;
#[cfg(test)]
mod sides;
#[cfg(test)]
mod times;
#[cfg(test)]
mod totals;
#[cfg(test)]
mod transfers;
#[cfg(test)]
mod wires;
