//! Seals a text again and again, makes keys, encrypts blocks and opens what it sealed, for `bench/aes.sh` to time. Its
//! arguments are the text's length in bytes, how often it is sealed, how many keys are made, how many blocks are encrypted
//! and how often the text is sealed and opened; what is left out is 0. It prints the last tag or block, and then how often
//! the text was opened, if it was to be.
#![tactic(auto)]

use st_aes::{Key, block, seal, unseal};
use std::{env, io};

/// The IV number `n`.
fn iv(n: u64) -> [u8; 12] {
    let mut iv = [0; 12];
    iv[4..].copy_from_slice(&n.to_be_bytes());
    iv
}

/// Seals the text where it lies, `times` times, each time under the next IV, and gives the last tag.
#[inline(never)]
fn seal_again(key: &Key, text: &mut [u8], times: u64) -> [u8; 16] {
    let mut tag = [0; 16];
    for n in 0..times {
        tag = seal(key, iv(n), text);
    }
    tag
}

/// Makes `times` keys, each out of the tag that the one before gave to the empty text, and gives the last tag.
#[inline(never)]
fn key_again(tag: [u8; 16], times: u64) -> [u8; 16] {
    let mut tag = tag;
    for _ in 0..times {
        let mut bytes = [0; 32];
        bytes[..16].copy_from_slice(&tag);
        tag = seal(&Key::new(bytes), [0; 12], &mut []);
    }
    tag
}

/// Encrypts a block `times` times over.
#[inline(never)]
fn block_again(key: &Key, first: [u8; 16], times: u64) -> [u8; 16] {
    let mut last = first;
    for _ in 0..times {
        let next = block(key, last);
        last = next;
    }
    last
}

/// Seals and opens the text where it lies, `times` times, and gives how often it was opened.
#[inline(never)]
fn open_again(key: &Key, text: &mut [u8], times: u64) -> u64 {
    let mut opened = 0u64;
    for n in 0..times {
        let tag = seal(key, iv(n), text);
        if unseal(key, iv(n), tag, text) {
            opened = opened.wrapping_add(1);
        }
    }
    opened
}

/// The number that a word spells, or 0.
fn number(word: Option<String>) -> usize {
    match word {
        Some(word) => word.as_str().parse().unwrap_or(0),
        None => 0,
    }
}

fn main(rt: HostRuntime) -> io::Result<()> {
    let mut words = env::args(&rt)?;
    let _program = words.next();
    let bytes = number(words.next());
    let seals = number(words.next());
    let keys = number(words.next());
    let blocks = number(words.next());
    let opens = number(words.next());
    let key = Key::new([0; 32]);
    let mut text = vec![in rt.alloc(); 0u8; bytes]?;
    let tag = seal_again(&key, &mut text, seals as u64);
    let tag = key_again(tag, keys as u64);
    for byte in block_again(&key, tag, blocks as u64) {
        print!(rt; "{byte:02x}")?;
    }
    if opens > 0 {
        print!(rt; " {}", open_again(&key, &mut text, opens as u64))?;
    }
    println!(rt)?;
    Ok(())
}
