//! The line that is being read. It stores at most as many digits as the longest packet has.

ghost use Rattle.std.specs.Prelude.{◌≡◌, ◌≢◌, ◌↔◌, ◌<◌, ◌≤◌, ◌+◌, ◌++◌, ◌∷◌, [], ◌^◌, ◌==◌, false, ℕ, List, length, OnOk, IfOk, IsTrue};
ghost use Rattle.std.specs.Bool.{OnTrue, OnFalse};
ghost use Rattle.std.specs.List.{All};
ghost use Rattle.ilpstream_frames.specs.LineSoFar.{with_digit, with_digits, AreDigits, HasOther, StandsFor, Spells, no_line, text_of_line};

use crate::digits::{decode, digits_before};
use crate::error::LineError;
use st_frames::{FrameError, MAX_PACKET};
use std::alloc::{AllocError, Allocator};
use std::marker::Model;

/// The digits of the longest packet.
const MAX_DIGITS: usize = 2 * MAX_PACKET;

/// What ended a line.
#[derive(Clone, Copy)]
pub enum LineEnd {
    /// A newline.
    Newline,
    /// The end of the input.
    InputEnd,
}

/// What the characters of a line are so far.
#[derive(Clone, Copy)]
pub enum Shape {
    /// Hexadecimal digits only.
    Digits,
    /// Hexadecimal digits, and then one carriage return, which may belong to the end of the line.
    DigitsAndReturn,
    /// Something else, whatever follows.
    NotHex,
}

/// The line so far: the number of its digits, and the first of them, at most `MAX_DIGITS`.
#[derive(Drop)]
pub struct LineSoFar<A: Allocator + Copy> {
    digits: Vec<u8, A>,
    count: u64,
    shape: Shape,
    alloc: A,
}

impl<A: Allocator + Copy> Model for LineSoFar<A> {
    ghost use Rattle.ilpstream_frames.specs.LineSoFar.{LineState};

    ghost Value = { LineState };

    ghost view = { λ s. record { digits = s.digits.items; count = s.count; shape = s.shape } };
}

impl<A: Allocator + Copy> LineSoFar<A> {
    /// Makes an empty line. Does not allocate.
    pub fn new(alloc: A) -> LineSoFar<A>
        ensures { result ≡ no_line }
    {
        LineSoFar {
            digits: Vec::new(alloc),
            count: 0,
            shape: Shape::Digits,
            alloc,
        }
    }

    /// Empties the line, so that the next one can be read.
    pub fn clear(&mut self)
        ensures { self.new ≡ no_line }
    {
        self.digits.clear();
        self.count = 0;
        self.shape = Shape::Digits;
    }

    /// Whether no byte of the line was appended.
    pub fn is_fresh(&self) -> bool
        ensures yes { OnTrue result ((line : List ℕ) → StandsFor self.now line → line ≡ []) }
        ensures no { OnFalse result ((line : List ℕ) → StandsFor self.now line → line ≢ []) }
    {
        match self.shape {
            Shape::Digits => self.count == 0,
            Shape::DigitsAndReturn | Shape::NotHex => false,
        }
    }

    /// Appends bytes of the line. Fails if memory is refused.
    pub fn extend(&mut self, bytes: &[u8]) -> Result<(), AllocError>
        requires bytes { All (λ b. (b == 10) ≡ false) bytes.now }
        requires count { self.old.count + length bytes.now < 2 ^ 64 }
        ensures line { OnOk result ((line : List ℕ) → StandsFor self.old line → StandsFor self.new (line ++ bytes.now)) }
        ensures count { OnOk result (self.new.count ≤ self.old.count + length bytes.now) }
    {
        match self.shape {
            Shape::Digits => self.extend_digits(bytes),
            Shape::DigitsAndReturn | Shape::NotHex => self.push_each(bytes),
        }
    }

    fn extend_digits(&mut self, bytes: &[u8]) -> Result<(), AllocError>
        requires bytes { All (λ b. (b == 10) ≡ false) bytes.now }
        requires count { self.old.count + length bytes.now < 2 ^ 64 }
        requires shape { self.old.shape ≡ Shape.Digits }
        ensures line { OnOk result ((line : List ℕ) → StandsFor self.old line → StandsFor self.new (line ++ bytes.now)) }
        ensures count { OnOk result (self.new.count ≤ self.old.count + length bytes.now) }
    {
        let count = digits_before(bytes);
        self.push_digits(&bytes[..count])?;
        self.push_each(&bytes[count..])?;
        Ok(())
    }

    /// Appends digits, of which it stores the first as long as there is room.
    fn push_digits(&mut self, digits: &[u8]) -> Result<(), AllocError>
        requires { self.old.count + length digits.now < 2 ^ 64 }
        ensures { OnOk result (self.new ≡ with_digits digits.now self.old) }
    {
        let room = MAX_DIGITS.saturating_sub(self.digits.len());
        let stored = digits.len().min(room);
        self.digits.extend_from_slice(&digits[..stored])?;
        self.count += digits.len() as u64;
        Ok(())
    }

    fn push_each(&mut self, bytes: &[u8]) -> Result<(), AllocError>
        requires bytes { All (λ b. (b == 10) ≡ false) bytes.now }
        requires count { self.old.count + length bytes.now < 2 ^ 64 }
        ensures line { OnOk result ((line : List ℕ) → StandsFor self.old line → StandsFor self.new (line ++ bytes.now)) }
        ensures count { OnOk result (self.new.count ≤ self.old.count + length bytes.now) }
    {
        for byte in bytes {
            self.push(*byte)?;
        }
        Ok(())
    }

    fn push(&mut self, byte: u8) -> Result<(), AllocError>
        requires byte { byte ≢ 10 }
        requires count { self.old.count + 1 < 2 ^ 64 }
        ensures line { OnOk result ((line : List ℕ) → StandsFor self.old line → StandsFor self.new (line ++ byte ∷ [])) }
        ensures count { OnOk result (self.new.count ≤ self.old.count + 1) }
    {
        match self.shape {
            Shape::Digits => self.push_after_digits(byte),
            Shape::DigitsAndReturn | Shape::NotHex => {
                self.shape = Shape::NotHex;
                Ok(())
            }
        }
    }

    fn push_after_digits(&mut self, byte: u8) -> Result<(), AllocError>
        requires byte { byte ≢ 10 }
        requires count { self.old.count + 1 < 2 ^ 64 }
        requires shape { self.old.shape ≡ Shape.Digits }
        ensures line { OnOk result ((line : List ℕ) → StandsFor self.old line → StandsFor self.new (line ++ byte ∷ [])) }
        ensures count { OnOk result (self.new.count ≤ self.old.count + 1) }
    {
        if byte.is_ascii_hexdigit() {
            self.push_digit(byte)?;
            return Ok(());
        }
        if byte == b'\r' {
            self.shape = Shape::DigitsAndReturn;
            return Ok(());
        }
        self.shape = Shape::NotHex;
        Ok(())
    }

    fn push_digit(&mut self, byte: u8) -> Result<(), AllocError>
        requires { self.old.count + 1 < 2 ^ 64 }
        ensures { OnOk result (self.new ≡ with_digit byte self.old) }
    {
        if self.digits.len() < MAX_DIGITS {
            self.digits.push(byte)?;
        }
        self.count += 1;
        Ok(())
    }

    /// Whether the line's text is of digits alone.
    fn is_of_digits(&self, end: LineEnd) -> bool
        ensures digits { OnTrue result ((line : List ℕ) → StandsFor self.now line → AreDigits self.now (text_of_line end line)) }
        ensures other { OnFalse result ((line : List ℕ) → StandsFor self.now line → HasOther (text_of_line end line)) }
    {
        match (self.shape, end) {
            (Shape::Digits, _) => true,
            (Shape::DigitsAndReturn, LineEnd::Newline) => true,
            (Shape::DigitsAndReturn, LineEnd::InputEnd) => false,
            (Shape::NotHex, _) => false,
        }
    }

    /// Whether the line, ended in this way, has no text.
    pub fn is_empty(&self, end: LineEnd) -> bool
        ensures { (line : List ℕ) → StandsFor self.now line → (IsTrue result ↔ (length (text_of_line end line) ≡ 0)) }
    {
        if !self.is_of_digits(end) {
            return false;
        }
        self.count == 0
    }

    /// The bytes that the line, ended in this way, spells. The inner error is `NotHex`, or `Packet` if the line is
    /// longer than any packet. The outer error says that memory is refused.
    pub fn bytes(&self, end: LineEnd) -> Result<Result<Vec<u8, A>, LineError>, AllocError>
        ensures { IfOk result (λ answer. (line : List ℕ) → StandsFor self.now line → Spells (λ v. v.items) (text_of_line end line) answer) }
    {
        if self.is_of_digits(end) {
            self.decoded()
        } else {
            Ok(Err(LineError::NotHex))
        }
    }

    fn decoded(&self) -> Result<Result<Vec<u8, A>, LineError>, AllocError>
        ensures { IfOk result (λ answer. (text : List ℕ) → AreDigits self.now text → Spells (λ v. v.items) text answer) }
    {
        if self.count % 2 == 1 {
            return Ok(Err(LineError::NotHex));
        }
        if self.count > MAX_DIGITS as u64 {
            return Ok(Err(LineError::Packet(FrameError::TooLong)));
        }
        match decode(self.alloc, self.digits.as_slice())? {
            Some(bytes) => Ok(Ok(bytes)),
            None => Ok(Err(LineError::NotHex)),
        }
    }
}
