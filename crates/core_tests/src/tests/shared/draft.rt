//! Bytes in the making.

use super::trouble::Trouble;
use std::alloc::Global;

/// Bytes in the making. What goes wrong meanwhile is kept, and told at the end.
#[derive(Drop)]
pub struct Draft {
    bytes: Vec<u8>,
    trouble: Option<Trouble>,
}

impl Draft {
    pub fn new(alloc: Global) -> Draft {
        Draft {
            bytes: Vec::new(alloc),
            trouble: None,
        }
    }

    /// Begins anew.
    pub fn clear(&mut self) {
        self.bytes.clear();
        self.trouble = None;
    }

    pub fn bytes(&self) -> &[u8] {
        self.bytes.as_slice()
    }

    pub fn bytes_mut(&mut self) -> &mut [u8] {
        self.bytes.as_mut_slice()
    }

    /// Puts these bytes behind the others.
    pub fn put(&mut self, bytes: &[u8]) {
        if self.bytes.extend_from_slice(bytes).is_err() {
            self.trouble = Some(Trouble::NoMemory);
        }
    }

    /// Puts the low bytes of a number, so many of them.
    pub fn put_number(&mut self, number: u64, width: usize) {
        let all = number.to_be_bytes();
        let (_, low) = all.split_at(8 - width.min(8));
        self.put(low);
    }

    /// Puts the bytes that hexadecimal digits say: behind `_` they go on, and `78*9` is the byte 78 nine
    /// times.
    pub fn put_hex(&mut self, digits: &str) {
        for part in digits.split('_') {
            match part.split_once('*') {
                Some((part, times)) => self.put_times(part, times.parse::<u64>().unwrap_or(0)),
                None => self.put_digits(part),
            }
        }
    }

    fn put_times(&mut self, digits: &str, times: u64) {
        for _ in 0..times {
            self.put_digits(digits);
        }
    }

    fn put_digits(&mut self, digits: &str) {
        let mut high = None;
        for digit in digits.chars() {
            let Some(digit) = digit.to_digit(16) else {
                return self.give_up();
            };
            high = match high {
                None => Some(digit),
                Some(high) => {
                    self.put_number(u64::from(high) * 16 + u64::from(digit), 1);
                    None
                }
            };
        }
    }

    /// The bytes can't be made: the row is none.
    pub fn give_up(&mut self) {
        self.trouble = Some(Trouble::BadRow);
    }

    /// Whether the bytes are just these.
    pub fn has_just(&self, bytes: &[u8]) -> Result<bool, Trouble> {
        match self.trouble {
            Some(trouble) => Err(trouble),
            None => Ok(self.bytes.as_slice() == bytes),
        }
    }

    /// The bytes, or what went wrong.
    pub fn into_bytes(self) -> Result<Vec<u8>, Trouble> {
        let Draft { bytes, trouble } = self;
        match trouble {
            Some(trouble) => Err(trouble),
            None => Ok(bytes),
        }
    }

    /// Tells what went wrong, if something did.
    pub fn told(&self) -> Result<(), Trouble> {
        match self.trouble {
            Some(trouble) => Err(trouble),
            None => Ok(()),
        }
    }
}
