//! Bytes in the making, from words.

use super::frames::{digits_of, text_of};
use std::alloc::{AllocError, Global};

/// Bytes in the making.
#[derive(Drop)]
pub struct Draft {
    pub bytes: Vec<u8>,
    /// Whether a word was none, or memory ran out.
    pub failed: bool,
}

impl Draft {
    pub fn new(alloc: Global) -> Draft {
        Draft {
            bytes: Vec::new(alloc),
            failed: false,
        }
    }

    pub fn put(&mut self, bytes: &[u8]) {
        if self.bytes.extend_from_slice(bytes).is_err() {
            self.failed = true;
        }
    }

    /// Puts a record of this kind.
    pub fn put_record(&mut self, kind: u8, body: &[u8]) {
        self.put(&[kind]);
        self.put(&(body.len() as u64).to_be_bytes());
        self.put(body);
    }

    /// Puts the low bytes of a number, so many of them.
    fn put_number(&mut self, number: u64, width: usize) {
        let all = number.to_be_bytes();
        let (_, low) = all.split_at(8 - width.min(8));
        self.put(low);
    }

    /// Puts what a word says: `8:5` and `4:5` are numbers in so many bytes, `stamp:1:0` what write 1 puts into block
    /// 0, `text:NAME` a job file, `frame:NAME` a frame, and all else hexadecimal digits.
    pub fn put_word(&mut self, word: &str) {
        match word.split_once(':') {
            Some(("stamp", rest)) => self.put_stamp(rest),
            Some(("text", name)) => self.put(text_of(name).as_bytes()),
            Some(("frame", name)) => self.put_hex(digits_of(name)),
            Some((width, number)) => self.put_numeral(width, number),
            None => self.put_hex(word),
        }
    }

    fn put_numeral(&mut self, width: &str, number: &str) {
        match (width.parse::<u64>(), number.parse::<u64>()) {
            (Ok(width), Ok(number)) => self.put_number(number, width.min(8) as usize),
            _ => self.failed = true,
        }
    }

    /// Puts what a write of run 1, server 0, job 0 puts into a block of one sector, by the layout that the manual
    /// gives it: run, server, job, write, block and sector, and 476 bytes that count up from the write's number.
    fn put_stamp(&mut self, words: &str) {
        let (write, block) = words.split_once(':').unwrap_or(("", ""));
        let (Ok(write), Ok(block)) = (write.parse::<u64>(), block.parse::<u64>()) else {
            self.failed = true;
            return;
        };
        self.put_number(1, 8);
        self.put_number(0, 8);
        self.put_number(write, 8);
        self.put_number(block, 8);
        self.put_number(0, 4);
        for place in 0..476u64 {
            self.put_number(write.wrapping_add(place), 1);
        }
    }

    /// Puts the bytes that hexadecimal digits say: behind `_` they go on, and `78*9` is the byte 78 nine times.
    fn put_hex(&mut self, digits: &str) {
        for part in digits.split('_') {
            match part.split_once('*') {
                Some((part, times)) => self.put_times(part, times.parse::<u64>().unwrap_or(0)),
                None => self.put_digits(part),
            }
        }
    }

    fn put_times(&mut self, digits: &str, times: u64) {
        for _ in 0..times {
            self.put_digits(digits);
        }
    }

    fn put_digits(&mut self, digits: &str) {
        let mut high = None;
        for digit in digits.chars() {
            let Some(digit) = digit.to_digit(16) else {
                self.failed = true;
                return;
            };
            high = match high {
                None => Some(digit),
                Some(high) => {
                    self.put_number(u64::from(high) * 16 + u64::from(digit), 1);
                    None
                }
            };
        }
    }

    /// The bytes, where all words were good.
    pub fn into_bytes(self) -> Result<Vec<u8>, AllocError> {
        let Draft { bytes, failed } = self;
        if failed { Err(AllocError) } else { Ok(bytes) }
    }
}
