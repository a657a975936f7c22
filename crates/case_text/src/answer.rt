use crate::show::{ShowHex, ShowPosition};
use crate::wrong::Wrong;
use pg_types::{Lsn, Place};
use std::alloc::Global;

/// An answer, which is made part by part. Where memory runs out it is lost, and `finish` says so: what makes
/// an answer need not ask after each part.
#[derive(Drop)]
pub struct Answer {
    text: String,
    lost: bool,
}

impl Answer {
    pub fn new(alloc: Global) -> Answer {
        Answer {
            text: String::new(alloc),
            lost: false,
        }
    }

    pub fn say(&mut self, text: &str) {
        if self.text.push_str(text).is_err() {
            self.lost = true;
        }
    }

    /// A number in decimal digits.
    pub fn number(&mut self, number: u64) {
        if write!(self.text, "{number}").is_err() {
            self.lost = true;
        }
    }

    pub fn signed(&mut self, number: i64) {
        if write!(self.text, "{number}").is_err() {
            self.lost = true;
        }
    }

    /// Words, and the number behind them.
    pub fn field(&mut self, name: &str, number: u64) {
        self.say(name);
        self.number(number);
    }

    /// Words, and the number behind them in hex digits.
    pub fn hex(&mut self, name: &str, number: u64) {
        self.say(name);
        if write!(self.text, "{number:x}").is_err() {
            self.lost = true;
        }
    }

    /// Words, and the bytes of a field behind them, the highest first, as `0x0802`.
    pub fn mask(&mut self, name: &str, bytes: &[u8]) {
        self.say(name);
        self.say("0x");
        self.bytes(bytes);
    }

    /// Bytes, two lower-case hex digits each, and none as `-`.
    pub fn bytes(&mut self, bytes: &[u8]) {
        let shown = ShowHex(bytes);
        if write!(self.text, "{shown}").is_err() {
            self.lost = true;
        }
    }

    /// Words, and the position behind them.
    pub fn position(&mut self, name: &str, at: Lsn) {
        self.say(name);
        let shown = ShowPosition(at);
        if write!(self.text, "{shown}").is_err() {
            self.lost = true;
        }
    }

    /// Words, and behind them a place as `0,1`.
    pub fn place(&mut self, name: &str, place: Place) {
        self.field(name, u64::from(place.block));
        self.field(",", u64::from(place.line));
    }

    /// The whole answer.
    pub fn finish(self) -> Result<String, Wrong> {
        if self.lost {
            Err(Wrong::Memory)
        } else {
            Ok(self.text)
        }
    }
}
