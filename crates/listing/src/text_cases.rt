// Cases of single texts: each prints a word, its text, and what the text states or why it is refused.
ghost use Rattle.std.specs.Prelude.{◌<◌, ◌^◌};

use crate::print;
use crate::texts::{lay_apart, print_run};
use std::fmt::Display;
use std::io;

// What is asked of the texts.
pub trait Judge {
    type Value: Display + Copy;

    type Refusal: Display + Copy;

    fn judge(&self, text: &[u8]) -> Result<Self::Value, Self::Refusal>;
}

// Prints cases that begin with one word.
#[derive(Drop)]
pub struct TextCases<'a, P, J> {
    pub rt: &'a P,
    pub word: &'a str,
    pub judge: J,
}

impl<P: Print, J: Judge> TextCases<'_, P, J> {
    // A text that prints stands in brackets.
    pub fn case(&self, text: &[u8]) -> io::Result<()> {
        print!(self.rt; "{} [", self.word)?;
        print(self.rt, text)?;
        print(self.rt, b"] ")?;
        self.answer(text)
    }

    // Any other has a name in angle brackets.
    pub fn named_case(&self, name: &str, text: &[u8]) -> io::Result<()> {
        print!(self.rt; "{} <{name}> ", self.word)?;
        self.answer(text)
    }

    // A text with one byte between a head and a tail.
    pub fn byte_case(&self, head: &[u8], byte: u8, tail: &[u8]) -> io::Result<()> {
        self.run_case::<64>(head, byte, 1, tail)
    }

    // A text with a run of at most a million bytes.
    pub fn long_case(&self, head: &[u8], byte: u8, count: usize, tail: &[u8]) -> io::Result<()> {
        self.run_case::<1000064>(head, byte, count, tail)
    }

    // A text of a head, a run of one byte, and a tail, laid into a buffer of N bytes.
    fn run_case<const N: usize>(
        &self,
        head: &[u8],
        byte: u8,
        count: usize,
        tail: &[u8],
    ) -> io::Result<()>
        requires { N < 2 ^ 63 }
    {
        let mut buffer = [byte; N];
        let length = lay_apart(&mut buffer, head, count, tail);
        print!(self.rt; "{} ", self.word)?;
        print_run(self.rt, head, byte, count, tail)?;
        print(self.rt, b" ")?;
        self.answer(&buffer[..length])
    }

    fn answer(&self, text: &[u8]) -> io::Result<()> {
        match self.judge.judge(text) {
            Ok(value) => println!(self.rt; "{value}"),
            Err(refusal) => println!(self.rt; "{refusal}"),
        }
    }
}
