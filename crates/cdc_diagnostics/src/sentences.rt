//! Sentences with numbers in them.

use std::fmt;

/// A sentence without allocation: words with numbers between them.
#[derive(Clone, Copy)]
pub enum Sentence {
    Plain(&'static str),
    One(&'static str, u128, &'static str),
    Two(&'static str, u128, &'static str, u128, &'static str),
    Three(&'static str, u128, &'static str, u128, &'static str, u128, &'static str),
    Four(&'static str, u128, &'static str, u128, &'static str, u128, &'static str, u128),
}

impl fmt::Display for Sentence {
    fn fmt<W: fmt::Write>(&self, f: &mut fmt::Formatter<W>) -> fmt::Result {
        match *self {
            Sentence::Plain(words) => write!(f, "{words}"),
            Sentence::One(before, number, after) => write!(f, "{before}{number}{after}"),
            Sentence::Two(before, first, between, second, after) => {
                write!(f, "{before}{first}{between}{second}{after}")
            }
            Sentence::Three(a, first, b, second, c, third, d) => {
                write!(f, "{a}{first}{b}{second}{c}{third}{d}")
            }
            Sentence::Four(a, first, b, second, c, third, d, fourth) => {
                write!(f, "{a}{first}{b}{second}{c}{third}{d}{fourth}")
            }
        }
    }
}
