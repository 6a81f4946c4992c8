// What a call answers, and the line that tells it: the call's name, the number, and the other fields.
use routes::{Installed, Matched};
use std::fmt;

#[derive(Drop)]
pub(crate) enum Answer<'a> {
    Make(u32),
    Install(Installed),
    Withdraw(u32),
    // With the output, at whose front the route's octets stand.
    Match(Matched, &'a [u8]),
}

impl fmt::Display for Answer<'_> {
    fn fmt<W: fmt::Write>(&self, f: &mut fmt::Formatter<W>) -> fmt::Result {
        match self {
            Answer::Make(number) => write!(f, "make {number}"),
            Answer::Install(answer) => write!(f, "install {} {}", answer.number, answer.outcome),
            Answer::Withdraw(number) => write!(f, "withdraw {number}"),
            Answer::Match(answer, output) => {
                let Matched {
                    number,
                    tier,
                    nlri_size,
                    attribute_size,
                } = *answer;
                write!(f, "match {number} {tier} {nlri_size} {attribute_size}")?;
                if tier == 0 {
                    return Ok(());
                }
                let size = nlri_size as usize + attribute_size as usize;
                write!(f, " {}", Hexadecimal(output.get(..size).unwrap_or(&[])))
            }
        }
    }
}

// Octets in hexadecimal, two digits each.
#[derive(Drop)]
struct Hexadecimal<'a>(&'a [u8]);

impl fmt::Display for Hexadecimal<'_> {
    fn fmt<W: fmt::Write>(&self, f: &mut fmt::Formatter<W>) -> fmt::Result {
        for octet in self.0 {
            write!(f, "{octet:02x}")?;
        }
        Ok(())
    }
}
