// A line of the script: one call on the table, with its octets in hexadecimal.
//   make AFI
//   install NLRI ATTRIBUTE
//   withdraw NLRI
//   match ROUTER SOURCE GROUP
use crate::answer::Answer;
use crate::script::{FIELD, after, decode};
use std::io;

// Each line in turn. A field that a line lacks is looked for in those that follow.
pub(crate) fn run_all(
    rt: &impl Print,
    text: &[u8],
    table: &mut [u8],
    output: &mut [u8],
) -> io::Result<()> {
    let mut rest = text;
    while !rest.is_empty() {
        println!(rt; "{}", run(rest, table, output))?;
        rest = after(rest, b'\n');
    }
    Ok(())
}

// The call that a line's first word names, by the word's size with the space behind it, on the fields that follow.
fn run<'a>(text: &[u8], table: &mut [u8], output: &'a mut [u8]) -> Answer<'a> {
    let fields = after(text, b' ');
    match text.len() - fields.len() {
        5 => make(fields, table),
        6 => match_flow(fields, table, output),
        8 => install(fields, table),
        _ => withdraw(fields, table),
    }
}

// Makes the table anew, for an AFI of two octets.
fn make(fields: &[u8], table: &mut [u8]) -> Answer<'static> {
    let mut afi = [0; 2];
    decode(fields, &mut afi);
    Answer::Make(table::make(u16::from_be_bytes(afi), table))
}

// Installs the NLRI and the attribute that the line gives.
fn install(fields: &[u8], table: &mut [u8]) -> Answer<'static> {
    let mut nlri = [0; FIELD];
    let mut attribute = [0; FIELD];
    Answer::Install(table::install(
        table,
        decode(fields, &mut nlri),
        decode(after(fields, b' '), &mut attribute),
    ))
}

// Withdraws the NLRI that the line gives.
fn withdraw(fields: &[u8], table: &mut [u8]) -> Answer<'static> {
    let mut nlri = [0; FIELD];
    Answer::Withdraw(table::withdraw(table, decode(fields, &mut nlri)))
}

// Matches the flow of source and group among the router's routes.
fn match_flow<'a>(fields: &[u8], table: &[u8], output: &'a mut [u8]) -> Answer<'a> {
    let mut router = [0; FIELD];
    let mut source = [0; FIELD];
    let mut group = [0; FIELD];
    let sources = after(fields, b' ');
    let answer = matches::match_flow(
        table,
        &[0; 2],
        decode(fields, &mut router),
        decode(sources, &mut source),
        decode(after(sources, b' '), &mut group),
        output,
    );
    Answer::Match(answer, output)
}
