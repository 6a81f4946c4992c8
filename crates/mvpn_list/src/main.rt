// Prints where each NLRI of an AFI 1 run on standard input begins, with its type and Length, and where and why the walk stops. With `old` as its only
// argument an unknown route type, and a Source Active route that is discarded, stops the walk; else it is skipped.
#![tactic(auto)]

mod arguments;
mod gathered;
mod input;
mod listing;

ghost use Rattle.std.specs.Prelude.{◌≤◌, length, OnOk};
ghost use Rattle.std.specs.Io.KnownBytes.{Appends};
ghost use Rattle.runs.specs.Modes.{mode_number};
ghost use Rattle.mvpn_list.specs.Listing.{listing_of};

use gathered::Gathered;
use listing::Listing;
use runs::Mode;
use std::env::FillError;
use std::io::{self, Write};
use std::rt::Env;

// One octet more than a run may have, so that a longer one is seen to be so.
const SEEN: usize = 4097;

// Room for a listing, which has at most 28,705 octets.
const ROOM: usize = 65536;

// How many arguments there are, the program's own name among them.
fn argument_count(rt: &impl Env) -> usize {
    (0..usize::MAX)
        .take_while(|&at| !matches!(rt.arg(at, &mut []), Err(FillError::NotPresent)))
        .count()
}

// The mode asked. An argument that is longer than `old` is not taken.
fn asked_mode(rt: &impl Env) -> Mode {
    let mut argument = [0u8; 3];
    let size = rt.arg(1, &mut argument).unwrap_or(0);
    arguments::mode_of(argument_count(rt), &argument[..size])
}

// Writes the listing of a run by one call: the room holds all of it.
fn print_listing<W: Write>(to: &mut W, mode: Mode, run: &[u8]) -> io::Result<()>
    ensures written { OnOk result (Appends (W.contents to.old) (W.contents to.new) (listing_of (mode_number mode) run.now)) }
    ensures fits { length (listing_of (mode_number mode) run.now) ≤ 65536 }
{
    let listing = Listing { mode, run };
    let mut room = [0; ROOM];
    let mut gathered = Gathered::new(&mut room);
    write!(gathered, "{listing}")?;
    to.write_all(gathered.octets())
}

// A run that cannot be read to its end has no listing: nothing is printed, and standard error has the reason.
fn main(rt: HostRuntime) {
    let mode = asked_mode(&rt);
    let mut run = [0u8; SEEN];
    let size = match input::read(&mut rt.stdin(), &mut run) {
        Ok(size) => size,
        Err(error) => {
            let _ = eprintln!(rt; "mvpn_list: standard input: {error}");
            return;
        }
    };
    if let Err(error) = print_listing(&mut rt.stdout(), mode, &run[..size]) {
        let _ = eprintln!(rt; "mvpn_list: standard output: {error}");
    }
}
